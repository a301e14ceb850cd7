//! What worlds, sources and sinks answer.

/// The answer of `World::next`.
#[derive(Clone, Copy, PartialEq, Eq, Debug)]
pub enum Heard {
    /// An event is in the inbox.
    Event,
    /// The events are used up.
    End,
    /// The world failed. Its count of faults rose.
    Failed,
    /// This line of a script is outside its grammar.
    Bad { line: u64 },
}

/// A world failed. Its count of faults rose.
#[derive(Clone, Copy, PartialEq, Eq, Debug)]
pub struct WorldFailed;

/// The answer of `Source::take`.
#[derive(Clone, Copy, PartialEq, Eq, Debug)]
pub enum Taken {
    /// So many bytes were taken. None comes only at the end.
    Bytes(usize),
    /// The source failed. Its count of faults rose.
    Failed,
}

/// The answer of `Sink::put`.
#[derive(Clone, Copy, PartialEq, Eq, Debug)]
pub enum Put {
    /// So many bytes were put.
    Taken(usize),
    /// The sink failed. Its count of faults rose.
    Failed,
}
