//! How playing a script ends.

/// How playing a script ended.
#[derive(Clone, Copy, PartialEq, Eq, Debug)]
pub enum Played {
    /// It was played to its end.
    Done,
    /// As many events were handled as the call was given turns.
    Spent,
    /// The line of this number is the first outside the grammar.
    Bad { line: u64 },
    /// The input failed.
    ReadFault,
    /// The output failed.
    WriteFault,
}
