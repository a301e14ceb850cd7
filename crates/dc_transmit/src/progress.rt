//! How a transmission stands.

/// How a transmission stands after an event.
#[derive(Clone, Copy, PartialEq, Eq, Debug)]
pub enum Progress {
    /// It goes on.
    Waiting,
    /// A packet was accepted as the answer.
    Packet,
    /// No try is left.
    Failed,
    /// The tenth local port in a row was refused.
    NoPort,
}
