//! How a turn of a query ends.
ghost use Rattle.std.specs.Prelude.{◌≡◌};
ghost use Rattle.dc_lines.specs.Causes.{drop_cause_of};
ghost use Rattle.dc_desk.specs.Steps.{cause_of};

use dc_lines::DropCause;

/// How a turn of a query ends.
#[derive(Clone, Copy, Debug, PartialEq, Eq)]
pub enum Outcome {
    /// The query waits for its transmission.
    Waiting,
    /// The desk's reply answers it.
    Replied,
    /// It is given up.
    Dropped(Cause),
}

/// Why a query is given up.
#[derive(Clone, Copy, Debug, PartialEq, Eq)]
pub enum Cause {
    /// It asks for a whole zone (RFC 5936).
    Axfr,
    /// The packet that was accepted is no message.
    Malformed,
    /// It had 99 turns.
    Turns,
    /// It met sixteen aliases, and one more.
    Aliases,
    /// It was referred to a zone that its name isn't under.
    Foreign,
    /// Its reply would pass 65535 bytes.
    TooLong,
    /// Ten local ports in a row were refused.
    NoPort,
}

impl Cause {
    /// The cause as lines name it.
    pub fn drop_cause(self) -> DropCause
        ensures { drop_cause_of result ≡ cause_of self }
    {
        match self {
            Cause::Axfr => DropCause::Axfr,
            Cause::Malformed => DropCause::Malformed,
            Cause::Turns => DropCause::Turns,
            Cause::Aliases => DropCause::Aliases,
            Cause::Foreign => DropCause::Foreign,
            Cause::TooLong => DropCause::TooLong,
            Cause::NoPort => DropCause::NoPort,
        }
    }
}
