//! How a command ends.

use dc_config::{ConfigError, FileName, Variable};
use dc_play::Played;
use dc_simulate::Simulated;

/// How a command ended.
#[derive(Debug, Drop, PartialEq, Eq)]
pub enum Status {
    /// While serving, the world's events are used up. In `replay`, the script was played to its end; in `simulate`, the summary was written.
    Done,
    /// As many events were handled as the call was given turns.
    Spent,
    /// The words of the command are others than those that are known.
    Usage,
    /// The variable isn't set, or can't be read.
    BadVariable(Variable),
    /// The root has no server.
    NoRoot,
    /// The file in `servers` has a name that is no zone's, or its zone can't be added.
    BadZone(FileName),
    /// The file in `ip` has a name that is no permission, or there are 4096 permissions already.
    BadPermit(FileName),
    /// A folder or a file couldn't be read.
    FilesFault,
    /// The source ended before the 32 bytes of the seed.
    SeedShort,
    /// The input failed.
    ReadFault,
    /// The output failed.
    WriteFault,
    /// The line of this number is the first outside the grammar.
    BadScript(u64),
    /// The saved image of a cache is none.
    BadImage,
    /// Of the recorded runs that were judged, at least one isn't as recorded.
    Unequal,
    /// The world failed.
    WorldFault,
    /// There wasn't memory enough. No event was handled.
    NoMemory,
}

impl From<Played> for Status {
    ghost use Rattle.std.specs.Prelude.{◌≡◌};
    ghost use Rattle.dc_status.specs.Played.{status_of};

    ghost from_gives = { λ p s. s ≡ status_of p };

    fn from(played: Played) -> Status {
        match played {
            Played::Done => Status::Done,
            Played::Spent => Status::Spent,
            Played::Bad { line } => Status::BadScript(line),
            Played::ReadFault => Status::ReadFault,
            Played::WriteFault => Status::WriteFault,
        }
    }
}

impl From<Simulated> for Status {
    ghost use Rattle.std.specs.Prelude.{◌≡◌};
    ghost use Rattle.dc_status.specs.Simulated.{status_of};

    ghost from_gives = { λ r s. s ≡ status_of r };

    fn from(simulated: Simulated) -> Status {
        match simulated {
            Simulated::Done => Status::Done,
            Simulated::WriteFault => Status::WriteFault,
            Simulated::NoMemory => Status::NoMemory,
        }
    }
}

impl From<ConfigError> for Status {
    ghost use Rattle.std.specs.Prelude.{◌≡◌};
    ghost use Rattle.dc_status.specs.Refused.{refused_by};

    ghost from_gives = { λ e s. s ≡ refused_by e };

    fn from(error: ConfigError) -> Status {
        match error {
            ConfigError::BadVariable(variable) => Status::BadVariable(variable),
            ConfigError::BadZone(file) => Status::BadZone(file),
            ConfigError::NoRoot => Status::NoRoot,
            ConfigError::BadPermit(file) => Status::BadPermit(file),
            ConfigError::FilesFault => Status::FilesFault,
            ConfigError::NoMemory => Status::NoMemory,
        }
    }
}
