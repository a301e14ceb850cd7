//! Why there is no configuration.
ghost use Rattle.std.specs.Prelude.{◌≡◌};
ghost use Rattle.dc_config.specs.Variables.{name_of};

use crate::FileName;
use std::alloc::AllocError;

/// A variable of the environment that may be refused.
#[derive(Clone, Copy, Debug, PartialEq, Eq)]
pub enum Variable {
    /// `IP`, the address on which clients are served.
    Ip,
    /// `IPSEND`, the address from which questions are sent.
    Ipsend,
    /// `CACHESIZE`, the number of bytes of the cache.
    Cachesize,
    /// `CORES`, over how many cores the names are split.
    Cores,
    /// `IMAGE`, the path of the file that keeps the cache.
    Image,
    /// `EVENTS`, after how many events a service that keeps its cache ends.
    Events,
    /// `RECORD`, with which the service writes its own run.
    Record,
}

impl Variable {
    /// The name under which it is set.
    pub fn name(self) -> &'static str
        ensures { result.now ≡ name_of self }
    {
        match self {
            Variable::Ip => "IP",
            Variable::Ipsend => "IPSEND",
            Variable::Cachesize => "CACHESIZE",
            Variable::Cores => "CORES",
            Variable::Image => "IMAGE",
            Variable::Events => "EVENTS",
            Variable::Record => "RECORD",
        }
    }
}

/// Why there is no configuration.
#[derive(Debug, Drop)]
pub enum ConfigError {
    /// IP, IPSEND or CACHESIZE isn't set, or can't be read.
    BadVariable(Variable),
    /// The file in `servers` has a name that is no zone's, or its zone can't be added.
    BadZone(FileName),
    /// The root has no server.
    NoRoot,
    /// The file in `ip` has a name that is no permission, or there are 4096 permissions already.
    BadPermit(FileName),
    /// A folder or a file couldn't be read.
    FilesFault,
    /// There is no memory.
    NoMemory,
}

impl From<AllocError> for ConfigError {
    ghost use Rattle.std.specs.Prelude.{◌≡◌};
    ghost use Rattle.dc_config.specs.declared.error.ConfigError.TheVariants.{NoMemory};

    ghost from_gives = { λ _ e. e ≡ NoMemory };

    fn from(_refused: AllocError) -> ConfigError {
        ConfigError::NoMemory
    }
}
