//! The configuration that an environment and files give.
#![tactic(auto)]

mod conf;
mod env;
mod error;
mod file_name;
mod files;
mod folders;
mod host;
mod memory;
mod modes;
#[cfg(test)]
mod tests;
mod unreadable;
mod variables;

pub use conf::load;
pub use env::Env;
pub use error::{ConfigError, Variable};
pub use file_name::FileName;
pub use files::{FileRead, Files, Listed};
pub use host::HostFiles;
pub use memory::{MemoryFiles, QuietFiles};
pub use modes::{
    MOST_CORES, cores_in, events_in, first_bad_kept, first_bad_recorded, first_bad_split, is_set,
};
pub use std::alloc::AllocError as NoMemory;
pub use unreadable::Unreadable;
pub use variables::{first_bad, names};
