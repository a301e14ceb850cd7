//! The audit of recorded runs: their files are read, all runs are judged at once, and a line is written of each.
#![tactic(auto)]

mod command;
mod finding;
mod judging;
mod reading;
mod report;
#[cfg(test)]
mod tests;

pub use command::audit_command;
pub use finding::Finding;
pub use std::alloc::AllocError as NoMemory;
