//! The program around the commands: what it was started with, what it says at its end, and its exit status.
#![tactic(auto)]

mod ending;
mod image;
#[cfg(test)]
mod image_tests;
mod invocation;
pub mod laws;
mod memory;
mod process;
mod program;
mod read;
#[cfg(test)]
mod tests;

pub use ending::{exit_code, report};
pub use invocation::{Invocation, Unread};
pub use memory::MemoryInvocation;
pub use process::ProcessInvocation;
pub use program::{run_system, start};
pub use read::{environment, shares_port, words};
pub use std::alloc::AllocError as NoMemory;
