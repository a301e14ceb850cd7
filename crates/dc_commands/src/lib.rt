//! The commands of the program: serving clients, replaying scripts, and running in the simulated world.
#![tactic(auto)]

mod command;
#[cfg(test)]
mod fault_tests;
pub mod laws;
mod replay;
#[cfg(test)]
mod tests;

pub use command::{Command, dnscache};
pub use dc_serving::{Session, serve_command};
pub use dc_status::Status;
pub use replay::replay_command;
