//! The resolver in the simulated world, and what is told of it.
#![tactic(auto)]

mod command;
mod made;
mod run;
mod summary;
#[cfg(test)]
mod tests;
mod words;

pub use command::{Simulated, simulate_command};
pub use words::Simulation;
