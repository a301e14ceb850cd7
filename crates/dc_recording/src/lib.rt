//! A service that records its run: the head of its configuration and its seed, and a line for each event before it is handled.
#![tactic(auto)]

pub mod laws;
mod ready;
mod record;
#[cfg(test)]
mod tests;
mod written;

pub use record::record_command;
