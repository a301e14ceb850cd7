//! The core of the resolver: events in, actions out, no socket and no file.
#![tactic(auto)]

mod engine;
#[cfg(test)]
mod tests;

pub use dc_desk::Counts;
pub use engine::Core;
