//! The filter that puts the name of a host behind the address with which a line begins, as an engine.
#![tactic(auto)]

mod engine;
mod hearing;
pub mod laws;
mod line;
mod queue;
mod slot;

pub use engine::{FilterEngine, MOST_SLOTS};
pub use line::MOST_LINE;
