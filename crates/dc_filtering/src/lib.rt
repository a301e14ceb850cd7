//! The filter's run: what its words come to, the servers, and its input from the first line to the last.
//!
//! One theorem stands on `run`: what passed in the world is what passes at the filter's definition over the lines of the input and the
//! events that were heard, and what the sink gained is the definition's text, by how the run ended.
#![tactic(auto)]

pub mod laws;
mod running;
mod words;

pub use running::run;
