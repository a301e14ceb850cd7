//! Recorded worlds: scripts of events, and the text of actions.
#![tactic(auto)]

pub mod action;
mod digits;
pub mod events;
mod fault_world;
pub mod head;
#[cfg(test)]
mod head_tests;
mod heading;
pub mod laws;
pub mod lines;
mod reader;
mod recording;
mod setup;
#[cfg(test)]
mod tests;
mod text;
pub mod world;
mod write;
mod writer;

pub use action::Action;
pub use digits::{decode, digits_of};
pub use events::{EventLine, event_line};
pub use fault_world::FaultWorld;
pub use head::{Script, ScriptError, read_head};
pub use lines::{LineRest, NextLine};
pub use reader::EventBuffer;
pub use recording::write_event;
pub use std::alloc::AllocError as NoMemory;
pub use world::ScriptWorld;
pub use write::write_action;
