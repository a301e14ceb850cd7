//! What an engine sees: events with their bytes, and what it may do at each.
//!
//! What these traits mean is said over the events and actions of `dc_model`. Actions that were done between two states of an object are
//! a relation between the states and the list.
#![tactic(auto)]

pub mod effects;
pub mod engine;
pub mod events;
pub mod inbox;

pub use effects::Effects;
pub use engine::Engine;
pub use events::{Event, Kind};
pub use inbox::Inbox;
