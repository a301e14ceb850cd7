//! The surface between engines and worlds: events, what an engine may do, where events come from and actions go to, and where bytes
//! come from and go to.
//!
//! What these traits mean is said over the events and actions of `dc_model`. A list that was handed out, done, taken or put between two
//! states of an object is a relation between the states and the list. An object tells such a list where its two states fix it.
#![tactic(auto)]

pub mod answers;
pub mod host;
pub mod kept;
pub mod laws;
pub mod lent;
pub mod memory_world;
pub mod quiet;
pub mod scripted;
pub mod stream;
pub mod whole;
pub mod world;

pub use answers::{Heard, Put, Taken, WorldFailed};
pub use dc_engine::{Effects, Engine, Event, Inbox, Kind};
pub use host::{ReaderSource, WriterSink};
pub use kept::{Action, FullEvent, Given, Passed};
pub use memory_world::MemoryWorld;
pub use quiet::{QuietSink, QuietSource};
pub use scripted::{MemorySink, MemorySource};
pub use stream::{Sink, Source};
pub use whole::put_all;
pub use world::{BatchWorld, World};

#[cfg(test)]
mod tests;
