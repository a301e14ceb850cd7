//! Playing scripts: the events that a source gives are handed to an engine, and the text of its actions goes to a sink.
#![tactic(auto)]

mod played;
mod playing;

pub use played::Played;
pub use playing::{Events, Places, play};
