//! A core with its place.

use dc_engine::{Effects, Engine, Inbox};

/// A core, the event that it may be given, and what takes its actions.
#[derive(Drop)]
pub struct Bay<E: Engine, O: Effects> {
    /// The core.
    pub core: E,
    /// Its event, with its number as the core sees it.
    pub inbox: Inbox,
    /// The event's random words.
    pub draws: [u32; 17],
    /// Whether it is given an event.
    pub given: bool,
    /// What takes its actions.
    pub out: O,
}
