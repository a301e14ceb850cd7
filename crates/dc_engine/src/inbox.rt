//! The place of one event with its bytes.
ghost use Rattle.std.specs.Prelude.{◌≡◌, ℕ, [], ◌∷◌, ◌^◌, ◌<◌, ◌≤◌, length, IfOk};
ghost use Rattle.dc_model.specs.Event.{IsEvent, tick};
ghost use Rattle.dc_engine.specs.View.{kind_of, event_of};

use crate::{Event, Kind};
use std::alloc::{AllocError, Global};
use std::marker::Model;

/// The most bytes that come with an event.
pub const MOST_BYTES: usize = 65535;

/// One event with its bytes. Contracts see the event that `dc_model` has.
#[derive(Drop)]
pub struct Inbox {
    event: Event,
    buffer: Vec<u8>,
}

impl Model for Inbox {
    ghost use Rattle.std.specs.Prelude.{◌≡◌, ◌≤◌, vec_len, vec_capacity};
    ghost use Rattle.dc_model.specs.Event.{Event as ModelEvent, IsEvent};
    ghost use Rattle.dc_engine.specs.View.{event_of};

    ghost Value = { ModelEvent };

    ghost view = { λ a. event_of a.event a.buffer.items };

    ghost invariant = { λ a. (a.event.len ≡ vec_len a.buffer) × (vec_len a.buffer ≤ 65535) × (65535 ≤ vec_capacity a.buffer) × IsEvent (event_of a.event a.buffer.items) };
}

impl Inbox {
    /// An inbox with a Tick at 0. It takes all memory that it needs.
    pub fn new(alloc: Global) -> Result<Inbox, AllocError>
        ensures { IfOk result (λ inbox. inbox ≡ record { now = 0; kind = tick; id = 0; addr = 0 ∷ 0 ∷ 0 ∷ 0 ∷ []; port = 0; bytes = [] }) }
    {
        let event = Event {
            now: 0,
            kind: Kind::Tick,
            id: 0,
            addr: [0; 4],
            port: 0,
            len: 0,
        };
        let buffer = Vec::with_capacity(alloc, MOST_BYTES)?;
        Ok(Inbox { event, buffer })
    }

    /// The event, and how many bytes came with it.
    pub fn event(&self) -> Event
        ensures event { event_of result self.now.bytes ≡ self.now }
        ensures len { result.len ≡ length self.now.bytes }
        ensures bounds { IsEvent self.now }
    {
        self.event
    }

    /// The bytes that came with the event.
    pub fn bytes(&self) -> &[u8]
        ensures bytes { result.now ≡ self.now.bytes }
        ensures most { length result.now ≤ 65535 }
    {
        &self.buffer
    }

    /// Puts an event with its bytes in place of the one before.
    pub fn set(&mut self, event: Event, bytes: &[u8])
        requires len { event.len ≡ length bytes.now }
        requires most { event.len ≤ 65535 }
        requires moment { event.now < 2 ^ 62 }
        ensures event { self.new ≡ event_of event bytes.now }
        ensures bounds { IsEvent self.new }
    {
        self.event = event;
        self.buffer.clear();
        let Ok(()) = self.buffer.extend_from_slice(bytes) else {
            unreachable!()
        };
    }
}
