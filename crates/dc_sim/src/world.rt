//! The simulated world.
ghost use Rattle.std.specs.Prelude.{◌≡◌, ℕ, ◌+◌, ◌*◌, ◌%◌, ◌^◌, ◌<◌, ◌≤◌, min, max, drop, [], ◌∷◌, refl, Some, option_map, IfOk};
ghost use Rattle.dc_model.specs.Event.{IsEvent};
ghost use Rattle.dc_simulation.specs.World as model;
ghost use Rattle.dc_simulation.specs.Tree.{answer_to};
ghost use Rattle.dc_event.specs.Answers.{count_heard, Warrants};
ghost use Rattle.dc_event.specs.History.{asked, answer_by};
ghost use Rattle.dc_sim.specs.Coming.{back_event};
ghost use Rattle.dc_sim.specs.Steps.{IsRequest, IsTick};
ghost use Rattle.dc_sim.specs.Passing.{Acts, Acts-none, Acts-both, Passed, Passed-none, Passed-both, Passed-acts, Says};

use crate::entry::Entry;
use crate::links::{Connected, newest};
use crate::request::{drawn, give_request, give_tick};
use circular_buffer::HeapCircularBuffer;
use dc_engine::{Effects, Inbox};
use dc_event::{Heard, World, WorldFailed};
use std::alloc::{AllocError, Global};
use std::marker::Model;

/// How many events wait, and how many links are remembered.
const PLACES: usize = 1024;

/// The clock at first, in milliseconds.
const FIRST: u64 = 1_000_000;

/// How far a tick brings the clock at most, in milliseconds.
const LONGEST: u64 = 45_000;

/// How many events there are at most. Their moments stay below 2^62.
const MOST_EVENTS: u64 = 1 << 46;

/// The simulated world. It takes all its memory in `new`.
///
/// Contracts see its clock in milliseconds, the number that the client draws names from, how many events were given and how many
/// there are, the events that wait, and the links that are remembered.
#[derive(Drop)]
pub struct SimWorld {
    clock: u64,
    x: u64,
    given: u64,
    events: u64,
    queue: HeapCircularBuffer<Entry>,
    ring: HeapCircularBuffer<Connected>,
}

impl Model for SimWorld {
    ghost use Rattle.dc_simulation.specs.World.{World};

    ghost Value = { World };

    ghost use Rattle.dc_sim.specs.Kept.{IsKept};

    ghost view = { λ a. record { clock = a.clock; x = a.x; given = a.given; events = a.events; queue = a.queue.items; ring = a.ring.items } };

    ghost invariant = { λ a. IsKept a.clock a.given a.events a.queue.capacity a.ring.capacity };
}

impl SimWorld {
    /// The world that a number makes, with so many events, and 2^46 where there would be more.
    pub fn new(alloc: Global, seed: u64, events: u64) -> Result<SimWorld, AllocError>
        ensures { IfOk result (λ w. w ≡ model.first_world seed (min events (2 ^ 46))) }
    {
        Ok(SimWorld {
            clock: FIRST,
            x: seed,
            given: 0,
            events: events.min(MOST_EVENTS),
            queue: HeapCircularBuffer::with_capacity(alloc, PLACES)?,
            ring: HeapCircularBuffer::with_capacity(alloc, PLACES)?,
        })
    }

    /// How many events were given.
    pub fn given(&self) -> u64
        ensures { result ≡ self.now.given }
    {
        self.given
    }

    /// An event will come, if the queue has a place.
    fn push(&mut self, entry: Entry)
        ensures { self.new ≡ model.queued entry self.old }
    {
        let _ = self.queue.try_push_back(entry);
    }

    /// A server's answer comes, if there is one.
    fn hear(&mut self, link: u64, server: [u8; 4], over_tcp: bool, query: &[u8])
        ensures { self.new ≡ model.answered (option_map (back_event over_tcp link server) (answer_to server over_tcp query.now)) self.old }
    {
        if let Some(entry) = Entry::back(link, server, over_tcp, query) {
            self.push(entry);
        }
    }

    /// A link is remembered.
    fn remember(&mut self, link: u64, server: [u8; 4])
        ensures { self.new ≡ model.remembered link server self.old }
    {
        let _ = self.ring.push_front(Connected::new(link, server));
    }

    /// The client asks.
    #[tactic(auto, unfolding(dc_simulation::specs::World::client_asks))]
    fn ask(&mut self, inbox: &mut Inbox)
        requires { self.old.given < self.old.events }
        ensures given { IsRequest self.old inbox.new self.new }
        ensures bounds { IsEvent inbox.new }
    {
        self.clock += 1;
        self.x = drawn(self.x);
        give_request(self.clock, self.x, self.given, inbox);
        self.given += 1;
    }

    /// The clock goes on alone.
    fn tick(&mut self, moment: u64, inbox: &mut Inbox)
        requires { self.old.given < self.old.events }
        ensures given { IsTick moment self.old inbox.new self.new }
        ensures bounds { IsEvent inbox.new }
    {
        self.clock = later(self.clock + 1, moment);
        give_tick(self.clock, inbox);
        self.given += 1;
    }

    /// An event comes that has waited.
    fn bring(&mut self, entry: &Entry, inbox: &mut Inbox)
        requires { self.old.given < self.old.events }
        ensures event { inbox.new ≡ record entry.now { now = self.old.clock + 1 } }
        ensures world { self.new ≡ record self.old { clock = self.old.clock + 1; given = self.old.given + 1 } }
        ensures bounds { IsEvent inbox.new }
    {
        self.clock += 1;
        entry.give(self.clock, inbox);
        self.given += 1;
    }

    /// Puts the next event into the inbox.
    fn give(&mut self, wake: Option<u64>, inbox: &mut Inbox)
        requires { self.old.given < self.old.events }
        ensures given { model.next wake self.old ≡ Some (record { event = inbox.new; world = self.new }) }
        ensures bounds { IsEvent inbox.new }
    {
        if self.given % 4 == 0 {
            self.ask(inbox);
            return;
        }
        match self.queue.pop_front() {
            Some(entry) => self.bring(&entry, inbox),
            None => match wake {
                Some(moment) => self.tick(moment, inbox),
                None => self.ask(inbox),
            },
        }
    }
}

/// Its actions change it as the definition says.
impl Effects for SimWorld {
    ghost acted = { Acts };

    #[tactic(auto, unfolding(dc_simulation::specs::World::did, dc_simulation::specs::World::did_all))]
    fn reply(&mut self, _addr: [u8; 4], _port: u16, _bytes: &[u8]) {}

    #[tactic(auto, unfolding(dc_simulation::specs::World::did, dc_simulation::specs::World::did_all))]
    fn conn_reply(&mut self, _conn: u64, _bytes: &[u8]) {}

    #[tactic(auto, unfolding(dc_simulation::specs::World::did, dc_simulation::specs::World::did_all))]
    fn conn_close(&mut self, _conn: u64) {}

    #[tactic(auto, unfolding(dc_simulation::specs::World::did, dc_simulation::specs::World::did_all))]
    fn udp(&mut self, link: u64, _local_port: u16, server: [u8; 4], query: &[u8]) {
        if link % 8 != 0 {
            self.hear(link, server, false, query);
        }
    }

    #[tactic(auto, unfolding(dc_simulation::specs::World::did, dc_simulation::specs::World::did_all))]
    fn tcp(&mut self, link: u64, _local_port: u16, server: [u8; 4]) {
        self.remember(link, server);
        self.push(Entry::up(link));
    }

    #[tactic(auto, unfolding(dc_simulation::specs::World::did, dc_simulation::specs::World::did_all))]
    fn link_write(&mut self, link: u64, bytes: &[u8]) {
        if let Some(made) = newest(&self.ring, link) {
            self.hear(made.link, made.server, true, behind_length(bytes));
        }
    }

    #[tactic(auto, unfolding(dc_simulation::specs::World::did, dc_simulation::specs::World::did_all))]
    fn link_close(&mut self, _link: u64) {}

    #[tactic(auto, unfolding(dc_simulation::specs::World::did, dc_simulation::specs::World::did_all))]
    fn line(&mut self, _text: &[u8]) {}

    ghost acted_none = { Acts-none };

    ghost acted_both = { Acts-both };
}

/// A message behind its length.
fn behind_length(bytes: &[u8]) -> &[u8]
    ensures { result.now ≡ drop 2 bytes.now }
{
    if bytes.len() < 2 { &[] } else { &bytes[2..] }
}

/// A clock that goes on to a moment, or by 45 seconds, if that is less.
fn later(clock: u64, moment: u64) -> u64
    requires { clock < 2 ^ 62 }
    ensures later { result ≡ max clock (min moment (clock + 45000)) }
    ensures most { result ≤ clock + 45000 }
{
    clock.max(moment.min(clock + LONGEST))
}

impl World for SimWorld {
    ghost history = { Passed };

    ghost faults = { λ _. 0 };

    ghost used_up = { λ w. w.given ≡ w.events };

    ghost broken = { λ _ _. ⊥ };

    fn listen(&mut self, _addr: [u8; 4], _send_from: [u8; 4]) -> Result<(), WorldFailed> {
        Ok(())
    }

    fn next(&mut self, wake: Option<u64>, inbox: &mut Inbox) -> Heard
        ensures history { Passed self.old (asked wake (answer_by result inbox.new) ∷ []) self.new }
        ensures count { 0 ≡ count_heard result 0 }
        ensures warrant { Warrants result inbox.new (self.new.given ≡ self.new.events) (λ _. ⊥) }
        ensures given { Says (answer_by result inbox.new) (model.next wake self.old) self.old self.new }
    {
        if self.given == self.events {
            return Heard::End;
        }
        self.give(wake, inbox);
        Heard::Event
    }

    fn faults(&self) -> u64 {
        0
    }

    ghost history_none = { Passed-none };

    ghost history_both = { Passed-both };

    ghost acted_history = { Passed-acts };

    ghost acted_faults = { λ a b xs h. refl };
}
