//! The filter as an engine.
ghost use Rattle.std.specs.Prelude.{◌≡◌, ◌≢◌, ◌+◌, ◌<◌, ◌≤◌, ◌^◌, ◌++◌, ◌∷◌, [], ℕ, List, length, drop, nat_lt, IfOk, IsSome, IsNone, MatchOption, option_map, vec_len, vec_capacity, Some, None, false, refl};
ghost use Rattle.dc_model.specs.Places.{all_empty};
ghost use Rattle.dc_lookup.specs.Text.{line_end};
ghost use Rattle.dc_lookup.specs.Filter as model;
ghost use Rattle.dc_filter.specs.Queue.{AreIdle};
ghost use Rattle.dc_filter.specs.Sifter.{Sifter, alone, has_heard, sifter_machine, front_text};

use crate::line::MOST_LINE;
use crate::queue::{event_place, soonest};
use crate::slot::Slot;
use dc_engine::{Effects, Engine, Inbox};
use dc_packet::Table;
use std::alloc::{AllocError, Global};
use std::marker::Model;

/// The most lines of a queue.
pub const MOST_SLOTS: usize = 16;

/// A queue of lines whose hosts are asked for at once. It takes its memory in `new`.
///
/// Contracts see the queue with its front first, how many lines it may hold, the servers, and how many links were used and events handled.
#[derive(Drop)]
pub struct FilterEngine {
    servers: [[u8; 4]; 16],
    slots: usize,
    queue: Vec<Box<Slot>>,
    spare: Vec<Box<Slot>>,
    table: Table,
    link: u64,
    handled: u64,
}

impl Model for FilterEngine {
    ghost use Rattle.dc_filter.specs.Sifter.{Sifter};

    ghost Value = { Sifter };

    ghost use Rattle.dc_filter.specs.Kept.{sifter_of, IsKept};

    ghost view = { sifter_of };

    ghost invariant = { IsKept };
}

/// So many slots that no line stands in.
fn spare_slots(alloc: Global, slots: usize) -> Result<Vec<Box<Slot>>, AllocError>
    ensures many { IfOk result (λ spare. vec_len spare ≡ slots) }
    ensures room { IfOk result (λ spare. slots ≤ vec_capacity spare) }
    ensures idle { IfOk result (λ spare. AreIdle spare.items) }
{
    let mut spare = Vec::with_capacity(alloc, slots)?;
    for i in 0..slots {
        spare.push(Slot::new(alloc)?).unwrap();
    }
    Ok(spare)
}

impl FilterEngine {
    /// An empty queue for so many lines. It takes all memory that it needs.
    pub fn new(
        alloc: Global,
        servers: &[[u8; 4]; 16],
        slots: usize,
    ) -> Result<FilterEngine, AllocError>
        requires least { 1 ≤ slots }
        requires most { slots ≤ 16 }
        requires place { all_empty servers.now ≡ false }
        ensures { IfOk result (λ engine. engine ≡ record { room = slots; servers = servers.now; queue = []; links = 0; handled = 0 }) }
    {
        Ok(FilterEngine {
            servers: *servers,
            slots,
            queue: Vec::with_capacity(alloc, slots)?,
            spare: spare_slots(alloc, slots)?,
            table: Table::new(alloc)?,
            link: 0,
            handled: 0,
        })
    }

    /// Whether the queue may hold a further line.
    pub fn room(&self) -> bool
        ensures { result ≡ nat_lt (length self.now.queue) self.now.room }
    {
        self.queue.len() < self.slots
    }

    /// How many events it has handled.
    pub fn handled(&self) -> u64
        ensures { result ≡ self.now.handled }
    {
        self.handled
    }

    /// Puts a line behind the others, as it is read.
    pub fn add(&mut self, line: &[u8])
        requires room { length self.old.queue < self.old.room }
        requires most { length line.now ≤ 4096 }
        ensures { self.new ≡ record self.old { queue = self.old.queue ++ model.read line.now ∷ [] } }
    {
        let mut slot = self.spare.pop().unwrap();
        slot.read(line);
        self.queue.push(slot).unwrap();
    }

    /// The text of the front, with a line feed. `None` exactly where the queue is empty or its front isn't done.
    pub fn front(&self) -> Option<&[u8]>
        ensures { option_map (λ text. text.now) result ≡ option_map (λ text. text ++ line_end) (front_text self.now.queue) }
    {
        match self.queue.first() {
            Some(slot) => slot.text(),
            None => None,
        }
    }

    /// Takes the front away.
    pub fn drop_front(&mut self)
        requires { front_text self.old.queue ≢ None }
        ensures { self.new ≡ record self.old { queue = drop 1 self.old.queue } }
    {
        let slot = self.queue.remove(0);
        self.spare.push(slot).unwrap();
    }

    /// An event.
    fn hear<O: Effects>(&mut self, inbox: &Inbox, draws: &[u32; 17], out: &mut O)
        requires links { self.old.links < 2 ^ 60 }
        requires handled { self.old.links + 1 ≤ self.old.handled }
        ensures acts { O.acted out.old (model.hear_step (alone self.old) inbox.now draws.now).actions out.new }
        ensures next { self.new ≡ record self.old {
          queue = (model.hear_step (alone self.old) inbox.now draws.now).filter.queue;
          links = (model.hear_step (alone self.old) inbox.now draws.now).filter.links;
        } }
    {
        let Some(place) = event_place(&self.queue, inbox.event()) else {
            return;
        };
        let slot = &mut self.queue[place];
        slot.hear(
            inbox,
            draws,
            &self.servers,
            &mut self.table,
            &mut self.link,
            out,
        );
    }
}

impl Engine for FilterEngine {
    ghost State = { Sifter };

    ghost machine = { sifter_machine };

    ghost state = { λ s. s };

    fn launch<O: Effects>(&mut self, _out: &mut O) {
        let _ = &self.handled;
    }

    fn step<O: Effects>(&mut self, inbox: &Inbox, draws: &[u32; 17], out: &mut O) {
        self.handled += 1;
        self.hear(inbox, draws, out);
    }

    fn wake(&self) -> Option<u64> {
        soonest(&self.queue)
    }

    fn finished(&self) -> bool {
        match self.queue.first() {
            Some(slot) => slot.is_done(),
            None => true,
        }
    }

    ghost counts = { λ s e words. refl };
}
