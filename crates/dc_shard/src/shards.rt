//! Bays, each with a core of its own.
ghost use Rattle.std.specs.Prelude.{◌≡◌, ◌≢◌, ◌<◌, ◌≤◌, ◌+◌, ℕ, length, Some, true, false, List, slice_index_or, slice_set, IfSome, MatchOption};
ghost use Rattle.dc_model.specs.Event.{Event, tick};
ghost use Rattle.dc_split.specs.Routing.{inner};
ghost use Rattle.dc_split.specs.Split as split;
ghost use Rattle.dc_shard.specs.Bays.{states_of, givens_of, outs_of, count_given, AreFree, MayStepEach, SteppedEach};
ghost use Rattle.dc_shard.specs.Rounds.{Joins};

use crate::bay::Bay;
use crate::due::{due_core, due_from};
use crate::routing::{core_of, inner_number, is_tick};
use crate::step::{step_at_once, step_in_turn};
use dc_engine::{Effects, Engine, Inbox};
use std::thread::Threads;

/// Cores that share the events: 1 to 8 bays.
#[derive(Drop)]
pub struct Shards<E: Engine, O: Effects> {
    pub(crate) bays: Vec<Bay<E, O>>,
    ghost least: { 1 ≤ length bays.items },
    ghost most: { length bays.items ≤ 8 },
}

impl<E: Engine, O: Effects> Shards<E, O> {
    /// These bays, of which none is given an event.
    pub fn new(bays: Vec<Bay<E, O>>) -> Shards<E, O>
        requires least { 1 ≤ length bays.items }
        requires most { length bays.items ≤ 8 }
        requires free { AreFree bays.items }
        ensures { result.bays ≡ bays }
    {
        Shards { bays }
    }

    /// The core of a bay.
    pub fn core(&self, index: usize) -> &E
        requires { index < length self.now.bays.items }
        ensures { (d : _) → result.now ≡ (slice_index_or self.now.bays.items index d).core }
    {
        &self.bays[index].core
    }

    /// The moment at which a Tick is wanted: the least of the cores'. `None` exactly where no core wants one.
    pub fn wake(&self) -> Option<u64>
        ensures { result ≡ (split.split E.machine).wake (states_of E.state self.now.bays.items) }
    {
        match due_from(0, &self.bays) {
            Some(due) => Some(due.moment),
            None => None,
        }
    }

    /// The core that an event goes to.
    pub fn route(&self, inbox: &Inbox) -> usize
        ensures core { result ≡ split.route E.machine (states_of E.state self.now.bays.items) inbox.now }
        ensures within { result < length self.now.bays.items }
    {
        let cores = self.bays.len() as u64;
        if is_tick(inbox) {
            return due_core(due_from(0, &self.bays));
        }
        core_of(cores, 0, inbox) as usize
    }

    /// Gives an event with its random words to a core, which sees it with its own number of a link.
    pub fn hand(&mut self, index: usize, inbox: &Inbox, draws: &[u32; 17])
        requires within { index < length self.old.bays.items }
        requires free { (d : _) → (slice_index_or self.old.bays.items index d).given ≡ false }
        ensures givens { givens_of self.new.bays.items ≡ slice_set (givens_of self.old.bays.items) index (Some (record { event = inner (length self.old.bays.items) inbox.now; words = draws.now })) }
        ensures states { states_of E.state self.new.bays.items ≡ states_of E.state self.old.bays.items }
        ensures outs { outs_of self.new.bays.items ≡ outs_of self.old.bays.items }
        ensures count { count_given self.new.bays.items ≡ count_given self.old.bays.items + 1 }
    {
        let cores = self.bays.len() as u64;
        let mut event = inbox.event();
        event.id = inner_number(cores, event);
        let bay = &mut self.bays[index];
        bay.inbox.set(event, inbox.bytes());
        bay.draws = *draws;
        bay.given = true;
    }
}

impl<E: Engine, O: Effects> Shards<E, O> {
    /// What takes a core's actions.
    pub fn out(&mut self, index: usize) -> &mut O
        requires { index < length self.old.bays.items }
        ensures { (d : _) → result.now ≡ (slice_index_or self.old.bays.items index d).out }
    {
        &mut self.bays[index].out
    }

    /// The core that a further event of a round goes to, if it may join the round: it is no Tick, and its core isn't given an event.
    pub(crate) fn place(&self, inbox: &Inbox) -> Option<usize>
        ensures { MatchOption result (Unit {0}) (λ core. Joins E.machine (states_of E.state self.now.bays.items) self.now.bays.items inbox.now core) }
    {
        if is_tick(inbox) {
            return None;
        }
        let core = self.route(inbox);
        if self.bays[core].given {
            return None;
        }
        Some(core)
    }

    /// The first core is launched.
    pub(crate) fn launch<W: Effects>(&mut self, out: &mut W)
        ensures acted { W.acted out.old ((split.split E.machine).opening (states_of E.state self.old.bays.items)) out.new }
        ensures states { states_of E.state self.new.bays.items ≡ states_of E.state self.old.bays.items }
        ensures outs { outs_of self.new.bays.items ≡ outs_of self.old.bays.items }
        ensures free { AreFree self.old.bays.items → AreFree self.new.bays.items }
    {
        self.bays[0].core.launch(out);
    }

    /// Each event counts, in each core.
    pub(crate) fn events_count(&self)
        ensures { (s : E.State) (e : Event) (words : List ℕ) → E.machine.handled (E.machine.next s e words) ≡ E.machine.handled s + 1 }
    {
        let _ = &self.bays;
    }

    /// How many cores are given an event.
    fn given(&self) -> usize {
        self.bays.iter().filter(|bay| bay.given).count()
    }
}

impl<E: Engine + Send, O: Effects + Send> Shards<E, O> {
    /// Each core that is given an event makes its step: at once, in threads, where there are two or more. Afterwards none is given one.
    pub fn step_all<R: Threads + Sync>(&mut self, rt: &R)
        requires { MayStepEach E.machine 1 (states_of E.state self.old.bays.items) }
        ensures { SteppedEach O.acted E.machine E.state (length self.old.bays.items) 0 self.old.bays.items self.new.bays.items }
    {
        if self.given() < 2 {
            let cores = self.bays.len() as u64;
            step_in_turn(cores, 0, &mut self.bays);
        } else {
            step_at_once(rt, &mut self.bays);
        }
    }
}
