//! The cores of a round make their steps, and what they do is done.
ghost use Rattle.std.specs.Prelude.{◌≡◌, ◌<◌, ◌≤◌, ◌+◌, ◌^◌, ◌∷◌, [], ℕ, length, true, false, slice_index_or, slice_set, IfSome};
ghost use Rattle.dc_split.specs.Routing.{all_outer};
ghost use Rattle.dc_shard.specs.Acting.{ActsInOrder, ActsAlone};
ghost use Rattle.dc_shard.specs.Bays.{states_of, outs_of, count_given, MayStepEach};
ghost use Rattle.dc_shard.specs.Rounds.{AllBelow, AreBlank};

use crate::bay::Bay;
use crate::outward::Outward;
use crate::shards::Shards;
use crate::tape::Tape;
use dc_engine::{Effects, Engine, Inbox};
use std::thread::Threads;

/// The core at a place that is the only one of an order.
fn lone(order: &[usize]) -> Option<usize>
    ensures { IfSome result (λ core. order.now ≡ core ∷ []) }
{
    let (first, behind) = order.split_first()?;
    if behind.is_empty() {
        Some(*first)
    } else {
        None
    }
}

/// A core makes its step, and its actions are done with outer numbers of links.
fn step_out<E: Engine, W: Effects>(
    cores: u64,
    core: u64,
    engine: &mut E,
    inbox: &Inbox,
    draws: &[u32; 17],
    out: &mut W,
)
    requires { E.machine.handled (E.state engine.old) + 1 ≤ 2 ^ 60 }
    ensures acted { W.acted out.old (all_outer cores core (E.machine.actions (E.state engine.old) inbox.now draws.now)) out.new }
    ensures state { E.state engine.new ≡ E.machine.next (E.state engine.old) inbox.now draws.now }
{
    let mut outward = Outward { out, cores, core };
    engine.step(inbox, draws, &mut outward);
}

impl<E: Engine> Shards<E, Tape> {
    /// The core at this place makes its step, and its actions are done at once.
    fn act_alone<W: Effects>(&mut self, core: usize, out: &mut W)
        requires within { core < length self.old.bays.items }
        requires steps { MayStepEach E.machine 1 (states_of E.state self.old.bays.items) }
        ensures { (bay : _) × ((self.new.bays.items ≡ slice_set self.old.bays.items core bay)
            × ((d : _) → ActsAlone W.acted E.machine E.state (length self.old.bays.items) core (slice_index_or self.old.bays.items core d) bay out.old out.new)) }
    {
        let cores = self.bays.len() as u64;
        let bay = &mut self.bays[core];
        bay.given = false;
        let Bay {
            core: engine,
            inbox,
            draws,
            ..
        } = bay;
        step_out(cores, core as u64, engine, inbox, draws, out);
    }
}

impl<E: Engine + Send> Shards<E, Tape> {
    /// Each core that is given an event makes its step, and their actions are done in this order: those of one core at once, and those
    /// of several by their tapes. Answers false where a tape wanted for memory, and nothing is done then.
    pub(crate) fn act<W: Effects, R: Threads + Sync>(
        &mut self,
        rt: &R,
        order: &[usize],
        out: &mut W,
    ) -> bool
        requires steps { MayStepEach E.machine 1 (states_of E.state self.old.bays.items) }
        requires places { AllBelow (length self.old.bays.items) order.now }
        requires count { count_given self.old.bays.items ≡ length order.now }
        requires blank { AreBlank (outs_of self.old.bays.items) }
        ensures acted { result ≡ true → ActsInOrder W.acted E.machine E.state order.now self.old.bays.items self.new.bays.items out.old out.new }
        ensures short { result ≡ false → out.new ≡ out.old }
        ensures len { length self.new.bays.items ≡ length self.old.bays.items }
    {
        if let Some(core) = lone(order) {
            if self.bays[core].given {
                self.act_alone(core, out);
                return true;
            }
        }
        self.step_all(rt);
        if !self.play(order, out) {
            return false;
        }
        self.clear();
        true
    }
}
