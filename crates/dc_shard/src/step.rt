//! Cores make their steps at once.
ghost use Rattle.std.specs.Prelude.{◌≡◌, ◌<◌, ◌≤◌, ◌+◌, ◌^◌, ℕ, length, All, slice_index_or};
ghost use Rattle.dc_shard.specs.Bays.{MayStep, MayStepEach, Stepped, SteppedEach, states_of};

use crate::bay::Bay;
use crate::outward::Outward;
use dc_engine::{Effects, Engine};
use std::thread::{self, Threads};

/// The most threads in which cores make their steps.
const MOST_THREADS: usize = 8;

/// The core of a bay makes its step, if it is given an event.
#[tactic(auto, unfolding(dc_split::specs::Round::done_by))]
fn step_bay<E: Engine, O: Effects>(cores: u64, core: u64, bay: &mut Bay<E, O>)
    requires { MayStep E.machine 1 (E.state bay.old.core) }
    ensures { Stepped O.acted E.machine E.state cores core bay.old bay.new }
{
    if !bay.given {
        return;
    }
    bay.given = false;
    let Bay {
        core: engine,
        inbox,
        draws,
        out,
        ..
    } = bay;
    let mut outward = Outward { out, cores, core };
    engine.step(inbox, draws, &mut outward);
}

/// Each core that is given an event makes its step, one after the other. The first of these cores stands at the place `from` of all.
pub(crate) fn step_in_turn<E: Engine, O: Effects>(cores: u64, from: u64, bays: &mut [Bay<E, O>])
    requires steps { MayStepEach E.machine 1 (states_of E.state bays.old) }
    requires places { from + length bays.old < 2 ^ 64 }
    ensures { SteppedEach O.acted E.machine E.state cores from bays.old bays.new }
{
    let Some((bay, behind)) = bays.split_first_mut() else {
        return;
    };
    step_bay(cores, from, bay);
    step_in_turn(cores, from + 1, behind);
}

/// Each core that is given an event makes its step, at once.
pub(crate) fn step_at_once<E: Engine + Send, O: Effects + Send, R: Threads + Sync>(
    rt: &R,
    bays: &mut [Bay<E, O>],
)
    requires { MayStepEach E.machine 1 (states_of E.state bays.old) }
    ensures { SteppedEach O.acted E.machine E.state (length bays.old) 0 bays.old bays.new }
{
    step_in_threads(rt, bays);
}

/// The same, with what is said by place.
fn step_in_threads<E: Engine + Send, O: Effects + Send, R: Threads + Sync>(
    rt: &R,
    bays: &mut [Bay<E, O>],
)
    requires { All (λ b. MayStep E.machine 1 (E.state b.core)) bays.old }
    ensures len { length bays.new ≡ length bays.old }
    ensures each { (i : ℕ) (d : _) → i < length bays.old → Stepped O.acted E.machine E.state (length bays.old) i (slice_index_or bays.old i d) (slice_index_or bays.new i d) }
{
    let cores = bays.len() as u64;
    let step = |core: usize, bay: &mut Bay<E, O>|
        requires { MayStep E.machine 1 (E.state bay.now.core) }
        ensures { Stepped O.acted E.machine E.state cores core bay.entry.now bay.exit.now }
    { step_bay(cores, core as u64, bay) };
    thread::for_each_mut(rt, bays, MOST_THREADS, &step);
}
