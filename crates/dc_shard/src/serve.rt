//! The loop: the events of a world are handed to several cores, in rounds.
ghost use Rattle.std.specs.Prelude.{◌≡◌, ◌≢◌, ◌<◌, ◌≤◌, ◌+◌, ◌^◌, ℕ, length, min, List, [], ◌++◌};
ghost use Rattle.dc_model.specs.Draws.{draws_of};
ghost use Rattle.dc_event.specs.History.{Exchange};
ghost use Rattle.dc_split.specs.Split as split;
ghost use Rattle.dc_shard.specs.Bays.{states_of, outs_of, AreFree, MayStepEach};
ghost use Rattle.dc_shard.specs.Follows.{Point};
ghost use Rattle.dc_shard.specs.Rounds.{AreBlank};
ghost use Rattle.dc_shard.specs.Serving.{Serves, last_asked, Justified, count_served, IfMemory};

use crate::rounds::{Order, begin, take_round};
use crate::served::ShardServed;
use crate::shards::Shards;
use crate::tape::Tape;
use dc_draws::Draws;
use dc_engine::{Engine, Inbox};
use dc_event::{BatchWorld, Heard};
use std::thread::Threads;

/// A run has at most so many events.
pub const MOST_EVENTS: u64 = 1 << 60;

/// Launches the first core, and hands the world's events to the cores, in rounds, until `turns` events were handled (at most 2^60), or the
/// world gives no event.
///
/// A round begins with the event that was held over, or else with the next one of the world, which is given the least wake of the cores.
/// It takes further events that have come already. One whose core is given an event already, and a Tick, is held over and ends the
/// gathering. The cores then make their steps at once, and their actions are done in the order in which their events were heard. Where
/// memory was wanting for the actions of a round, none of them is done, and those of the rounds before are.
///
/// Its last argument but one is an inbox for the event that is handed out.
pub fn serve_shards<E: Engine + Send, W: BatchWorld, R: Threads + Sync>(
    rt: &R,
    world: &mut W,
    shards: &mut Shards<E, Tape>,
    spare: &mut Inbox,
    draws: &mut Draws,
    turns: u64,
) -> ShardServed
    requires free { AreFree shards.old.bays.items }
    requires blank { AreBlank (outs_of shards.old.bays.items) }
    requires events { MayStepEach E.machine (min turns (2 ^ 60)) (states_of E.state shards.old.bays.items) }
    requires words { draws.old.given + min turns (2 ^ 60) ≤ 2 ^ 60 }
    ensures run { (passed : List Exchange) × ((end : Point _)
        × (W.history world.old (passed ++ last_asked result ((split.split E.machine).wake end.state)) world.new
        × Serves (split.split E.machine) (draws_of draws.old.seed) draws.old.given (states_of E.state shards.old.bays.items) (states_of E.state shards.new.bays.items)
        draws.new.given (min turns (2 ^ 60)) result passed end)) }
    ensures seed { draws.new.seed ≡ draws.old.seed }
    ensures count { W.faults world.new ≡ count_served result (W.faults world.old) }
    ensures justified { Justified result (W.used_up world.new) (W.broken world.new) }
    ensures free { IfMemory result (AreFree shards.new.bays.items) }
    ensures blank { IfMemory result (AreBlank (outs_of shards.new.bays.items)) }
    ensures len { length shards.new.bays.items ≡ length shards.old.bays.items }
{
    let limit = turns.min(MOST_EVENTS);
    shards.events_count();
    shards.launch(world);
    let mut handled: u64 = 0;
    let mut held = false;
    'rounds: loop {
        if handled == limit {
            return ShardServed::Spent;
        }
        match begin(world, shards, spare, held) {
            Heard::Event => {}
            Heard::End => return ShardServed::Ended,
            Heard::Failed => return ShardServed::Failed,
            Heard::Bad { line } => return ShardServed::Bad { line },
        }
        let mut order = Order::new();
        held = take_round(world, shards, spare, draws, &mut order, limit - handled);
        if !shards.act(rt, &order, world) {
            return ShardServed::NoMemory;
        }
        handled += order.len() as u64;
    }
}
