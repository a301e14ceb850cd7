//! Rounds: events are gathered, each for a core of its own.
ghost use Rattle.std.specs.Prelude.{◌≡◌, ◌<◌, ◌≤◌, ◌+◌, ◌^◌, ℕ, length, true, false, not, List, [], ◌∷◌, ◌++◌, All, slice_index_or};
ghost use Rattle.dc_model.specs.Draws.{draws_of};
ghost use Rattle.dc_model.specs.Event.{Event, IsEvent};
ghost use Rattle.dc_event.specs.Answers.{count_heard, Warrants};
ghost use Rattle.dc_event.specs.History.{answer_by};
ghost use Rattle.dc_split.specs.Split as split;
ghost use Rattle.dc_shard.specs.Bays.{states_of, outs_of, count_given, AreFree};
ghost use Rattle.dc_shard.specs.Rounds.{AreBlank, InRound, Joins, MayJoin, begun, gathered_all, held_over};

use crate::shards::Shards;
use crate::tape::Tape;
use arrayvec::ArrayVec;
use dc_draws::Draws;
use dc_engine::{Engine, Inbox};
use dc_event::{BatchWorld, Heard};

/// The cores of a round, in the order in which their events were heard.
pub(crate) type Order = ArrayVec<usize, 8>;

/// The round's first event is left in the inbox: the one that was held over there, or else the next one of the world.
pub(crate) fn begin<E: Engine, W: BatchWorld>(
    world: &mut W,
    shards: &Shards<E, Tape>,
    inbox: &mut Inbox,
    held: bool,
) -> Heard
    requires { held ≡ true → IsEvent inbox.old }
    ensures passed { W.history world.old (begun held ((split.split E.machine).wake (states_of E.state shards.now.bays.items)) (answer_by result inbox.new)) world.new }
    ensures held { held ≡ true → result ≡ Heard.Event }
    ensures same { held ≡ true → inbox.new ≡ inbox.old }
    ensures count { W.faults world.new ≡ count_heard result (W.faults world.old) }
    ensures warrant { Warrants result inbox.new (W.used_up world.new) (W.broken world.new) }
{
    if held {
        return Heard::Event;
    }
    world.next(shards.wake(), inbox)
}

/// Gives an event with the next random words to a core, which comes last in the round's order.
fn hand_next<E: Engine>(
    shards: &mut Shards<E, Tape>,
    core: usize,
    inbox: &Inbox,
    draws: &mut Draws,
    order: &mut Order,
)
    requires within { core < length shards.old.bays.items }
    requires goes { core ≡ split.route E.machine (states_of E.state shards.old.bays.items) inbox.now }
    requires free { (d : _) → (slice_index_or shards.old.bays.items core d).given ≡ false }
    requires room { length order.old.items < 8 }
    requires words { draws.old.given < 2 ^ 60 }
    ensures round { (n : ℕ) (ss : _) (events : List Event) → InRound E.machine E.state (draws_of draws.old.seed) n ss shards.old.bays.items order.old.items events
        → MayJoin events inbox.now → draws.old.given ≡ n + length events
        → InRound E.machine E.state (draws_of draws.old.seed) n ss shards.new.bays.items order.new.items (events ++ inbox.now ∷ []) }
    ensures draws { draws.new ≡ record { seed = draws.old.seed; given = draws.old.given + 1 } }
    ensures len { length shards.new.bays.items ≡ length shards.old.bays.items }
    ensures order { length order.new.items ≡ length order.old.items + 1 }
{
    let words = draws.next();
    shards.hand(core, inbox, &words);
    order.push(core);
}

/// Takes the event in the inbox into a round, and further events that have come already: each for a core of its own, at most `most` in
/// all. Answers whether one is held over in the inbox for the next round, as it is a Tick or its core is given one.
pub(crate) fn take_round<E: Engine, W: BatchWorld>(
    world: &mut W,
    shards: &mut Shards<E, Tape>,
    inbox: &mut Inbox,
    draws: &mut Draws,
    order: &mut Order,
    most: u64,
) -> bool
    requires free { AreFree shards.old.bays.items }
    requires blank { AreBlank (outs_of shards.old.bays.items) }
    requires most { 1 ≤ most }
    requires words { draws.old.given + most ≤ 2 ^ 60 }
    requires order { order.old.items ≡ [] }
    ensures run { (more : List Event)
        × (W.history world.old (gathered_all (more ++ held_over result inbox.new)) world.new
        × (All IsEvent (more ++ held_over result inbox.new)
        × (InRound E.machine E.state (draws_of draws.old.seed) draws.old.given (states_of E.state shards.old.bays.items) shards.new.bays.items order.new.items (inbox.old ∷ more)
        × ((draws.new ≡ record { seed = draws.old.seed; given = draws.old.given + 1 + length more })
        × (1 + length (more ++ held_over result inbox.new) ≤ most))))) }
    ensures event { result ≡ true → IsEvent inbox.new }
    ensures count { W.faults world.new ≡ W.faults world.old }
    ensures len { length shards.new.bays.items ≡ length shards.old.bays.items }
{
    let core = shards.route(inbox);
    hand_next(shards, core, inbox, draws, order);
    'further: while (order.len() as u64) < most {
        if !world.more(inbox) {
            return false;
        }
        let Some(core) = shards.place(inbox) else {
            return true;
        };
        hand_next(shards, core, inbox, draws, order);
    }
    false
}
