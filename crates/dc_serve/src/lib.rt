//! The loop: an engine is handed the events of a world one by one.
#![tactic(auto)]

ghost use Rattle.std.specs.Prelude.{◌≡◌, ℕ, ◌+◌, ◌^◌, ◌≤◌, min, List, length};
ghost use Rattle.dc_model.specs.Draws.{draws_of};
ghost use Rattle.dc_model.specs.Event.{Event};
ghost use Rattle.dc_engine.specs.Automaton.{Automaton};
ghost use Rattle.dc_serve.specs.Serve.{passes, Ran, count_served, Justified};

#[cfg(test)]
mod tests;

use dc_draws::Draws;
use dc_event::{Engine, Heard, Inbox, World};

/// A run has at most so many events.
pub const MOST_EVENTS: u64 = 1 << 60;

/// How serving ended.
#[derive(Clone, Copy, PartialEq, Eq, Debug)]
pub enum Served {
    /// The engine is finished.
    Finished,
    /// As many events were handled as the call was given turns.
    Spent,
    /// The world's events are used up.
    Ended,
    /// The world failed. Its count of faults rose.
    Failed,
    /// This line of a script is outside its grammar.
    Bad { line: u64 },
}

/// Launches the engine, and hands it the world's events one by one, each with the next random words, until the engine is finished, `turns`
/// events were handled (at most 2^60), or the world gives no event. The engine's wake is handed to the world before each event.
pub fn serve<W: World, E: Engine>(
    world: &mut W,
    engine: &mut E,
    draws: &mut Draws,
    inbox: &mut Inbox,
    turns: u64,
) -> Served
    requires events { E.machine.handled (E.state engine.old) + min turns (2 ^ 60) ≤ 2 ^ 60 }
    requires words { draws.old.given + min turns (2 ^ 60) ≤ 2 ^ 60 }
    ensures run { (events : List Event) ×
        W.history world.old (passes E.machine (draws_of draws.old.seed) draws.old.given (E.state engine.old) events result) world.new
        × Ran E.machine (draws_of draws.old.seed) draws.old.given (E.state engine.old) (E.state engine.new) (min turns (2 ^ 60)) events result
        × (draws.new ≡ record { seed = draws.old.seed; given = draws.old.given + length events }) }
    ensures count { W.faults world.new ≡ count_served result (W.faults world.old) }
    ensures justified { Justified result (W.used_up world.new) (W.broken world.new) }
{
    let limit = turns.min(MOST_EVENTS);
    engine.launch(world);
    let mut handled: u64 = 0;
    'events: loop {
        if engine.finished() {
            return Served::Finished;
        }
        if handled == limit {
            return Served::Spent;
        }
        match world.next(engine.wake(), inbox) {
            Heard::Event => {}
            Heard::End => return Served::Ended,
            Heard::Failed => return Served::Failed,
            Heard::Bad { line } => return Served::Bad { line },
        }
        let words = draws.next();
        engine.step(inbox, &words, world);
        handled += 1;
    }
}
