//! The events of a script in memory are handed to an engine.
ghost use Rattle.std.specs.Prelude.{◌≡◌, ℕ, ◌+◌, ◌<◌, ◌≤◌, ◌^◌, false, List, ◌++◌, length};
ghost use Rattle.dc_model.specs.Draws.{draws_of};
ghost use Rattle.dc_engine.specs.Automaton.{state_after};
ghost use Rattle.dc_script.specs.Read.{says};
ghost use Rattle.dc_script.specs.Script.{pieces_of};
ghost use Rattle.dc_audit.specs.Heard.{IsHeard, bad_by};

use crate::reading::Reading;
use dc_draws::Draws;
use dc_event::{Engine, Inbox, QuietSink};
use dc_script::{EventBuffer, LineRest, ScriptWorld};
use dc_serve::{MOST_EVENTS, Served, serve};
use std::alloc::{AllocError, Global};

/// Memory in which events are read and kept.
#[derive(Drop)]
pub struct Places {
    buffer: EventBuffer,
    inbox: Inbox,
    sink: QuietSink,
}

impl Places {
    /// Takes it.
    pub fn new(alloc: Global) -> Result<Places, AllocError> {
        Ok(Places {
            buffer: EventBuffer::new(alloc)?,
            inbox: Inbox::new(alloc)?,
            sink: QuietSink::new(alloc, 0)?,
        })
    }
}

/// The events of a script, which stand behind its head.
#[derive(Drop)]
pub struct Events<'a> {
    /// How many lines the head has.
    pub lines: u64,
    /// The bytes that were taken already.
    pub rest: LineRest,
    /// The bytes behind them.
    pub source: Reading<'a>,
}

/// The line that ended a run, if it was a bad one.
fn line_of(served: Served) -> Option<u64>
    requires { IsHeard served }
    ensures { result ≡ bad_by served }
{
    match served {
        Served::Ended => None,
        Served::Bad { line } => Some(line),
        Served::Finished | Served::Spent | Served::Failed => unreachable!(),
    }
}

/// Hands all events up to the first bad line to an engine that has handled none and is never finished, with the random words of a seed,
/// and answers the number of that line, if there is one. The engine does nothing outside that is kept. No memory is taken.
pub fn first_bad<E: Engine>(
    places: Places,
    engine: &mut E,
    seed: [u8; 32],
    events: Events<'_>,
) -> Option<u64>
    requires unfinished { (s : E.State) → E.machine.finished s ≡ false }
    requires fresh { E.machine.handled (E.state engine.old) ≡ 0 }
    requires head { events.lines < 2 ^ 32 }
    requires few { length (pieces_of (events.rest.rest ++ events.source)) ≤ 2 ^ 60 }
    ensures bad { result ≡ (says (events.entry.lines + 1) (events.entry.rest.rest ++ events.entry.source)).bad }
    ensures state { E.state engine.new ≡ state_after E.machine (draws_of seed) 0 (E.state engine.old) (says (events.entry.lines + 1) (events.entry.rest.rest ++ events.entry.source)).events }
{
    let Places {
        buffer,
        mut inbox,
        sink,
    } = places;
    let Events {
        lines,
        rest,
        source,
    } = events;
    let mut world = ScriptWorld::in_buffer(buffer, rest, lines, source, sink);
    let mut draws = Draws::from_seed(seed);
    let served = serve(&mut world, engine, &mut draws, &mut inbox, MOST_EVENTS);
    let _ = world.wrote_all();
    line_of(served)
}
