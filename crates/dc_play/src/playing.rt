//! Playing the events of a script to an engine.
ghost use Rattle.std.specs.Prelude.{◌≡◌, ℕ, ◌+◌, ◌<◌, ◌^◌, false, List, ◌++◌};
ghost use Rattle.std.specs.Io.KnownBytes.{IsAtEnd};
ghost use Rattle.dc_model.specs.Draws.{draws_of};
ghost use Rattle.dc_event.specs.Causes.{Fares};
ghost use Rattle.dc_script.specs.Head.{MayFollow};
ghost use Rattle.dc_script.specs.Read.{says};
ghost use Rattle.dc_script.specs.Text.{text_of};
ghost use Rattle.dc_play.specs.Playing.{Keeps, run_of, outcome_of, limit_of, answer_from, reads_well, writes_well};

use crate::played::Played;
use dc_draws::Draws;
use dc_event::{Engine, Inbox, Sink, Source};
use dc_script::{EventBuffer, LineRest, ScriptWorld};
use dc_serve::{Served, serve};
use std::alloc::{AllocError, Global};

/// Memory in which events are read and kept.
#[derive(Drop)]
pub struct Places {
    buffer: EventBuffer,
    inbox: Inbox,
}

impl Places {
    /// Takes it.
    pub fn new(alloc: Global) -> Result<Places, AllocError> {
        Ok(Places {
            buffer: EventBuffer::new(alloc)?,
            inbox: Inbox::new(alloc)?,
        })
    }
}

/// The events of a script, which stand behind its head.
#[derive(Drop)]
pub struct Events {
    /// How many lines the head has.
    pub lines: u64,
    /// The bytes that were taken already.
    pub rest: LineRest,
}

/// The answer behind the loop.
fn answer_of(served: Served, wrote_all: bool) -> Played
    ensures { result ≡ answer_from served wrote_all }
{
    if !wrote_all {
        return Played::WriteFault;
    }
    match served {
        Served::Finished | Served::Ended => Played::Done,
        Served::Spent => Played::Spent,
        Served::Failed => Played::ReadFault,
        Served::Bad { line } => Played::Bad { line },
    }
}

/// The same, and hands source and sink back.
fn over<S: Source, K: Sink, E: Engine>(
    places: Places,
    engine: &mut E,
    seed: [u8; 32],
    events: Events,
    source: S,
    sink: K,
    turns: u64,
) -> (Played, S, K)
    requires unfinished { (s : E.State) → E.machine.finished s ≡ false }
    requires fresh { E.machine.handled (E.state engine.old) ≡ 0 }
    requires head { events.lines < 2 ^ 32 }
    ensures told { (bytes : List ℕ) × ((text : List ℕ) × S.took source bytes result.1 × K.gained sink text result.2
        × ((tail : List ℕ) → MayFollow (S.left result.1) tail → Keeps
        (outcome_of (run_of E.machine (draws_of seed) (E.state engine.old)) (limit_of turns) (says (events.lines + 1) (events.rest.rest ++ (bytes ++ tail))))
        (text_of (run_of E.machine (draws_of seed) (E.state engine.old) (says (events.lines + 1) (events.rest.rest ++ bytes)).events))
        text result.0)) }
    ensures read { Fares S.took S.refused S.faults (reads_well result.0) source result.1 }
    ensures write { Fares K.gained K.refused K.faults (writes_well result.0) sink result.2 }
    ensures end { result.0 ≡ Played.Done → IsAtEnd (S.left result.1) }
{
    let Places { buffer, mut inbox } = places;
    let mut world = ScriptWorld::in_buffer(buffer, events.rest, events.lines, source, sink);
    let mut draws = Draws::from_seed(seed);
    let served = serve(&mut world, engine, &mut draws, &mut inbox, turns);
    let answer = answer_of(served, world.wrote_all());
    let (source, sink) = world.into_parts();
    (answer, source, sink)
}

/// Plays events to an engine that has handled none and is never finished, with the random words of a seed, and writes its actions to a
/// sink. At most `turns` events are handled, and never more than 2^60. No memory is taken.
pub fn play<S: Source, K: Sink, E: Engine>(
    places: Places,
    engine: &mut E,
    seed: [u8; 32],
    events: Events,
    source: &mut S,
    sink: &mut K,
    turns: u64,
) -> Played
    requires unfinished { (s : E.State) → E.machine.finished s ≡ false }
    requires fresh { E.machine.handled (E.state engine.old) ≡ 0 }
    requires head { events.lines < 2 ^ 32 }
    ensures told { (bytes : List ℕ) × ((text : List ℕ) × S.took source.old bytes source.new × K.gained sink.old text sink.new
        × ((tail : List ℕ) → MayFollow (S.left source.new) tail → Keeps
        (outcome_of (run_of E.machine (draws_of seed) (E.state engine.old)) (limit_of turns) (says (events.lines + 1) (events.rest.rest ++ (bytes ++ tail))))
        (text_of (run_of E.machine (draws_of seed) (E.state engine.old) (says (events.lines + 1) (events.rest.rest ++ bytes)).events))
        text result)) }
    ensures read { Fares S.took S.refused S.faults (reads_well result) source.old source.new }
    ensures write { Fares K.gained K.refused K.faults (writes_well result) sink.old sink.new }
    ensures end { result ≡ Played.Done → IsAtEnd (S.left source.new) }
{
    let (answer, _, _) = over(places, engine, seed, events, source, sink, turns);
    answer
}
