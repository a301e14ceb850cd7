//! Filtering an input.
ghost use Rattle.std.specs.Prelude.{◌≡◌, ℕ, ◌≤◌, ◌^◌, List, min, IfOk, false};
ghost use Rattle.dc_model.specs.Draws.{draws_of};
ghost use Rattle.dc_model.specs.Places.{all_empty};
ghost use Rattle.dc_event.specs.Causes.{Fares};
ghost use Rattle.dc_stub.specs.Faults.{input_well, output_well, count_world};
ghost use Rattle.dc_sieve.specs.Sifted.{Sifted, fresh_sifter, fresh_input};

use crate::input::Input;
use crate::settle::{Settled, settle};
use dc_draws::Draws;
use dc_event::{Engine, Inbox, Sink, Source, World};
use dc_filter::FilterEngine;
use dc_serve::{Served, serve};
use dc_stub::ToolStatus;
use std::alloc::{AllocError, Global};

/// What the filter works with.
#[derive(Drop)]
pub struct Sieve {
    pub engine: FilterEngine,
    pub input: Input,
    pub draws: Draws,
    pub inbox: Inbox,
}

impl Sieve {
    /// It takes all memory that filtering needs.
    pub fn new(
        alloc: Global,
        servers: &[[u8; 4]; 16],
        slots: usize,
        seed: [u8; 32],
    ) -> Result<Sieve, AllocError>
        requires least { 1 ≤ slots }
        requires most { slots ≤ 16 }
        requires place { all_empty servers.now ≡ false }
        ensures engine { IfOk result (λ sieve. sieve.engine ≡ fresh_sifter slots servers.now) }
        ensures input { IfOk result (λ sieve. sieve.input ≡ fresh_input) }
        ensures draws { IfOk result (λ sieve. sieve.draws ≡ record { seed = seed; given = 0 }) }
    {
        Ok(Sieve {
            engine: FilterEngine::new(alloc, servers, slots)?,
            input: Input::new(alloc)?,
            draws: Draws::from_seed(seed),
            inbox: Inbox::new(alloc)?,
        })
    }
}

/// Reads lines, asks for their hosts, and writes them, until all are written. At most `turns` events are handled, and never more than 2^60.
#[tactic(none)]
pub fn sift<S: Source, K: Sink, W: World>(
    sieve: &mut Sieve,
    source: &mut S,
    sink: &mut K,
    world: &mut W,
    turns: u64,
) -> ToolStatus
    requires engine { sieve.old.engine ≡ fresh_sifter sieve.old.engine.room sieve.old.engine.servers }
    requires room { 1 ≤ sieve.old.engine.room }
    requires input { sieve.old.input ≡ fresh_input }
    requires draws { sieve.old.draws.given ≡ 0 }
    ensures sifted { Sifted S.took S.left K.gained W.history W.used_up W.broken source.old source.new sink.old sink.new world.old world.new
        sieve.old.engine.room sieve.old.engine.servers (draws_of sieve.old.draws.seed) (min turns (2 ^ 60)) result }
    ensures source { Fares S.took S.refused S.faults (input_well result) source.old source.new }
    ensures sink { Fares K.gained K.refused K.faults (output_well result) sink.old sink.new }
    ensures world { W.faults world.new ≡ count_world result (W.faults world.old) }
{
    let limit = turns.min(1 << 60);
    'sifting: loop {
        match settle(&mut sieve.engine, &mut sieve.input, source, sink) {
            Settled::Quiet => {}
            Settled::ReadFault => return ToolStatus::ReadFault,
            Settled::WriteFault => return ToolStatus::WriteFault,
            Settled::LongLine(number) => return ToolStatus::LongLine(number),
        }
        if sieve.engine.finished() {
            return ToolStatus::Done;
        }
        let left = limit - sieve.engine.handled();
        match serve(
            world,
            &mut sieve.engine,
            &mut sieve.draws,
            &mut sieve.inbox,
            left,
        ) {
            Served::Finished => {}
            Served::Spent => return ToolStatus::Spent,
            Served::Ended => return ToolStatus::Ended,
            Served::Failed => return ToolStatus::WorldFault,
            Served::Bad { line } => return ToolStatus::BadScript(line),
        }
    }
}
