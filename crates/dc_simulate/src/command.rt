//! The command: a simulation's summary is written.
ghost use Rattle.std.specs.Prelude.{◌≡◌, IfOk};
ghost use Rattle.dc_event.specs.Causes.{Fares};
ghost use Rattle.dc_simulate.specs.Told.{Wrote, loop_of, summary_of, writes_well};

use crate::made::{core, seed as seed_of};
use crate::run::run;
use crate::summary::{Text, summary};
use dc_draws::Draws;
use dc_engine::Inbox;
use dc_event::{Put, Sink, put_all};
use dc_sim::SimWorld;
use std::alloc::{AllocError, Global};

/// How a simulation ended.
#[derive(Clone, Copy, Debug, PartialEq, Eq)]
pub enum Simulated {
    /// All events were handled, and the summary was written.
    Done,
    /// The output failed.
    WriteFault,
    /// There wasn't memory enough. No event was handled.
    NoMemory,
}

/// The text of a simulation.
fn told(alloc: Global, seed: u64, events: u64) -> Result<Text, AllocError>
    ensures { IfOk result (λ text. text.items ≡ summary_of seed events) }
{
    let mut inbox = Inbox::new(alloc)?;
    let mut world = SimWorld::new(alloc, seed, events)?;
    let mut core = core(alloc)?;
    let mut draws = Draws::from_seed(seed_of(seed));
    run(&mut core, &mut world, &mut draws, &mut inbox);
    Ok(summary(&core, &world))
}

/// Runs the resolver in the simulated world of a seed for so many events, of which more than 2^46 count as 2^46, and writes to a sink
/// how many events there were, what the resolver counted, and how many bytes were put into its cache.
pub fn simulate_command<K: Sink>(alloc: Global, seed: u64, events: u64, sink: &mut K) -> Simulated
    ensures told { Wrote K.gained result sink.old (summary_of seed events) sink.new }
    ensures fares { Fares K.gained K.refused K.faults (writes_well result) sink.old sink.new }
{
    match told(alloc, seed, events) {
        Err(_) => Simulated::NoMemory,
        Ok(text) => match put_all(sink, text.as_slice()) {
            Put::Taken(_) => Simulated::Done,
            Put::Failed => Simulated::WriteFault,
        },
    }
}
