//! A tool from its first word to its last.
ghost use Rattle.std.specs.Prelude.{◌≡◌, ◌≢◌, ◌+◌, ◌<◌, ◌≤◌, ◌^◌, ℕ, List, length, map, min, false};
ghost use Rattle.dc_model.specs.Draws.{draws_of};
ghost use Rattle.dc_model.specs.Places.{all_empty};
ghost use Rattle.dc_event.specs.Causes.{counted, Fares};
ghost use Rattle.dc_lookup.specs.Lookup.{opened};
ghost use Rattle.dc_stub.specs.Faults.{output_well};
ghost use Rattle.dc_stub.specs.Look.{Looked, job_of};

use crate::look::{Job, look_up};
use crate::status::ToolStatus;
use crate::word::{Session, Shows};
use dc_event::{Sink, World};
use std::alloc::Global;

/// Goes over the words of a tool with the random words of a seed. At most `turns` events are handled, and never more than 2^60.
pub fn run_jobs<T: Shows, K: Sink, W: World>(
    alloc: Global,
    servers: &[[u8; 4]; 16],
    jobs: &[Job],
    seed: [u8; 32],
    sink: &mut K,
    world: &mut W,
    turns: u64,
) -> ToolStatus
    requires place { all_empty servers.now ≡ false }
    ensures looked { Looked W.history W.used_up W.broken K.gained world.old world.new sink.old sink.new
        T.tool (opened servers.now (map job_of jobs.now)) (draws_of seed) (min turns (2 ^ 60)) result }
    ensures sink_fares { Fares K.gained K.refused K.faults (output_well result) sink.old sink.new }
    ensures world_fault { result ≡ ToolStatus.WorldFault → W.faults world.new ≡ counted (W.faults world.old) }
    ensures world_stays { result ≢ ToolStatus.WorldFault → W.faults world.new ≡ W.faults world.old }
{
    let left = turns.min(1 << 60);
    let Ok(mut session) = Session::new(alloc, seed, left) else {
        return ToolStatus::NoMemory;
    };
    look_up::<T, K, W>(alloc, servers, jobs, &mut session, sink, world)
}
