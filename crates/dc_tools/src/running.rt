//! A tool's run.
ghost use Rattle.std.specs.Prelude.{◌≡◌, ◌≢◌, ◌↔◌, ◌^◌, ℕ, List, min, Some, None, codes};
ghost use Rattle.dc_model.specs.Draws.{draws_of};
ghost use Rattle.dc_event.specs.Causes.{counted, Fares};
ghost use Rattle.dc_config.specs.Environment.{value_of};
ghost use Rattle.dc_lookup.specs.Words as model;
ghost use Rattle.dc_lookup.specs.Servers.{own_server};
ghost use Rattle.dc_lookup.specs.Lookup.{opened};
ghost use Rattle.dc_stub.specs.Look.{Looked};
ghost use Rattle.dc_stub.specs.Begun.{bytes_of, AreServers};
ghost use Rattle.dc_stub.specs.Faults.{files_well, output_well};

use crate::tools::{Refusal, Tool};
use dc_config::{Env, Files};
use dc_event::{Sink, World};
use dc_stub::{StubError, ToolStatus, run_jobs, servers_of};
use std::alloc::Global;

/// The run of a tool: its words are tried, then the servers are read, and then the words are gone over one after another. The random words
/// are those of the seed. At most `turns` events are handled, and never more than 2^60.
pub fn run<T: Tool, F: Files, K: Sink, W: World>(
    alloc: Global,
    words: &[String],
    env: &Env,
    files: &mut F,
    seed: [u8; 32],
    sink: &mut K,
    world: &mut W,
    turns: u64,
) -> ToolStatus
    ensures usage { result ≡ ToolStatus.Usage → model.jobs_of T.tool (bytes_of words.now) ≡ None }
    ensures unusable { model.jobs_of T.tool (bytes_of words.now) ≡ None → result ≡ ToolStatus.Usage }
    ensures idle { result ≡ ToolStatus.Usage → (files.new ≡ files.old) × (sink.new ≡ sink.old) × (world.new ≡ world.old) }
    ensures unasked { result ≡ ToolStatus.FilesFault → (sink.new ≡ sink.old) × (world.new ≡ world.old) }
    ensures unread { (a : List ℕ) → own_server (value_of (codes "DNSCACHEIP") env.now) ≡ Some a → files.new ≡ files.old }
    ensures ran { (jobs : List model.Job) → model.jobs_of T.tool (bytes_of words.now) ≡ Some jobs → result ≢ ToolStatus.FilesFault
        → (servers : List (List ℕ)) × AreServers (F.tree files.old) env.now servers
        × Looked W.history W.used_up W.broken K.gained world.old world.new sink.old sink.new
        T.tool (opened servers jobs) (draws_of seed) (min turns (2 ^ 60)) result }
    ensures files_fare { Fares F.asked F.refused F.faults (files_well result) files.old files.new }
    ensures sink_fares { Fares K.gained K.refused K.faults (output_well result) sink.old sink.new }
    ensures world_fault { result ≡ ToolStatus.WorldFault → W.faults world.new ≡ counted (W.faults world.old) }
    ensures world_stays { result ≢ ToolStatus.WorldFault → W.faults world.new ≡ W.faults world.old }
{
    let jobs = match T::jobs(alloc, words) {
        Ok(jobs) => jobs,
        Err(Refusal::Usage) => return ToolStatus::Usage,
        Err(Refusal::NoMemory) => return ToolStatus::NoMemory,
    };
    match servers_of(alloc, env, files) {
        Ok(servers) => run_jobs::<T, K, W>(alloc, &servers, &jobs, seed, sink, world, turns),
        Err(StubError::FilesFault) => ToolStatus::FilesFault,
        Err(StubError::NoMemory) => ToolStatus::NoMemory,
    }
}
