//! The filter's run.
ghost use Rattle.std.specs.Prelude.{◌≡◌, ◌≢◌, ◌≤◌, ◌^◌, ℕ, List, min, Some, None, codes, false};
ghost use Rattle.dc_model.specs.Draws.{draws_of};
ghost use Rattle.dc_model.specs.Places.{all_empty};
ghost use Rattle.dc_event.specs.Causes.{Fares};
ghost use Rattle.dc_config.specs.Environment.{value_of};
ghost use Rattle.dc_lookup.specs.Servers.{own_server};
ghost use Rattle.dc_stub.specs.Begun.{bytes_of, AreServers};
ghost use Rattle.dc_stub.specs.Faults.{files_well, input_well, output_well, count_world};
ghost use Rattle.dc_sieve.specs.Sifted.{Sifted};
ghost use Rattle.dc_filtering.specs.Words.{slots_of};

use crate::words::slots_of;
use dc_config::{Env, Files};
use dc_event::{Sink, Source, World};
use dc_sieve::{Sieve, sift};
use dc_stub::{StubError, ToolStatus, servers_of};
use std::alloc::Global;

/// Filters an input with these servers and so many hosts asked for at once. All memory is taken before the first line is read.
fn filter<S: Source, K: Sink, W: World>(
    alloc: Global,
    servers: &[[u8; 4]; 16],
    slots: usize,
    seed: [u8; 32],
    source: &mut S,
    sink: &mut K,
    world: &mut W,
    turns: u64,
) -> ToolStatus
    requires least { 1 ≤ slots }
    requires most { slots ≤ 16 }
    requires place { all_empty servers.now ≡ false }
    ensures usable { result ≢ ToolStatus.Usage }
    ensures asked { result ≢ ToolStatus.FilesFault }
    ensures memory { result ≡ ToolStatus.NoMemory → (source.new ≡ source.old) × (sink.new ≡ sink.old) × (world.new ≡ world.old) }
    ensures sifted { result ≢ ToolStatus.NoMemory
        → Sifted S.took S.left K.gained W.history W.used_up W.broken source.old source.new sink.old sink.new world.old world.new
        slots servers.now (draws_of seed) (min turns (2 ^ 60)) result }
    ensures source_fares { Fares S.took S.refused S.faults (input_well result) source.old source.new }
    ensures sink_fares { Fares K.gained K.refused K.faults (output_well result) sink.old sink.new }
    ensures world { W.faults world.new ≡ count_world result (W.faults world.old) }
{
    let Ok(mut sieve) = Sieve::new(alloc, servers, slots, seed) else {
        return ToolStatus::NoMemory;
    };
    sift(&mut sieve, source, sink, world, turns)
}

/// The run of the filter: its words are tried, then the servers are read, and then the input is filtered from its first line to its last.
/// The random words are those of the seed. At most `turns` events are handled, and never more than 2^60.
pub fn run<F: Files, S: Source, K: Sink, W: World>(
    alloc: Global,
    words: &[String],
    env: &Env,
    files: &mut F,
    seed: [u8; 32],
    source: &mut S,
    sink: &mut K,
    world: &mut W,
    turns: u64,
) -> ToolStatus
    ensures usage { result ≡ ToolStatus.Usage → slots_of (bytes_of words.now) ≡ None }
    ensures unusable { slots_of (bytes_of words.now) ≡ None → result ≡ ToolStatus.Usage }
    ensures idle { result ≡ ToolStatus.Usage → (files.new ≡ files.old) × (source.new ≡ source.old) × (sink.new ≡ sink.old) × (world.new ≡ world.old) }
    ensures unasked { result ≡ ToolStatus.FilesFault → (source.new ≡ source.old) × (sink.new ≡ sink.old) × (world.new ≡ world.old) }
    ensures memory { result ≡ ToolStatus.NoMemory → (source.new ≡ source.old) × (sink.new ≡ sink.old) × (world.new ≡ world.old) }
    ensures unread { (a : List ℕ) → own_server (value_of (codes "DNSCACHEIP") env.now) ≡ Some a → files.new ≡ files.old }
    ensures filtered { (slots : ℕ) → slots_of (bytes_of words.now) ≡ Some slots → result ≢ ToolStatus.FilesFault → result ≢ ToolStatus.NoMemory
        → (servers : List (List ℕ)) × AreServers (F.tree files.old) env.now servers
        × Sifted S.took S.left K.gained W.history W.used_up W.broken source.old source.new sink.old sink.new world.old world.new
        slots servers (draws_of seed) (min turns (2 ^ 60)) result }
    ensures files_fare { Fares F.asked F.refused F.faults (files_well result) files.old files.new }
    ensures source_fares { Fares S.took S.refused S.faults (input_well result) source.old source.new }
    ensures sink_fares { Fares K.gained K.refused K.faults (output_well result) sink.old sink.new }
    ensures world { W.faults world.new ≡ count_world result (W.faults world.old) }
{
    let Some(slots) = slots_of(words) else {
        return ToolStatus::Usage;
    };
    match servers_of(alloc, env, files) {
        Ok(servers) => filter(alloc, &servers, slots, seed, source, sink, world, turns),
        Err(StubError::FilesFault) => ToolStatus::FilesFault,
        Err(StubError::NoMemory) => ToolStatus::NoMemory,
    }
}
