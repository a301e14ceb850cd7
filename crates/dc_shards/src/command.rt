//! Serving clients over several cores.
ghost use Rattle.std.specs.Prelude.{◌≡◌, option_map};
ghost use Rattle.dc_event.specs.Causes.{Fares, count_where};
ghost use Rattle.dc_play.specs.Playing.{limit_of};
ghost use Rattle.dc_status.specs.Faults.{fault_of, files_well, source_well, world_well};
ghost use Rattle.dc_shard.specs.Bays.{states_of};
ghost use Rattle.dc_shards.specs.Serving.{SplitServed};

use crate::asked::cores_asked;
use crate::memory::memory_of;
use crate::session::ShardSession;
use dc_config::{Env, Files, load};
use dc_draws::Draws;
use dc_event::{BatchWorld, Source};
use dc_serving::{Seed, take_seed};
use dc_shard::serve_shards;
use dc_status::Status;
use std::alloc::Global;
use std::thread::Threads;

/// Serves clients over as many cores as CORES says, with the configuration that the environment and the files give and the seed that the
/// source begins with: reads both, takes all memory of the cores, listens, and hands the world's events to the cores, which make their steps
/// in threads. At most `turns` events are handled, and never more than 2^60.
///
/// Each core has its own 200 queries, 20 connections and counts, and its part of the cache: the configured size through the number of cores,
/// brought into 100 to 1000000000 bytes.
///
/// Refusals come in this order: of IP, IPSEND, CACHESIZE and CORES the first that is bad; those of the files; `SeedShort` or `ReadFault`;
/// `NoMemory`; and `WorldFault` where the world can't listen. `NoMemory` may come in any later round too.
pub fn shards_command<R: Threads + Sync, F: Files, S: Source, W: BatchWorld>(
    rt: &R,
    alloc: Global,
    env: &Env,
    files: &mut F,
    source: &mut S,
    world: &mut W,
    turns: u64,
) -> ShardSession
    ensures served { SplitServed S.took S.left W.history W.used_up W.broken env.now (F.tree files.old) source.old source.new world.old world.new (limit_of turns) result.status (option_map (λ s. states_of (λ r. r) s.bays.items) result.shards) }
    ensures files { F.tree files.new ≡ F.tree files.old }
    ensures files_fare { Fares F.asked F.refused F.faults (files_well (fault_of result.status)) files.old files.new }
    ensures source_fares { Fares S.took S.refused S.faults (source_well (fault_of result.status)) source.old source.new }
    ensures world_fares { W.faults world.new ≡ count_where (world_well (fault_of result.status)) (W.faults world.old) }
{
    let cores = match cores_asked(env) {
        Ok(cores) => cores,
        Err(variable) => return ShardSession::refused(Status::BadVariable(variable)),
    };
    let config = match load(alloc, env, files) {
        Ok(config) => config,
        Err(error) => return ShardSession::refused(Status::from(error)),
    };
    let seed = match take_seed(source) {
        Seed::Whole(seed) => seed,
        Seed::Short => return ShardSession::refused(Status::SeedShort),
        Seed::Failed => return ShardSession::refused(Status::ReadFault),
    };
    let Ok((mut shards, mut inbox)) = memory_of(alloc, &config, cores) else {
        return ShardSession::refused(Status::NoMemory);
    };
    if world.listen(config.ip, config.ipsend).is_err() {
        return ShardSession::refused(Status::WorldFault);
    }
    let mut draws = Draws::from_seed(seed);
    let ended = serve_shards(rt, world, &mut shards, &mut inbox, &mut draws, turns);
    ShardSession::behind(ended, shards)
}
