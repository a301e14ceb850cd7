//! Serving clients.
ghost use Rattle.std.specs.Prelude.{◌≡◌, ℕ, List};
ghost use Rattle.dc_event.specs.Causes.{Fares, count_where};
ghost use Rattle.dc_play.specs.Playing.{limit_of};
ghost use Rattle.dc_status.specs.Faults.{fault_of, files_well, source_well, world_well};
ghost use Rattle.dc_serving.specs.Serving.{Served, ServesFrom};

use crate::memory::{memory_of, store_of};
use crate::session::{Session, status_of};
use crate::setup::{Basis, set_up};
use dc_config::{Env, Files};
use dc_draws::Draws;
use dc_event::{Source, World};
use dc_ring::ArenaStore;
use dc_serve::serve;
use dc_status::Status;
use std::alloc::Global;

/// Serves clients by a core that begins with a first cache: takes all memory, listens, and hands the world's events to the core. At most `turns`
/// events are handled, and never more than 2^60.
///
/// Refusals come in this order: `NoMemory`, and `WorldFault` where the world can't listen.
pub fn serve_from<W: World>(
    alloc: Global,
    basis: Basis,
    first: ArenaStore,
    world: &mut W,
    turns: u64,
) -> Session
    ensures serves { ServesFrom W.history W.used_up W.broken world.old world.new basis.config first basis.seed (limit_of turns) result.status result.core }
    ensures world_fares { W.faults world.new ≡ count_where (world_well (fault_of result.status)) (W.faults world.old) }
{
    let Basis { config, seed } = basis;
    config.zones.have_places();
    let ip = config.ip;
    let ipsend = config.ipsend;
    let Ok((mut core, mut inbox)) = memory_of(alloc, config, first) else {
        return Session::refused(Status::NoMemory);
    };
    if world.listen(ip, ipsend).is_err() {
        return Session::refused(Status::WorldFault);
    }
    let mut draws = Draws::from_seed(seed);
    let ended = serve(world, &mut core, &mut draws, &mut inbox, turns);
    Session {
        status: status_of(ended),
        core: Some(core),
    }
}

/// Serves clients, with the configuration that the environment and the files give and the seed that the source begins with: reads both, takes
/// all memory, listens, and hands the world's events to a core. At most `turns` events are handled, and never more than 2^60.
///
/// Refusals come in this order: those of the configuration, `SeedShort` or `ReadFault`, `NoMemory`, and `WorldFault` where the world can't
/// listen.
pub fn serve_command<F: Files, S: Source, W: World>(
    alloc: Global,
    env: &Env,
    files: &mut F,
    source: &mut S,
    world: &mut W,
    turns: u64,
) -> Session
    ensures served { Served S.took S.left W.history W.used_up W.broken env.now (F.tree files.old) source.old source.new world.old world.new (limit_of turns) result.status result.core }
    ensures files { F.tree files.new ≡ F.tree files.old }
    ensures files_fare { Fares F.asked F.refused F.faults (files_well (fault_of result.status)) files.old files.new }
    ensures source_fares { Fares S.took S.refused S.faults (source_well (fault_of result.status)) source.old source.new }
    ensures world_fares { W.faults world.new ≡ count_where (world_well (fault_of result.status)) (W.faults world.old) }
{
    let basis = match set_up(alloc, env, files, source) {
        Ok(basis) => basis,
        Err(status) => return Session::refused(status),
    };
    let Ok(store) = store_of(alloc, &basis.config) else {
        return Session::refused(Status::NoMemory);
    };
    serve_from(alloc, basis, store, world, turns)
}
