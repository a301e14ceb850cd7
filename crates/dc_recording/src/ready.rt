//! What is read, and which memory is taken, before anything is written.
ghost use Rattle.std.specs.Prelude.{◌≡◌};
ghost use Rattle.dc_event.specs.Causes.{Fares};
ghost use Rattle.dc_status.specs.Faults.{files_well, source_well};
ghost use Rattle.dc_recording.specs.Ready.{ReadyWith, Readies, fault_by};

use dc_config::{Env, Files, Variable, first_bad_recorded};
use dc_event::Source;
use dc_record::{head_error, head_of};
use dc_ring::ArenaStore;
use dc_serving::{Basis, set_up, store_of};
use dc_status::Status;
use std::alloc::Global;

/// What a service that records begins with.
#[derive(Drop)]
pub(crate) struct Ready {
    /// The configuration, with the root's zone before all others, and the seed.
    pub(crate) basis: Basis,
    /// The empty cache.
    pub(crate) first: ArenaStore,
    /// The head's lines.
    pub(crate) head: Vec<u8>,
}

/// Takes the cache and the head of what was read. The root's zone is put before all others.
fn ready_with(alloc: Global, basis: Basis) -> Result<Ready, Status>
    ensures ready { ReadyWith basis result }
{
    let Basis { mut config, seed } = basis;
    config.zones.put_root_first();
    if head_error(&config.zones).is_some() {
        return Err(Status::BadVariable(Variable::Record));
    }
    let Ok(first) = store_of(alloc, &config) else {
        return Err(Status::NoMemory);
    };
    let Ok(head) = head_of(alloc, &config, &seed) else {
        return Err(Status::NoMemory);
    };
    Ok(Ready {
        basis: Basis { config, seed },
        first,
        head,
    })
}

/// Reads the configuration and the seed, and takes the cache and the head.
///
/// Refusals come in this order: those of the variables, where `Record` stands behind the others; those of the configuration; `SeedShort` or
/// `ReadFault`; `BadVariable(Record)`, where a zone can't be said in a head; and `NoMemory`.
pub(crate) fn ready_of<F: Files, S: Source>(
    alloc: Global,
    env: &Env,
    files: &mut F,
    source: &mut S,
) -> Result<Ready, Status>
    ensures readies { Readies S.took S.left env.now (F.tree files.old) source.old source.new result }
    ensures files { F.tree files.new ≡ F.tree files.old }
    ensures files_fare { Fares F.asked F.refused F.faults (files_well (fault_by result)) files.old files.new }
    ensures source_fares { Fares S.took S.refused S.faults (source_well (fault_by result)) source.old source.new }
{
    if let Some(variable) = first_bad_recorded(env) {
        return Err(Status::BadVariable(variable));
    }
    let basis = match set_up(alloc, env, files, source) {
        Ok(basis) => basis,
        Err(status) => return Err(status),
    };
    ready_with(alloc, basis)
}
