//! Serving clients with a cache that is kept.
ghost use Rattle.std.specs.Prelude.{◌≡◌, true};
ghost use Rattle.dc_event.specs.Causes.{Fares, count_where};
ghost use Rattle.dc_play.specs.Playing.{limit_of};
ghost use Rattle.dc_status.specs.Faults.{fault_of, files_well, sink_well, world_well};
ghost use Rattle.dc_keep.specs.Keeping.{Kept, status_unloaded, turns_of};
ghost use Rattle.dc_keep.specs.Saving.{LeavesLast};

use crate::first::first_store;
use crate::save::save_where_ended;
use dc_config::{Env, Files, events_in, first_bad_kept};
use dc_event::{Sink, Source, World};
use dc_image::ImageError;
use dc_serving::{Session, serve_from, set_up};
use dc_status::Status;
use std::alloc::Global;

/// How many events are handled at most: of `turns` and EVENTS the lesser.
fn turns_of(env: &Env, turns: u64) -> u64
    ensures { result ≡ turns_of env.now turns }
{
    match events_in(env) {
        Some(events) => turns.min(events),
        None => turns,
    }
}

/// The status where no first cache was loaded.
fn status_unloaded(error: ImageError) -> Status
    ensures { result ≡ status_unloaded error }
{
    match error {
        ImageError::Empty | ImageError::Bad => Status::BadImage,
        ImageError::ReadFault => Status::ReadFault,
        ImageError::NoMemory => Status::NoMemory,
    }
}

/// Saves the last cache of a session, where serving ended without a fault.
fn save_last<O: Sink>(session: Session, image: &mut O) -> Session
    requires unsaved { sink_well (fault_of session.status) ≡ true }
    ensures core { result.core ≡ session.core }
    ensures leaves { LeavesLast O.gained image.old image.new session.status result.status session.core }
    ensures fares { Fares O.gained O.refused O.faults (sink_well (fault_of result.status)) image.old image.new }
{
    let Session { status, core } = session;
    let Some(core) = core else {
        return Session { status, core: None };
    };
    let status = save_where_ended(status, core.store(), image);
    Session {
        status,
        core: Some(core),
    }
}

/// Serves clients as `serve_command` does, with a cache that is kept: it begins with the image that `image_in` has left, or with an empty cache where
/// that has no byte, and saves the last cache to `image_out` where serving ended with `Done` or `Spent`. After any other status nothing is saved. Of
/// `turns` and EVENTS the lesser counts.
///
/// Refusals come in this order: those of the variables, where `Image` and `Events` stand behind the others; those of the configuration; `SeedShort` or
/// `ReadFault` of the seed; `BadImage` or `ReadFault` of the image; `NoMemory`, which the image may want too; and `WorldFault` where the world can't
/// listen. `WriteFault` stands in place of `Done` or `Spent`, and the core is still there.
pub fn keep_command<F: Files, S: Source, W: World, I: Source, O: Sink>(
    alloc: Global,
    env: &Env,
    files: &mut F,
    source: &mut S,
    image_in: &mut I,
    image_out: &mut O,
    world: &mut W,
    turns: u64,
) -> Session
    ensures kept { Kept S.took S.left S.refused S.faults W.history W.used_up W.broken I.took I.left I.refused I.faults O.gained env.now (F.tree files.old)
        source.old source.new world.old world.new image_in.old image_in.new image_out.old image_out.new (limit_of (turns_of env.now turns)) result.status result.core }
    ensures files { F.tree files.new ≡ F.tree files.old }
    ensures files_fare { Fares F.asked F.refused F.faults (files_well (fault_of result.status)) files.old files.new }
    ensures image_fares { Fares O.gained O.refused O.faults (sink_well (fault_of result.status)) image_out.old image_out.new }
    ensures world_fares { W.faults world.new ≡ count_where (world_well (fault_of result.status)) (W.faults world.old) }
{
    if let Some(variable) = first_bad_kept(env) {
        return Session::refused(Status::BadVariable(variable));
    }
    let basis = match set_up(alloc, env, files, source) {
        Ok(basis) => basis,
        Err(status) => return Session::refused(status),
    };
    let first = match first_store(alloc, basis.config.size, image_in) {
        Ok(first) => first,
        Err(error) => return Session::refused(status_unloaded(error)),
    };
    let session = serve_from(alloc, basis, first, world, turns_of(env, turns));
    save_last(session, image_out)
}
