//! Serving clients, with the run written to a sink.
ghost use Rattle.std.specs.Prelude.{◌≡◌};
ghost use Rattle.dc_event.specs.Causes.{Fares, count_where};
ghost use Rattle.dc_play.specs.Playing.{limit_of};
ghost use Rattle.dc_status.specs.Faults.{fault_of, files_well, source_well, sink_well, world_well};
ghost use Rattle.dc_recording.specs.Recording.{Recorded};

use crate::ready::{Ready, ready_of};
use crate::written::serve_lent;
use dc_config::{Env, Files};
use dc_event::{Put, Sink, Source, World, put_all};
use dc_serving::Session;
use dc_status::Status;
use std::alloc::Global;

/// Serves clients as `serve_command` does, with the root's zone before all others, and writes the run to a sink: the head of the configuration
/// and the seed, and then the line of each event before it is handled. With the line `end` behind them these are a script, unless a write
/// failed. At most `turns` events are handled, and never more than 2^60.
///
/// Refusals come in this order: those of the variables, where `Record` stands behind the others; those of the configuration; `SeedShort` or
/// `ReadFault`; `BadVariable(Record)`, where a zone can't be said in a head; `NoMemory`; `WriteFault` of the head; `NoMemory` again; and
/// `WorldFault` where the world can't listen. Where a write fails later, `WriteFault` ends the session, and the core is still there.
pub fn record_command<F: Files, S: Source, W: World, K: Sink>(
    alloc: Global,
    env: &Env,
    files: &mut F,
    source: &mut S,
    world: &mut W,
    sink: &mut K,
    turns: u64,
) -> Session
    ensures recorded { Recorded S.took S.left W.history W.used_up W.broken K.gained env.now (F.tree files.old) source.old source.new world.old world.new sink.old sink.new (limit_of turns) result.status result.core }
    ensures files { F.tree files.new ≡ F.tree files.old }
    ensures files_fare { Fares F.asked F.refused F.faults (files_well (fault_of result.status)) files.old files.new }
    ensures source_fares { Fares S.took S.refused S.faults (source_well (fault_of result.status)) source.old source.new }
    ensures sink_fares { Fares K.gained K.refused K.faults (sink_well (fault_of result.status)) sink.old sink.new }
    ensures world_fares { W.faults world.new ≡ count_where (world_well (fault_of result.status)) (W.faults world.old) }
{
    let Ready { basis, first, head } = match ready_of(alloc, env, files, source) {
        Ok(ready) => ready,
        Err(status) => return Session::refused(status),
    };
    match put_all(sink, &head) {
        Put::Failed => Session::refused(Status::WriteFault),
        Put::Taken(_) => serve_lent(alloc, basis, first, world, sink, turns),
    }
}
