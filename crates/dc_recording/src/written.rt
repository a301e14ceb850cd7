//! Serving while each event is written.
ghost use Rattle.std.specs.Prelude.{◌≡◌, ℕ, List, []};
ghost use Rattle.dc_event.specs.Causes.{Fares, count_where};
ghost use Rattle.dc_event.specs.History.{Exchange};
ghost use Rattle.dc_play.specs.Playing.{limit_of};
ghost use Rattle.dc_status.specs.Faults.{fault_of, sink_well, world_well};
ghost use Rattle.dc_recording.specs.Written.{status_by, RecordsFrom};

use dc_event::{Sink, World};
use dc_record::{LentWorld, RecordWorld};
use dc_ring::ArenaStore;
use dc_serving::{Basis, Session, serve_from};
use dc_status::Status;
use std::alloc::Global;

/// How a session ends, by whether each write went well.
fn status_by(wrote_all: bool, ended: Status) -> Status
    ensures { result ≡ status_by wrote_all ended }
{
    if wrote_all { ended } else { Status::WriteFault }
}

/// Serves clients by a core that begins with a first cache, and writes the line of each event before it is handled; says in `session` how that
/// ended, and gives the world and the sink back. Where a write fails, that call is the sink's last, the event isn't handled, and `WriteFault`
/// ends the session.
fn serve_written<W: World, K: Sink>(
    alloc: Global,
    basis: Basis,
    first: ArenaStore,
    world: W,
    sink: K,
    turns: u64,
    session: &mut Session,
) -> (W, K)
    ensures records { RecordsFrom W.history W.used_up W.broken K.gained world result.0 sink result.1 [] basis.config first basis.seed (limit_of turns) session.new.status session.new.core }
    ensures passed { (h : List Exchange) × W.history world h result.0 }
    ensures put { (text : List ℕ) × K.gained sink text result.1 }
    ensures sink_fares { Fares K.gained K.refused K.faults (sink_well (fault_of session.new.status)) sink result.1 }
    ensures world_fares { W.faults result.0 ≡ count_where (world_well (fault_of session.new.status)) (W.faults world) }
{
    let mut recorded = RecordWorld::new(world, sink);
    let Session { status, core } = serve_from(alloc, basis, first, &mut recorded, turns);
    let status = status_by(recorded.wrote_all(), status);
    *session = Session { status, core };
    let (world, sink) = recorded.into_parts();
    (world, sink)
}

/// The same with a world and a sink that are lent.
pub(crate) fn serve_lent<W: World, K: Sink>(
    alloc: Global,
    basis: Basis,
    first: ArenaStore,
    world: &mut W,
    sink: &mut K,
    turns: u64,
) -> Session
    ensures records { RecordsFrom W.history W.used_up W.broken K.gained world.old world.new sink.old sink.new [] basis.config first basis.seed (limit_of turns) result.status result.core }
    ensures sink_fares { Fares K.gained K.refused K.faults (sink_well (fault_of result.status)) sink.old sink.new }
    ensures world_fares { W.faults world.new ≡ count_where (world_well (fault_of result.status)) (W.faults world.old) }
{
    let mut session = Session::refused(Status::NoMemory);
    let lent = LentWorld::new(world);
    let (_, _) = serve_written(alloc, basis, first, lent, sink, turns, &mut session);
    session
}
