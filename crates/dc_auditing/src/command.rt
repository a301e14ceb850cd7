//! The command: recorded runs are judged, and a line is written of each.
ghost use Rattle.std.specs.Prelude.{◌≡◌, map, string_bytes};
ghost use Rattle.dc_event.specs.Causes.{Fares};
ghost use Rattle.dc_status.specs.Faults.{fault_of, files_well, sink_well};
ghost use Rattle.dc_auditing.specs.Audited.{Audited};

use crate::judging::judged;
use crate::reading::{Unread, read_runs};
use crate::report::{count_unequal, report};
use dc_config::Files;
use dc_event::{Put, Sink, put_all};
use dc_status::Status;
use std::alloc::Global;
use std::thread::Threads;

/// Judges the recorded runs of these names, and writes a line of each, in order.
///
/// The script of a name is the file of that name, and the text that was recorded of its run the file of that name with `.actions` behind it.
/// All files are read first. Then those pairs that are there are judged, in at most eight threads. `Done` comes exactly where every verdict is
/// `Same` and all lines were written, and `Unequal` where one isn't. With `FilesFault` and `NoMemory` nothing is written, and with
/// `WriteFault` a front of the lines.
pub fn audit_command<F: Files, K: Sink, R: Threads + Sync>(
    rt: &R,
    alloc: Global,
    names: &[String],
    files: &mut F,
    sink: &mut K,
) -> Status
    ensures audited { Audited F.tree F.asked K.gained (map string_bytes names.now) files.old files.new sink.old sink.new result }
    ensures files { F.tree files.new ≡ F.tree files.old }
    ensures files_fare { Fares F.asked F.refused F.faults (files_well (fault_of result)) files.old files.new }
    ensures sink_fares { Fares K.gained K.refused K.faults (sink_well (fault_of result)) sink.old sink.new }
{
    let runs = match read_runs(alloc, files, names) {
        Ok(runs) => runs,
        Err(Unread::Failed) => return Status::FilesFault,
        Err(Unread::NoMemory) => return Status::NoMemory,
    };
    let Ok(findings) = judged(rt, alloc, &runs) else {
        return Status::NoMemory;
    };
    let Ok(text) = report(alloc, names, findings.as_slice()) else {
        return Status::NoMemory;
    };
    let unequal = count_unequal(rt, findings.as_slice());
    match put_all(sink, text.as_slice()) {
        Put::Failed => Status::WriteFault,
        Put::Taken(_) if unequal == 0 => Status::Done,
        Put::Taken(_) => Status::Unequal,
    }
}
