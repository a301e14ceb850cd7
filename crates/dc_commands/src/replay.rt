//! Replaying a script: its actions, in the order in which they come, as text.
ghost use Rattle.dc_event.specs.Causes.{Fares};
ghost use Rattle.dc_play.specs.Playing.{limit_of};
ghost use Rattle.dc_status.specs.Faults.{fault_of, source_well, sink_well};
ghost use Rattle.dc_commands.specs.Replay.{Replayed};

use dc_event::{Sink, Source};
use dc_play::{Events, Places, play};
use dc_script::{ScriptError, read_head};
use dc_serving::core_of;
use dc_status::Status;
use std::alloc::Global;

/// Replays the script that a source gives, and writes its actions to a sink. At most `turns` events are handled, and never more than 2^60.
///
/// The core's memory is taken behind the head, which says how large the cache is, and before the first event.
pub fn replay_command<S: Source, K: Sink>(
    alloc: Global,
    source: &mut S,
    sink: &mut K,
    turns: u64,
) -> Status
    ensures replayed { Replayed S.took S.left K.gained source.old source.new sink.old sink.new (limit_of turns) result }
    ensures source_fares { Fares S.took S.refused S.faults (source_well (fault_of result)) source.old source.new }
    ensures sink_fares { Fares K.gained K.refused K.faults (sink_well (fault_of result)) sink.old sink.new }
{
    let Ok(places) = Places::new(alloc) else {
        return Status::NoMemory;
    };
    let script = match read_head(alloc, source) {
        Ok(script) => script,
        Err(ScriptError::Bad { line }) => return Status::BadScript(line),
        Err(ScriptError::ReadFault) => return Status::ReadFault,
        Err(ScriptError::NoMemory) => return Status::NoMemory,
    };
    let Ok(mut core) = core_of(alloc, script.config) else {
        return Status::NoMemory;
    };
    let events = Events {
        lines: script.lines,
        rest: script.rest,
    };
    Status::from(play(places, &mut core, script.seed, events, source, sink, turns))
}
