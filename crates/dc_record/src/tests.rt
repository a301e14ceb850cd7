//! What no clause says: the lines of each kind of event, byte for byte, and that nothing is asked for behind a write that failed.
use crate::RecordWorld;
use dc_event::{Heard, Inbox, MemorySink, MemorySource, World};
use dc_script::{LineRest, ScriptWorld};
use std::alloc::{AllocError, Global};
use std::test::Fail;

/// An event of each kind.
const EVENTS: &[u8] = b"at 1000000 tick
at 1000001 request 127.0.0.1 4096 00ff
at 4611686018427387903 datagram 18446744073709551615 255.255.255.255 65535 -
at 0 linkup 1
at 0 linkbytes 2 198.51.100.1 53 0102
at 0 linkdown 3
at 0 bindrefused 4
at 0 connup 5 127.0.0.1 1
at 0 connbytes 6 ff
at 0 conndown 7
";

/// A world of these events, which are recorded to a sink with so much room.
fn recorded(
    alloc: Global,
    events: &[u8],
    room: usize,
) -> Result<RecordWorld<ScriptWorld<MemorySource, MemorySink>, MemorySink>, AllocError> {
    let mut script = events.to_vec(alloc)?;
    script.extend_from_slice(b"end\n")?;
    let source = MemorySource::new(script, 64, Vec::new(alloc));
    let log = MemorySink::new(alloc, 100, Vec::new(alloc))?;
    let world = ScriptWorld::new(alloc, LineRest::new(alloc)?, 0, source, log)?;
    let sink = MemorySink::new(alloc, room, Vec::new(alloc))?;
    Ok(RecordWorld::new(world, sink))
}

#[test]
fn events_are_written_as_they_were(rt: HostRuntime) -> Result<(), Fail> {
    let alloc: Global = rt.alloc();
    let mut inbox = Inbox::new(alloc)?;
    let mut world = recorded(alloc, EVENTS, 1000)?;
    for _ in 0..10 {
        assert!(rt; world.next(None, &mut inbox) == Heard::Event);
    }
    assert!(rt; world.next(None, &mut inbox) == Heard::End);
    assert!(rt; world.wrote_all() && world.faults() == 0);
    let (_, sink) = world.into_parts();
    assert!(rt; sink.held() == EVENTS);
    Ok(())
}

#[test]
fn nothing_comes_behind_a_failed_write(rt: HostRuntime) -> Result<(), Fail> {
    let alloc: Global = rt.alloc();
    let mut inbox = Inbox::new(alloc)?;
    let mut world = recorded(alloc, EVENTS, 20)?;
    assert!(rt; world.next(None, &mut inbox) == Heard::Event);
    assert!(rt; world.next(None, &mut inbox) == Heard::Failed);
    assert!(rt; world.next(None, &mut inbox) == Heard::Failed);
    assert!(rt; !world.wrote_all() && world.faults() == 2);
    let (_, sink) = world.into_parts();
    assert!(rt; EVENTS.starts_with(sink.held()));
    Ok(())
}
