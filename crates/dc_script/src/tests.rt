//! What no clause says: good and bad lines, faults, and the text that is written.
use crate::{LineRest, ScriptWorld};
use dc_event::{
    BatchWorld, Effects, Heard, Inbox, MemorySink, MemorySource, QuietSink, QuietSource, World,
};
use std::alloc::{AllocError, Global};
use std::test::Fail;

/// The next two answers of a world.
fn two<W: World>(world: &mut W, inbox: &mut Inbox) -> [Heard; 2] {
    let first = world.next(None, inbox);
    let second = world.next(Some(5), inbox);
    [first, second]
}

/// Lines of events, one of each kind and at the ends of what numbers may be.
const GOOD: &str = "at 5 tick
at 0 request 127.0.0.1 65535 00ff
at 5 datagram 1 198.51.100.1 53 -
at 5 linkup 18446744073709551615
at 5 linkbytes 0 0.0.0.0 0 0a
at 5 linkdown 3
at 5 bindrefused 3
at 5 connup 3 10.0.0.1 1024
at 5 connbytes 3 -
at 4611686018427387903 conndown 3";

/// Lines outside the grammar.
const BAD: &str = "at 4611686018427387904 conndown 3
at 5  tick
 at 5 tick
at 5 tick 
at 05 tick
at 5 tock
at tick
at 5 tick 1
at 5 linkup 18446744073709551616
at 5 request 127.0.0.256 1 00
at 5 request 127.0.0.1 65536 00
at 5 request 127.0.0.1 1 0
at 5 request 127.0.0.1 1 0A
at 5 request 127.0.0.1 1
at 5 connbytes 3 

end 
begin";

/// The first two answers to a script behind seven lines, which is taken five bytes at a time.
fn answers(alloc: Global, line: &[u8], rest: &[u8]) -> Result<[Heard; 2], AllocError> {
    let mut text = line.to_vec(alloc)?;
    text.extend_from_slice(rest)?;
    let source = MemorySource::new(text, 5, Vec::new(alloc));
    let sink = QuietSink::new(alloc, 8)?;
    let mut world = ScriptWorld::new(alloc, LineRest::new(alloc)?, 7, source, sink)?;
    let mut inbox = Inbox::new(alloc)?;
    Ok(two(&mut world, &mut inbox))
}

#[test]
fn good_lines(rt: HostRuntime) -> Result<(), Fail> {
    for line in GOOD.lines() {
        let got = answers(rt.alloc(), line.as_bytes(), b"\nend\n")?;
        assert_eq!(rt; got, [Heard::Event, Heard::End], "{line}");
        let got = answers(rt.alloc(), line.as_bytes(), b"\nend")?;
        assert_eq!(rt; got, [Heard::Event, Heard::Bad { line: 9 }], "{line}");
    }
    Ok(())
}

#[test]
fn bad_lines(rt: HostRuntime) -> Result<(), Fail> {
    for line in BAD.lines() {
        let got = answers(rt.alloc(), line.as_bytes(), b"\nend\n")?;
        assert_eq!(rt;
            got,
            [Heard::Bad { line: 8 }, Heard::Bad { line: 8 }],
            "{line}"
        );
    }
    Ok(())
}

/// What stands behind the line `end`.
#[test]
fn ends(rt: HostRuntime) -> Result<(), Fail> {
    for (text, answer) in [
        (&b"end\n"[..], Heard::End),
        (b"end", Heard::Bad { line: 8 }),
        (b"", Heard::Bad { line: 8 }),
        (b"end\n\n", Heard::Bad { line: 9 }),
        (b"end\nx", Heard::Bad { line: 9 }),
    ] {
        assert_eq!(rt; answers(rt.alloc(), text, b"")?, [answer, answer]);
    }
    Ok(())
}

/// A line of 131201 bytes, a packet of 65536 bytes and one of 65535, each before `end`.
#[test]
fn long_lines(rt: HostRuntime) -> Result<(), Fail> {
    let alloc = rt.alloc();
    let mut inbox = Inbox::new(alloc)?;
    let bad = [Heard::Bad { line: 1 }, Heard::Bad { line: 1 }];
    let cases: [(&[u8], usize, [Heard; 2]); 3] = [
        (b"", 131_201, bad),
        (b"at 5 connbytes 3 ", 131_072, bad),
        (b"at 5 connbytes 3 ", 131_070, [Heard::Event, Heard::End]),
    ];
    for (front, digits, wanted) in cases {
        let mut text = front.to_vec(alloc)?;
        for _ in 0..digits {
            text.push(b'0')?;
        }
        text.extend_from_slice(b"\nend\n")?;
        let sink = QuietSink::new(alloc, 8)?;
        let source = QuietSource::new(text);
        let mut world = ScriptWorld::new(alloc, LineRest::new(alloc)?, 0, source, sink)?;
        assert_eq!(rt; two(&mut world, &mut inbox), wanted);
    }
    Ok(())
}

/// Each action's text, also behind a write that failed.
#[test]
fn actions(rt: HostRuntime) -> Result<(), Fail> {
    let alloc = rt.alloc();
    let mut inbox = Inbox::new(alloc)?;
    let whole =
        b"reply 127.0.0.1 4096 00ff\nconnreply 7 -\nconnclose 7\nudp 1 1025 198.51.100.1 0a\ntcp 2 1026 198.51.100.2\n\
linkwrite 2 0001ff\nlinkclose 2\nline a b\n";
    for (room, fails, len, answer, faults) in [
        (200, 0, 143, Heard::End, 0),
        (200, 2, 26, Heard::Failed, 1),
        (30, 0, 30, Heard::Failed, 1),
    ] {
        let source = QuietSource::new(b"end\n".to_vec(alloc)?);
        let sink = MemorySink::new(alloc, room, [fails].to_vec(alloc)?)?;
        let mut world = ScriptWorld::new(alloc, LineRest::new(alloc)?, 0, source, sink)?;
        world.reply([127, 0, 0, 1], 4096, &[0, 255]);
        world.conn_reply(7, &[]);
        world.conn_close(7);
        world.udp(1, 1025, [198, 51, 100, 1], &[10]);
        world.tcp(2, 1026, [198, 51, 100, 2]);
        world.link_write(2, &[0, 1, 255]);
        world.link_close(2);
        world.line(b"a b");
        assert!(rt; len <= whole.len());
        assert_eq!(rt; world.sink().held(), &whole[..len]);
        assert_eq!(rt; (world.source_faults(), world.sink_faults()), (0, faults));
        assert_eq!(rt; world.next(None, &mut inbox), answer);
        assert_eq!(rt; World::faults(&world), faults);
    }
    Ok(())
}

/// A read that fails in mid-line: that call and all later ones fail.
#[test]
fn failed_read(rt: HostRuntime) -> Result<(), Fail> {
    let alloc = rt.alloc();
    let mut inbox = Inbox::new(alloc)?;
    let text = b"at 5 tick\nat 6 tick\nend\n".to_vec(alloc)?;
    let source = MemorySource::new(text, 12, [2u64].to_vec(alloc)?);
    let mut world = ScriptWorld::new(
        alloc,
        LineRest::new(alloc)?,
        0,
        source,
        QuietSink::new(alloc, 8)?,
    )?;
    assert_eq!(rt; world.listen([10, 0, 0, 1], [10, 0, 0, 2]), Ok(()));
    assert_eq!(rt; two(&mut world, &mut inbox), [Heard::Event, Heard::Failed]);
    assert_eq!(rt; two(&mut world, &mut inbox), [Heard::Failed, Heard::Failed]);
    assert_eq!(rt;
        (
            world.source_faults(),
            world.sink_faults(),
            World::faults(&world)
        ),
        (1, 0, 3)
    );
    Ok(())
}

/// Whether each of three calls gives a further event.
fn three<W: BatchWorld>(world: &mut W, inbox: &mut Inbox) -> [bool; 3] {
    let first = world.more(inbox);
    let second = world.more(inbox);
    let third = world.more(inbox);
    [first, second, third]
}

/// Events of one moment, then one of another, a bad line, or the end; and lines that a source gives in small pieces.
#[test]
fn further_events(rt: HostRuntime) -> Result<(), Fail> {
    let alloc = rt.alloc();
    let mut inbox = Inbox::new(alloc)?;
    let cases: [(&[u8], usize, [bool; 3]); 5] = [
        (
            b"at 5 tick\nat 5 conndown 1\nat 5 conndown 2\nat 6 tick\nend\n",
            99,
            [true, true, false],
        ),
        (
            b"at 5 tick\nat 5 conndown 3\nat 5 tock\nend\n",
            99,
            [true, false, false],
        ),
        (
            b"at 5 tick\nat 5 conndown 3\nend\n",
            99,
            [true, false, false],
        ),
        (b"at 5 tick\nend\n", 99, [false; 3]),
        (b"at 5 tick\nat 5 conndown 3\nend\n", 1, [false; 3]),
    ];
    for (text, piece, wanted) in cases {
        let source = MemorySource::new(text.to_vec(alloc)?, piece, Vec::new(alloc));
        let sink = QuietSink::new(alloc, 8)?;
        let mut world = ScriptWorld::new(alloc, LineRest::new(alloc)?, 0, source, sink)?;
        assert_eq!(rt; three(&mut world, &mut inbox), [false; 3]);
        assert_eq!(rt; world.next(None, &mut inbox), Heard::Event);
        assert_eq!(rt; three(&mut world, &mut inbox), wanted);
        assert_eq!(rt; inbox.event().now, 5);
    }
    Ok(())
}
