//! What no clause says: each call once, and sources and sinks through their bounds.
mod turns;

use crate::{
    Event, Inbox, Kind, MemorySink, MemorySource, Put, QuietSink, QuietSource, ReaderSource, Sink,
    Source, Taken, WriterSink, put_all,
};
use std::io::Cursor;
use std::process::Abort;
use std::test::Fail;

/// Takes twice by three bytes, and compares what comes.
fn takes<S: Source>(rt: &impl Abort, mut source: S, wanted: [(Taken, &[u8]); 2], faults: u64)
where
    S: Drop,
{
    for (answer, bytes) in wanted {
        let mut buffer = [0u8; 3];
        assert_eq!(rt; source.take(&mut buffer), answer);
        if let Taken::Bytes(count) = answer {
            assert!(rt; count <= 3);
            assert_eq!(rt; &buffer[..count], bytes);
        }
    }
    assert_eq!(rt; source.faults(), faults);
}

/// Sources of the bytes 1 to 4.
#[test]
fn sources(rt: HostRuntime) -> Result<(), Fail> {
    let bytes = [1u8, 2, 3, 4];
    let alloc = rt.alloc();
    let threes = [
        (Taken::Bytes(3), &bytes[..3]),
        (Taken::Bytes(1), &bytes[3..]),
    ];
    let twos = [
        (Taken::Bytes(2), &bytes[..2]),
        (Taken::Bytes(2), &bytes[2..]),
    ];
    let late = [(Taken::Failed, &bytes[..0]), (Taken::Bytes(3), &bytes[..3])];
    takes(&rt, QuietSource::new(bytes.to_vec(alloc)?), threes, 0);
    takes(&rt, ReaderSource::new(&bytes[..]), threes, 0);
    takes(
        &rt,
        MemorySource::new(bytes.to_vec(alloc)?, 9, Vec::new(alloc)),
        threes,
        0,
    );
    takes(
        &rt,
        MemorySource::new(bytes.to_vec(alloc)?, 2, Vec::new(alloc)),
        twos,
        0,
    );
    takes(
        &rt,
        MemorySource::new(bytes.to_vec(alloc)?, 9, [7u64, 1].to_vec(alloc)?),
        late,
        1,
    );
    let mut lent = QuietSource::new(bytes.to_vec(alloc)?);
    takes(&rt, &mut lent, threes, 0);
    let mut buffer = [0u8];
    assert_eq!(rt; lent.take(&mut buffer), Taken::Bytes(0), "the end");
    Ok(())
}

/// Puts `abc` and then `de`, and gives the sink back.
fn puts<K: Sink>(rt: &impl Abort, mut sink: K, wanted: [Put; 2], faults: u64) -> K {
    assert_eq!(rt; put_all(&mut sink, b"abc"), wanted[0]);
    assert_eq!(rt; put_all(&mut sink, b"de"), wanted[1]);
    assert_eq!(rt; put_all(&mut sink, b""), Put::Taken(0));
    assert_eq!(rt; sink.faults(), faults);
    sink
}

/// Sinks with room and without, and with a call that fails.
#[test]
fn sinks(rt: HostRuntime) -> Result<(), Fail> {
    let alloc = rt.alloc();
    let whole = [Put::Taken(3), Put::Taken(2)];
    let cut = [Put::Taken(3), Put::Failed];
    let sink = puts(&rt, QuietSink::new(alloc, 5)?, whole, 0);
    assert_eq!(rt; sink.held(), Some(&b"abcde"[..]));
    let sink = puts(&rt, QuietSink::new(alloc, 4)?, whole, 0);
    assert_eq!(rt; sink.held(), None);
    let sink = puts(&rt, MemorySink::new(alloc, 5, Vec::new(alloc))?, whole, 0);
    assert_eq!(rt; sink.held(), &b"abcde"[..]);
    let sink = puts(&rt, MemorySink::new(alloc, 4, Vec::new(alloc))?, cut, 1);
    assert_eq!(rt; sink.held(), &b"abcd"[..]);
    let sink = puts(
        &rt,
        MemorySink::new(alloc, 9, [2u64].to_vec(alloc)?)?,
        cut,
        1,
    );
    assert_eq!(rt; sink.held(), &b"abc"[..]);
    let mut sink = QuietSink::new(alloc, 5)?;
    puts(&rt, &mut sink, whole, 0);
    assert_eq!(rt; sink.held(), Some(&b"abcde"[..]));
    let mut buffer = [0u8; 4];
    puts(&rt, WriterSink::new(Cursor::new(&mut buffer[..])), cut, 1);
    assert_eq!(rt; &buffer[..], &b"abcd"[..]);
    Ok(())
}

/// An event and its bytes come back, also behind a longer one.
#[test]
fn inbox(rt: HostRuntime) -> Result<(), Fail> {
    let mut inbox = Inbox::new(rt.alloc())?;
    assert_eq!(rt; inbox.event().kind, Kind::Tick);
    let bytes = [7u8; 65535];
    for len in [65535, 3, 0] {
        let event = Event {
            now: 1_000_000,
            kind: Kind::LinkBytes,
            id: 12,
            addr: [198, 51, 100, 1],
            port: 53,
            len,
        };
        inbox.set(event, &bytes[..len]);
        assert_eq!(rt; inbox.bytes(), &bytes[..len]);
        let got = inbox.event();
        assert_eq!(rt;
            (got.now, got.kind, got.id),
            (1_000_000, Kind::LinkBytes, 12)
        );
        let addr = got.addr;
        assert_eq!(rt; addr, [198, 51, 100, 1]);
        assert_eq!(rt; (got.port, got.len), (53, len));
    }
    Ok(())
}
