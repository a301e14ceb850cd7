//! Good and bad heads of scripts, read whole and byte by byte.
ghost use Rattle.std.specs.Prelude.{◌≤◌};

use crate::{Script, ScriptError, ScriptWorld, read_head};
use dc_event::{Heard, Inbox, MemorySource, QuietSink, QuietSource, Source, World};
use std::alloc::{AllocError, Global};
use std::test::Fail;

/// A head, line by line.
const HEAD: &str = "dnscache-script 1
cachesize 5
forwardonly no
allow 127
zone @ 198.51.100.1
zone example.com 10.0.0.1 10.0.0.2
seed 000102030405060708090a0b0c0d0e0f101112131415161718191a1b1c1d1eff
begin";

/// A line of the head, counted from 0, another in its place, and the head's lines, version and cache size then.
const GOOD: [(usize, &str, [u64; 3]); 9] = [
    (0, "dnscache-script 1", [8, 1, 100]),
    (0, "dnscache-script 2", [8, 2, 100]),
    (1, "cachesize 0", [8, 1, 100]),
    (1, "cachesize 18446744073709551615", [8, 1, 1_000_000_000]),
    (2, "forwardonly yes", [8, 1, 100]),
    (3, "allow 10.0.0.1\nallow 10.0.0.1\nallow 1", [10, 1, 100]),
    (
        4,
        "zone @ 1.1.1.1 2.2.2.2 3.3.3.3 4.4.4.4 5.5.5.5 6.6.6.6 7.7.7.7 8.8.8.8 9.9.9.9 10.10.10.10 11.11.11.11 12.12.12.12 13.13.13.13 14.14.14.14 15.15.15.15 16.16.16.16",
        [8, 1, 100],
    ),
    (5, "zone example.com.", [8, 1, 100]),
    (5, "zone a 10.0.0.1\nzone b.a", [9, 1, 100]),
];

/// A line of the head, counted from 0, another in its place, and the number of the first bad line then.
const BAD: [(usize, &str, u64); 41] = [
    (0, "dnscache-script 3", 1),
    (0, "dnscache-script 01", 1),
    (0, "dnscache-script", 1),
    (0, " dnscache-script 1", 1),
    (0, "cachesize 5", 1),
    (1, "cachesize 05", 2),
    (1, "cachesize 18446744073709551616", 2),
    (1, "cachesize 5 ", 2),
    (1, "cachesize  5", 2),
    (1, "cachesize -", 2),
    (1, "forwardonly no", 2),
    (2, "forwardonly maybe", 3),
    (2, "forwardonly", 3),
    (2, "allow 127", 3),
    (3, "allow 256", 4),
    (3, "allow 01", 4),
    (3, "allow 1.2.3.4.5", 4),
    (3, "allow ", 4),
    (3, "allow 127 128", 4),
    (3, "zone example.com 10.0.0.1", 4),
    (4, "zone @", 5),
    (4, "zone @ 0.0.0.0", 5),
    (4, "zone @ 10.0.0.1 0.0.0.0", 5),
    (4, "zone . 10.0.0.1", 5),
    (
        4,
        "zone @ 1.1.1.1 2.2.2.2 3.3.3.3 4.4.4.4 5.5.5.5 6.6.6.6 7.7.7.7 8.8.8.8 9.9.9.9 10.10.10.10 11.11.11.11 12.12.12.12 13.13.13.13 14.14.14.14 15.15.15.15 16.16.16.16 17.17.17.17",
        5,
    ),
    (4, "begin", 5),
    (5, "zone @ 10.0.0.1", 6),
    (5, "zone . 10.0.0.1", 6),
    (5, "zone  10.0.0.1", 6),
    (5, "zone a..b 10.0.0.1", 6),
    (5, "zone b 10.0.0.01", 6),
    (5, "zone b 10.0.0.1 ", 6),
    (5, "zone a\nzone A", 7),
    (5, "allow 127", 6),
    (6, "seed 00", 7),
    (6, "seed -", 7),
    (
        6,
        "seed 000102030405060708090A0B0C0D0E0F101112131415161718191A1B1C1D1EFF",
        7,
    ),
    (6, "begin", 7),
    (7, "begin ", 8),
    (7, "end", 8),
    (7, "at 5 tick", 8),
];

/// The head with another line in the place of one.
fn with_line(alloc: Global, place: usize, line: &str) -> Result<Vec<u8>, AllocError> {
    let mut text = Vec::new(alloc);
    for (at, old) in HEAD.lines().enumerate() {
        let said = if at == place { line } else { old };
        text.extend_from_slice(said.as_bytes())?;
        text.push(b'\n')?;
    }
    Ok(text)
}

/// The lines, version and cache size of the head that a text begins with, read so many bytes at a time.
fn read(alloc: Global, text: Vec<u8>, piece: usize) -> Result<[u64; 3], ScriptError>
    requires { 1 ≤ piece }
{
    let mut source = MemorySource::new(text, piece, Vec::new(alloc));
    let script = read_head(alloc, &mut source)?;
    Ok([script.lines, script.version, script.config.size.into()])
}

/// The same of the head with another line in the place of one, read byte by byte and whole.
fn read_both(
    alloc: Global,
    place: usize,
    line: &str,
) -> Result<[Result<[u64; 3], ScriptError>; 2], AllocError> {
    let bytes = read(alloc, with_line(alloc, place, line)?, 1);
    let whole = read(alloc, with_line(alloc, place, line)?, 4096);
    Ok([bytes, whole])
}

#[test]
fn good_heads(rt: HostRuntime) -> Result<(), Fail> {
    for (place, line, wanted) in GOOD {
        let got = read_both(rt.alloc(), place, line)?;
        assert_eq!(rt; got, [Ok(wanted), Ok(wanted)], "{line}");
    }
    Ok(())
}

#[test]
fn bad_heads(rt: HostRuntime) -> Result<(), Fail> {
    for (place, line, number) in BAD {
        let got = read_both(rt.alloc(), place, line)?;
        let wanted = ScriptError::Bad { line: number };
        assert_eq!(rt; got, [Err(wanted), Err(wanted)], "{line}");
    }
    Ok(())
}

/// A head that stops in mid-line: the bad line is the one that isn't complete.
#[test]
fn cut_heads(rt: HostRuntime) -> Result<(), Fail> {
    let alloc = rt.alloc();
    let whole = with_line(alloc, 8, "")?;
    let mut line: u64 = 1;
    for (at, byte) in whole.iter().enumerate() {
        let text = whole[..at].to_vec(alloc)?;
        assert_eq!(rt; read(alloc, text, 7), Err(ScriptError::Bad { line }));
        if *byte == b'\n' {
            line = line.saturating_add(1);
        }
    }
    Ok(())
}

/// What a head says, and the events behind it.
#[test]
fn events_behind(rt: HostRuntime) -> Result<(), Fail> {
    let alloc = rt.alloc();
    let mut text = with_line(alloc, 0, "dnscache-script 2")?;
    text.extend_from_slice(b"at 5 tick\nat 6 tock\n")?;
    let mut source = QuietSource::new(text);
    let Ok(script) = read_head(alloc, &mut source) else {
        return Err(Fail::from("a head"));
    };
    let Script {
        config,
        seed,
        lines,
        version,
        rest,
    } = script;
    assert_eq!(rt; (lines, version, seed[31]), (8, 2, 255));
    assert_eq!(rt;
        (config.size, config.forward, config.ip, config.ipsend),
        (100, false, [0; 4], [0; 4])
    );
    assert!(rt; config.permit.allows([127, 0, 0, 1]));
    assert!(rt; !config.permit.allows([10, 0, 0, 1]));
    let mut world = ScriptWorld::new(alloc, rest, lines, source, QuietSink::new(alloc, 8)?)?;
    let mut inbox = Inbox::new(alloc)?;
    assert_eq!(rt; world.next(None, &mut inbox), Heard::Event);
    assert_eq!(rt; world.next(None, &mut inbox), Heard::Bad { line: 10 });
    Ok(())
}

/// A read that fails in the head.
#[test]
fn failed_read_in_head(rt: HostRuntime) -> Result<(), Fail> {
    let alloc = rt.alloc();
    let text = with_line(alloc, 8, "")?;
    let mut source = MemorySource::new(text, 20, [3u64].to_vec(alloc)?);
    assert!(rt; matches!(read_head(alloc, &mut source), Err(ScriptError::ReadFault)));
    assert_eq!(rt; source.faults(), 1);
    Ok(())
}
