//! Messages from servers, and what they leave.

use crate::puts;
use arrayvec::ArrayVec;
use dc_engine::Effects;
use dc_name::Name;
use dc_packet::Table;
use dc_rules::{Rule, Zones};
use dc_store::{PlainStore, Store};
use std::alloc::{AllocError, Global};
use std::test::Fail;

/// Counts lines, and keeps their text, each line with a line end, while there is room.
#[derive(Drop)]
struct Lines {
    count: usize,
    text: ArrayVec<u8, 1024>,
}

impl Effects for Lines {
    ghost acted = { λ a xs b. Unit {0} };

    fn reply(&mut self, _addr: [u8; 4], _port: u16, _bytes: &[u8]) {}

    fn conn_reply(&mut self, _conn: u64, _bytes: &[u8]) {}

    fn conn_close(&mut self, _conn: u64) {}

    fn udp(&mut self, _link: u64, _local_port: u16, _server: [u8; 4], _query: &[u8]) {}

    fn tcp(&mut self, _link: u64, _local_port: u16, _server: [u8; 4]) {}

    fn link_write(&mut self, _link: u64, _bytes: &[u8]) {}

    fn link_close(&mut self, _link: u64) {}

    fn line(&mut self, text: &[u8]) {
        self.count = self.count.saturating_add(1);
        let _ = self.text.try_extend_from_slice(text);
        let _ = self.text.try_extend_from_slice(b"\n");
    }

    ghost acted_none = { λ a. tt };

    ghost acted_both = { λ a b c xs ys p q. tt };
}

/// A record: the wire form of its owner, its type, class and TTL, and its data.
type Rr<'a> = (&'a [u8], u16, u16, u32, &'a [u8]);

const A: u16 = 1;

const NS: u16 = 2;

const CNAME: u16 = 5;

const SOA: u16 = 6;

const PTR: u16 = 12;

const MX: u16 = 15;

const TXT: u16 = 16;

const AXFR: u16 = 252;

const ANY: u16 = 255;

/// A message with these records. So many are answers, and the others stand in the authority section.
fn packet(alloc: Global, answers: usize, records: &[Rr<'_>]) -> Result<Vec<u8>, AllocError> {
    let others = records.len().saturating_sub(answers);
    let counts = [0, (answers % 256) as u8, 0, (others % 256) as u8, 0, 0];
    let mut packet = Vec::new(alloc);
    packet.extend_from_slice(&[0, 0, 0x80, 0, 0, 1])?;
    packet.extend_from_slice(&counts)?;
    packet.extend_from_slice(b"\x01a\x00\x00\x01\x00\x01")?;
    for (owner, kind, class, ttl, data) in records {
        packet.extend_from_slice(owner)?;
        packet.extend_from_slice(&kind.to_be_bytes())?;
        packet.extend_from_slice(&class.to_be_bytes())?;
        packet.extend_from_slice(&ttl.to_be_bytes())?;
        packet.extend_from_slice(&[0, (data.len() % 256) as u8])?;
        packet.extend_from_slice(data)?;
    }
    Ok(packet)
}

/// What a packet from 198.51.100.1 leaves at second 1000, when a server of the control zone was asked: a store, and lines.
fn left(
    alloc: Global,
    zones: &Zones,
    control: &[u8],
    packet: &[u8],
) -> Result<(PlainStore, Lines), Fail> {
    let mut table = Table::new(alloc)?;
    let mut store = PlainStore::new(alloc, 100_000)?;
    let mut lines = Lines {
        count: 0,
        text: ArrayVec::new(),
    };
    let control = Name::from_dotted(control)?;
    if packet.len() > 65535 {
        return Err("a long packet")?;
    }
    table.read(packet)?;
    puts(
        &mut table,
        packet,
        &control,
        zones,
        [198, 51, 100, 1],
        1000,
        &mut store,
        &mut lines,
    );
    Ok((store, lines))
}

/// Whether a store has this body and TTL for a key.
fn has(store: &PlainStore, key: &[u8], body: &[u8], ttl: u32) -> bool {
    match store.get(key, 1000) {
        Some(hit) => hit.body == body && hit.ttl == ttl,
        None => false,
    }
}

/// Groups go by type, then by length and bytes of the owner in lower case. Inside a group records stand as in the packet.
#[test]
fn groups_in_order(rt: HostRuntime) -> Result<(), Fail> {
    let zones = Zones::new(rt.alloc())?;
    let packet = packet(
        rt.alloc(),
        5,
        &[
            (b"\x01b\x00", NS, 1, 5, b"\x01n\x00"),
            (b"\x02bb\x00", A, 1, 5, b"\x01\x02\x03\x04"),
            (b"\x01C\x00", A, 1, 6, b"\x09\x02\x03\x04"),
            (b"\x01b\x00", A, 1, 5, b"\x01\x02\x03\x04"),
            (b"\x01c\x00", A, 1, 5, b"\x01\x02\x03\x04"),
        ],
    )?;
    let (store, lines) = left(rt.alloc(), &zones, b"", &packet)?;
    let want =
        b"rr c6336401 5 1 b. 01020304\nrr c6336401 6 1 c. 09020304\nrr c6336401 6 1 c. 01020304\nrr c6336401 5 1 bb. 01020304\nrr c6336401 5 ns b. n.\n";
    assert_eq!(rt; lines.text.as_slice(), want.as_slice());
    assert_eq!(rt; store.motion(), 29 + 33 + 30 + 28);
    assert!(rt;
        has(
            &store,
            b"\x00\x01\x01c\x00",
            b"\x09\x02\x03\x04\x01\x02\x03\x04",
            6
        )
    );
    Ok(())
}

/// A body of 8192 bytes is kept, and one that is longer isn't.
#[test]
fn long_bodies(rt: HostRuntime) -> Result<(), Fail> {
    let zones = Zones::new(rt.alloc())?;
    for (count, motion) in [(2048u16, 8217), (2049, 0)] {
        let mut packet = Vec::new(rt.alloc());
        packet.extend_from_slice(&[0, 0, 0x80, 0, 0, 1])?;
        packet.extend_from_slice(&count.to_be_bytes())?;
        packet.extend_from_slice(b"\x00\x00\x00\x00\x01a\x00\x00\x01\x00\x01")?;
        for _ in 0..count {
            packet.extend_from_slice(
                b"\xc0\x0c\x00\x01\x00\x01\x00\x00\x00\x05\x00\x04\x01\x02\x03\x04",
            )?;
        }
        let (store, lines) = left(rt.alloc(), &zones, b"", &packet)?;
        assert_eq!(rt; lines.count, usize::from(count));
        assert_eq!(rt; store.motion(), motion);
    }
    Ok(())
}

/// A TTL over a week is cut to a week, one over 1000000000 is 0, and what has the TTL 0 isn't kept.
#[test]
fn lifetimes(rt: HostRuntime) -> Result<(), Fail> {
    let zones = Zones::new(rt.alloc())?;
    let packet = packet(
        rt.alloc(),
        3,
        &[
            (b"\x01a\x00", A, 1, 0, b"\x01\x02\x03\x04"),
            (b"\x01b\x00", A, 1, 604_801, b"\x01\x02\x03\x04"),
            (b"\x01c\x00", A, 1, 1_000_000_001, b"\x01\x02\x03\x04"),
        ],
    )?;
    let (store, lines) = left(rt.alloc(), &zones, b"", &packet)?;
    let want =
        b"rr c6336401 0 1 a. 01020304\nrr c6336401 604800 1 b. 01020304\nrr c6336401 0 1 c. 01020304\n";
    assert_eq!(rt; lines.text.as_slice(), want.as_slice());
    assert_eq!(rt; store.motion(), 29);
    assert!(rt; has(&store, b"\x00\x01\x01b\x00", b"\x01\x02\x03\x04", 604_800));
    Ok(())
}

/// A server is believed for names under its zone that no other zone of the configuration is nearer to.
#[test]
fn zones_that_are_believed(rt: HostRuntime) -> Result<(), Fail> {
    let mut zones = Zones::new(rt.alloc())?;
    let added = zones.add(&Name::from_dotted(b"b.com")?, &[[10, 0, 0, 1]; 16]);
    assert!(rt; added.is_ok());
    let packet = packet(
        rt.alloc(),
        1,
        &[
            (b"\x01a\x03com\x00", A, 1, 5, b"\x01\x02\x03\x04"),
            (
                b"\x03www\x07example\x03net\x00",
                A,
                1,
                5,
                b"\x01\x02\x03\x04",
            ),
            (b"\x03COM\x00", TXT, 1, 5, b"\x00"),
            (b"\x01a\x01B\x03com\x00", A, 1, 5, b"\x01\x02\x03\x04"),
            (b"\x00", NS, 1, 5, b"\x01n\x00"),
        ],
    )?;
    let cases: [(&[u8], &[u8], u64); 4] = [
        (
            b"com",
            b"rr c6336401 5 1 a.com. 01020304\nrr c6336401 5 16 com. 00\n",
            33 + 30,
        ),
        (b"b.com", b"rr c6336401 5 1 a.b.com. 01020304\n", 35),
        (b"net", b"rr c6336401 5 1 www.example.net. 01020304\n", 43),
        (b"org", b"", 0),
    ];
    for (control, text, motion) in cases {
        let (store, lines) = left(rt.alloc(), &zones, control, &packet)?;
        assert_eq!(rt; lines.text.as_slice(), text);
        assert_eq!(rt; store.motion(), motion);
    }
    Ok(())
}

/// Of aliases the last one is told and kept, with the TTL of the first. Of addresses those of four bytes are.
#[test]
fn aliases_and_addresses(rt: HostRuntime) -> Result<(), Fail> {
    let zones = Zones::new(rt.alloc())?;
    let packet = packet(
        rt.alloc(),
        5,
        &[
            (b"\x01a\x00", CNAME, 1, 5, b"\x01b\x00"),
            (b"\x01a\x00", CNAME, 1, 6, b"\x01c\x00"),
            (b"\x01b\x00", A, 1, 7, b"\x01\x02\x03\x04\x05"),
            (b"\x01c\x00", A, 1, 8, b"\x01\x02\x03"),
            (b"\x01c\x00", A, 1, 9, b"\x01\x02\x03\x04"),
        ],
    )?;
    let (store, lines) = left(rt.alloc(), &zones, b"", &packet)?;
    let want = b"rr c6336401 8 1 c. 01020304\nrr c6336401 5 cname a. c.\n";
    assert_eq!(rt; lines.text.as_slice(), want.as_slice());
    assert_eq!(rt; store.motion(), 25 + 29 + 28);
    assert!(rt; has(&store, b"\x00\x05\x01a\x00", b"\x01c\x00", 5));
    assert!(rt; has(&store, b"\x00\x01\x01b\x00", b"", 7));
    assert!(rt; has(&store, b"\x00\x01\x01c\x00", b"\x01\x02\x03\x04", 8));
    Ok(())
}

/// The names `a.test` and `b.test`, and the numbers 1 to 5.
const START: &[u8] =
    b"\x01a\x04test\x00\x01b\x04test\x00\x00\x00\x00\x01\x00\x00\x00\x02\x00\x00\x00\x03\x00\x00\x00\x04\x00\x00\x00\x05";

/// SOA records of the answer section are told, and under rule Two they are kept.
#[test]
fn starts_of_authority(rt: HostRuntime) -> Result<(), Fail> {
    // how many of the two records are answers
    for (rule, answers, count, motion) in [
        (Rule::One, 1, 1, 0),
        (Rule::Two, 1, 1, 64),
        (Rule::Two, 2, 2, 100),
        (Rule::Two, 0, 0, 0),
    ] {
        let mut zones = Zones::new(rt.alloc())?;
        zones.set_rule(rule);
        let packet = packet(
            rt.alloc(),
            answers,
            &[
                (b"\x04test\x00", SOA, 1, 500, START),
                (b"\x04TEST\x00", SOA, 1, 500, START),
            ],
        )?;
        let (store, lines) = left(rt.alloc(), &zones, b"", &packet)?;
        let text = b"rr c6336401 500 soa test. a.test. b.test. 1 2 3 4 5\n";
        assert_eq!(rt; lines.count, count);
        assert!(rt; count == 0 || lines.text.as_slice().starts_with(text));
        assert_eq!(rt; store.motion(), motion);
        let kept = has(&store, b"\x00\x06\x04test\x00", START, 500);
        assert_eq!(rt; kept, motion == 64);
    }
    Ok(())
}

/// The other types, by their bodies. ANY, AXFR and other classes leave nothing.
#[test]
fn other_types(rt: HostRuntime) -> Result<(), Fail> {
    let zones = Zones::new(rt.alloc())?;
    let packet = packet(
        rt.alloc(),
        8,
        &[
            (b"\x01a\x00", TXT, 1, 5, b"\x02hi"),
            (b"\x01a\x00", ANY, 1, 5, b""),
            (b"\x01a\x00", AXFR, 1, 5, b"x"),
            (b"\x01a\x00", MX, 1, 5, b"\x00\x0a\x01M\x00"),
            (b"\x01a\x00", A, 3, 5, b"\x01\x02\x03\x04"),
            (b"\x01a\x00", PTR, 1, 5, b"\x01p\x00"),
            (b"\x01a\x00", NS, 1, 5, b"\x01n\x00"),
            (b"\x01a\x00", NS, 1, 5, b"\x01m\x00"),
        ],
    )?;
    let (store, lines) = left(rt.alloc(), &zones, b"", &packet)?;
    let want =
        b"rr c6336401 5 ns a. n.\nrr c6336401 5 ns a. m.\nrr c6336401 5 ptr a. p.\nrr c6336401 5 mx a. m. 10\nrr c6336401 5 16 a. 026869\n";
    assert_eq!(rt; lines.text.as_slice(), want.as_slice());
    assert_eq!(rt; store.motion(), 31 + 28 + 30 + 30);
    assert!(rt; has(&store, b"\x00\x02\x01a\x00", b"\x01n\x00\x01m\x00", 5));
    assert!(rt; has(&store, b"\x00\x0c\x01a\x00", b"\x01p\x00", 5));
    assert!(rt; has(&store, b"\x00\x0f\x01a\x00", b"\x00\x0a\x01M\x00", 5));
    assert!(rt; has(&store, b"\x00\x10\x01a\x00", b"\x00\x03\x02hi", 5));
    Ok(())
}
