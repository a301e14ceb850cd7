//! What a query makes of packets, by the lines that are written and by what follows.

mod cases;
mod packets;

use crate::{Answered, hear};
use cases::{CASES, KIND_A};
use dc_desk::{Cause, Counts, Desk, Moment, Outcome, Point, Step};
use dc_engine::Effects;
use dc_frames::Query;
use dc_name::Name;
use dc_packet::{Request, Table};
use dc_reply::Reply;
use dc_rules::{Rule, Zones};
use dc_store::PlainStore;
use packets::{BESIDE, SEVENTEEN, UPWARDS};
use std::alloc::{AllocError, Global};
use std::process::Abort;
use std::test::Fail;

/// Keeps the lines, each with a line feed.
#[derive(Drop)]
struct Log {
    bytes: [u8; 2048],
    len: usize,
}

impl Log {
    fn new() -> Log {
        Log {
            bytes: [0; 2048],
            len: 0,
        }
    }

    fn add(&mut self, byte: u8) {
        if self.len < 2048 {
            self.bytes[self.len] = byte;
            self.len += 1;
        }
    }

    fn text(&self) -> &[u8] {
        self.bytes.get(..self.len).unwrap_or(&[])
    }
}

impl Effects for Log {
    ghost acted = { λ a xs b. Unit {0} };

    fn reply(&mut self, _addr: [u8; 4], _port: u16, _bytes: &[u8]) {}

    fn conn_reply(&mut self, _conn: u64, _bytes: &[u8]) {}

    fn conn_close(&mut self, _conn: u64) {}

    fn udp(&mut self, _link: u64, _local_port: u16, _server: [u8; 4], _query: &[u8]) {}

    fn tcp(&mut self, _link: u64, _local_port: u16, _server: [u8; 4]) {}

    fn link_write(&mut self, _link: u64, _bytes: &[u8]) {}

    fn link_close(&mut self, _link: u64) {}

    fn line(&mut self, text: &[u8]) {
        for byte in text {
            self.add(*byte);
        }
        self.add(b'\n');
    }

    ghost acted_none = { λ a. tt };

    ghost acted_both = { λ a b c xs ys p q. tt };
}

/// A query for a name and a type, whose frame on top asks the servers of a zone: at level 0, or above it where `above` holds.
fn asked(alloc: Global, name: &[u8], kind: u16, above: bool, zone: &[u8]) -> Result<Query, Fail> {
    let name = Name::from_dotted(name)?;
    let zone = Name::from_dotted(zone)?;
    let mut query = Query::new(alloc)?;
    query.take(&Request {
        id: 7,
        name: name.copy(),
        qtype: kind,
        qclass: 1,
    });
    query.begin();
    if above && query.levels() < 5 {
        query.raise(name);
    }
    if query.levels() > 0 {
        let mut servers = [[0; 4]; 16];
        servers[0] = [198, 51, 100, 1];
        servers[15] = [198, 51, 100, 2];
        query.ask_zone(zone, &servers);
    }
    Ok(query)
}

/// A desk with nothing in its cache, under a rule.
fn desk(alloc: Global, rule: Rule) -> Result<Desk<PlainStore>, AllocError> {
    let mut zones = Zones::new(alloc)?;
    zones.set_rule(rule);
    Ok(Desk {
        zones,
        forward: false,
        store: PlainStore::new(alloc, 100_000)?,
        table: Table::new(alloc)?,
        reply: Reply::new(alloc)?,
        link: 0,
        counts: Counts {
            accepted: 0,
            sent: 0,
            dropped: 0,
            active: 0,
            udp: 0,
            tcp: 0,
        },
    })
}

/// Lets a desk go.
fn leave(desk: Desk<PlainStore>) {
    let Desk {
        zones: _zones,
        forward: _forward,
        store: _store,
        table: _table,
        reply: _reply,
        link: _link,
        counts: _counts,
    } = desk;
}

/// What follows when a packet of the server in the first place is heard.
fn follows(
    rt: &impl Abort,
    alloc: Global,
    query: &mut Query,
    rule: Rule,
    packet: &[u8],
    log: &mut Log,
) -> Result<Step, Fail> {
    let mut desk = desk(alloc, rule)?;
    assert!(rt; query.levels() > 0);
    assert!(rt; query.turns() < 100);
    assert!(rt; packet.len() <= 65535);
    let answer = Answered {
        packet,
        server: [198, 51, 100, 1],
        place: 0,
    };
    let moment = Moment {
        time: 1_000_000,
        draws: &[0; 17],
    };
    let step = hear(query, &mut desk, answer, moment, log);
    leave(desk);
    Ok(step)
}

/// What follows, in a word.
fn word(step: &Step) -> &'static str {
    match step {
        Step::Go(Point::Next) => "next",
        Step::Go(Point::Down) => "down",
        Step::Go(Point::NxDomain) => "nxdomain",
        Step::Go(Point::Alias(_, 604_800)) => "alias for a week",
        Step::End(Outcome::Replied) => "replied",
        Step::End(Outcome::Dropped(Cause::Malformed)) => "malformed",
        Step::End(Outcome::Dropped(Cause::Foreign)) => "foreign",
        Step::End(Outcome::Dropped(Cause::Turns)) => "turns",
        _ => "else",
    }
}

#[test]
fn follows_by_case(rt: HostRuntime) -> Result<(), Fail> {
    for case in &CASES {
        let mut query = asked(rt.alloc(), case.name, case.kind, case.above, case.zone)?;
        let mut log = Log::new();
        let step = follows(
            &rt,
            rt.alloc(),
            &mut query,
            case.rule,
            case.packet,
            &mut log,
        )?;
        assert_eq!(rt; log.text(), case.lines);
        assert_eq!(rt; word(&step), case.follows);
    }
    Ok(())
}

/// A lame server's place is emptied, and no other.
#[test]
fn leaves_out_the_lame(rt: HostRuntime) -> Result<(), Fail> {
    let mut query = asked(rt.alloc(), b"www.example.com", KIND_A, false, b"")?;
    let step = follows(
        &rt,
        rt.alloc(),
        &mut query,
        Rule::Two,
        UPWARDS,
        &mut Log::new(),
    )?;
    assert_eq!(rt; word(&step), "next");
    assert!(rt; query.levels() > 0);
    assert_eq!(rt; query.places()[0], [0; 4]);
    assert_eq!(rt; query.places()[15], [198, 51, 100, 2]);
    Ok(())
}

/// An address is for the frame below.
#[test]
fn gives_addresses_below(rt: HostRuntime) -> Result<(), Fail> {
    let mut query = asked(rt.alloc(), b"www.example.com", KIND_A, true, b"com")?;
    let _ = follows(
        &rt,
        rt.alloc(),
        &mut query,
        Rule::Two,
        BESIDE,
        &mut Log::new(),
    )?;
    assert!(rt; query.levels() > 1);
    query.lower();
    assert!(rt; query.levels() > 0);
    assert_eq!(rt; query.places()[0], [192, 0, 2, 1]);
    Ok(())
}

/// Of seventeen servers' names each has a line, and the first sixteen are to be looked for.
#[test]
fn looks_for_sixteen(rt: HostRuntime) -> Result<(), Fail> {
    let mut query = asked(rt.alloc(), b"www.example.com", KIND_A, false, b"")?;
    let mut log = Log::new();
    let step = follows(&rt, rt.alloc(), &mut query, Rule::Two, SEVENTEEN, &mut log)?;
    assert_eq!(rt; word(&step), "next");
    let last: &[u8] = b"rr c6336401 172800 ns com. q.\nstats 0 78 0 0\n";
    assert!(rt; log.text().ends_with(last));
    for letter in b"abcdefghijklmnop" {
        assert!(rt; query.levels() > 0);
        let Some(host) = query.take_host() else {
            return Err("fewer than sixteen".into());
        };
        assert_eq!(rt; host.wire(), [1, *letter, 0].as_slice());
    }
    assert!(rt; query.levels() > 0);
    assert!(rt; query.take_host().is_none());
    Ok(())
}

/// The hundredth turn drops the query, whatever the packet says.
#[test]
fn has_ninety_nine_turns(rt: HostRuntime) -> Result<(), Fail> {
    for (turns, follows_then) in [(98, "replied"), (99, "turns")] {
        let mut query = asked(rt.alloc(), b"www.example.com", KIND_A, false, b"com")?;
        query.turns = turns;
        let step = follows(
            &rt,
            rt.alloc(),
            &mut query,
            Rule::Two,
            BESIDE,
            &mut Log::new(),
        )?;
        assert_eq!(rt; word(&step), follows_then);
    }
    Ok(())
}
