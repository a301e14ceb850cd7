//! Looks at names at the second 1000, over a store with what is kept for 300 seconds from the second 900 on.
ghost use Rattle.std.specs.Prelude.{◌≡◌, ◌<◌, length, IfOk, IsTrue};
ghost use Rattle.dc_frames.specs.View.{query_of};

use crate::look;
use dc_desk::{Cause, Counts, Desk, Moment, Outcome, Point, Step};
use dc_engine::Effects;
use dc_frames::Query;
use dc_name::Name;
use dc_packet::{Request, Table};
use dc_reply::Reply;
use dc_rules::{Rule, Zones};
use dc_store::{PlainStore, Store};
use std::alloc::{AllocError, Global};
use std::process::Abort;
use std::test::Fail;

/// Keeps lines, and counts them.
#[derive(Drop)]
struct Lines {
    count: usize,
    lens: [usize; 8],
    texts: [[u8; 48]; 8],
}

impl Lines {
    fn new() -> Lines {
        Lines {
            count: 0,
            lens: [0; 8],
            texts: [[0; 48]; 8],
        }
    }

    /// Whether these are the first lines, and all.
    fn are(&self, wanted: &[&[u8]]) -> bool {
        if self.count != wanted.len() {
            return false;
        }
        for (i, text) in wanted.iter().enumerate() {
            if i >= 8 || self.lens[i] != text.len() || !self.texts[i].starts_with(text) {
                return false;
            }
        }
        true
    }
}

impl Effects for Lines {
    ghost acted = { λ a xs b. Unit {0} };

    fn reply(&mut self, _addr: [u8; 4], _port: u16, _bytes: &[u8]) {}

    fn conn_reply(&mut self, _conn: u64, _bytes: &[u8]) {}

    fn conn_close(&mut self, _conn: u64) {}

    fn udp(&mut self, _link: u64, _local_port: u16, _server: [u8; 4], _query: &[u8]) {}

    fn tcp(&mut self, _link: u64, _local_port: u16, _server: [u8; 4]) {}

    fn link_write(&mut self, _link: u64, _bytes: &[u8]) {}

    fn link_close(&mut self, _link: u64) {}

    fn line(&mut self, text: &[u8]) {
        if self.count < 8 && text.len() <= 48 {
            self.texts[self.count][..text.len()].copy_from_slice(text);
            self.lens[self.count] = text.len();
        }
        self.count = self.count.saturating_add(1);
    }

    ghost acted_none = { λ a. tt };

    ghost acted_both = { λ a b c xs ys p q. tt };
}

/// What follows a look.
#[derive(Clone, Copy, Debug, PartialEq, Eq)]
enum Then {
    Next,
    Down,
    NxDomain,
    Alias(u32),
    Replied,
    Turns,
    Other,
}

/// A desk with the root's server 198.41.0.4, and these keys and bodies in its store.
fn desk(
    alloc: Global,
    rule: Rule,
    forward: bool,
    kept: &[(&[u8], &[u8])],
) -> Result<Desk<PlainStore>, Fail> {
    let mut zones = Zones::new(alloc)?;
    zones.set_rule(rule);
    let mut servers = [[0; 4]; 16];
    servers[1] = [198, 41, 0, 4];
    zones.add(&Name::root(), &servers)?;
    let mut store = PlainStore::new(alloc, 100_000)?;
    for (key, body) in kept {
        store.put(key, body, 300, 900);
    }
    Ok(Desk {
        zones,
        forward,
        store,
        table: Table::new(alloc)?,
        reply: Reply::new(alloc)?,
        link: 0,
        counts: Counts {
            accepted: 0,
            sent: 0,
            dropped: 0,
            active: 0,
            udp: 0,
            tcp: 0,
        },
    })
}

/// Lets go of a desk.
fn leave(desk: Desk<PlainStore>) {
    let Desk {
        zones: _,
        forward: _,
        store: _,
        table: _,
        reply: _,
        link: _,
        counts: _,
    } = desk;
}

/// A query of id 7 that begins.
fn asked(alloc: Global, name: Name, qtype: u16) -> Result<Query, AllocError>
    ensures frame { IfOk result (λ q. length (query_of q).frames ≡ 1) }
    ensures turns { IfOk result (λ q. (query_of q).turns ≡ 0) }
{
    let mut query = Query::new(alloc)?;
    query.take(&Request {
        id: 7,
        name,
        qtype,
        qclass: 1,
    });
    query.begin();
    Ok(query)
}

/// The query had so many turns.
#[tactic(auto, unfolding(dc_frames::specs::View::query_of))]
fn set_turns(query: &mut Query, turns: u32)
    ensures frames { (query_of query.new).frames ≡ (query_of query.old).frames }
    ensures turns { (query_of query.new).turns ≡ turns }
{
    query.turns = turns;
}

/// Looks, and answers what follows.
fn looked(query: &mut Query, desk: &mut Desk<PlainStore>, out: &mut Lines) -> Then
    requires some { 0 < length (query_of query.old).frames }
    requires turns { (query_of query.old).turns < 100 }
    ensures { result ≡ Then.Replied → IsTrue desk.new.reply.begun }
{
    let moment = Moment {
        time: 1_000_000,
        draws: &[0; 17],
    };
    match look(query, desk, moment, out) {
        Step::Go(Point::Next) => Then::Next,
        Step::Go(Point::Down) => Then::Down,
        Step::Go(Point::NxDomain) => Then::NxDomain,
        Step::Go(Point::Alias(_, ttl)) => Then::Alias(ttl),
        Step::End(Outcome::Replied) => Then::Replied,
        Step::End(Outcome::Dropped(Cause::Turns)) => Then::Turns,
        _ => Then::Other,
    }
}

/// Looks at a name with these keys and bodies kept: what follows, the lines, and the reply.
#[derive(Drop)]
struct Case<'a> {
    name: &'a [u8],
    qtype: u16,
    kept: &'a [(&'a [u8], &'a [u8])],
    then: Then,
    lines: &'a [&'a [u8]],
    reply: &'a [u8],
}

/// Looks at each name at level 0.
fn run<R: Abort>(rt: &R, alloc: Global, rule: Rule, cases: &[Case<'_>]) -> Result<(), Fail> {
    for case in cases {
        let mut query = asked(alloc, Name::from_dotted(case.name)?, case.qtype)?;
        let mut desk = desk(alloc, rule, false, case.kept)?;
        let mut lines = Lines::new();
        let then = looked(&mut query, &mut desk, &mut lines);
        assert_eq!(rt; then, case.then);
        assert!(rt; lines.are(case.lines));
        if let Then::Replied = then {
            assert_eq!(rt; desk.reply.finish_udp(), case.reply);
        }
        leave(desk);
    }
    Ok(())
}

/// What is built in is answered without a line.
#[test]
fn built_in(rt: HostRuntime) -> Result<(), Fail> {
    let cases = [
        Case {
            name: b"localhost",
            qtype: 1,
            kept: &[],
            then: Then::Replied,
            lines: &[],
            reply: b"\x00\x07\x81\x80\x00\x01\x00\x01\x00\x00\x00\x00\x09localhost\x00\x00\x01\x00\x01\xc0\x0c\x00\x01\x00\x01\x00\x0a\x00\x00\x00\x04\x7f\x00\x00\x01",
        },
        Case {
            name: b"LocalHost",
            qtype: 15,
            kept: &[],
            then: Then::Replied,
            lines: &[],
            reply: b"\x00\x07\x81\x80\x00\x01\x00\x00\x00\x00\x00\x00\x09LocalHost\x00\x00\x0f\x00\x01",
        },
        Case {
            name: b"192.0.2.7",
            qtype: 255,
            kept: &[],
            then: Then::Replied,
            lines: &[],
            reply: b"\x00\x07\x81\x80\x00\x01\x00\x01\x00\x00\x00\x00\x03192\x010\x012\x017\x00\x00\xff\x00\x01\xc0\x0c\x00\x01\x00\x01\x00\x0a\x00\x00\x00\x04\xc0\x00\x02\x07",
        },
        Case {
            name: b"1.0.0.127.in-addr.arpa",
            qtype: 12,
            kept: &[],
            then: Then::Replied,
            lines: &[],
            reply: b"\x00\x07\x81\x80\x00\x01\x00\x01\x00\x00\x00\x00\x011\x010\x010\x03127\x07in-addr\x04arpa\x00\x00\x0c\x00\x01\xc0\x0c\x00\x0c\x00\x01\x00\x0a\x00\x00\x00\x0b\x09localhost\x00",
        },
    ];
    run(&rt, rt.alloc(), Rule::Two, &cases)
}

/// An empty body of type ANY, and a CNAME for `b`, under keys of `a`.
const MISSING: (&[u8], &[u8]) = (b"\x00\xff\x01a\x00", b"");

const ALIAS: (&[u8], &[u8]) = (b"\x00\x05\x01a\x00", b"\x01b\x00");

/// What the cache knows of the name, in the order of the rules.
#[test]
fn cached(rt: HostRuntime) -> Result<(), Fail> {
    let cases = [
        Case {
            name: b"A",
            qtype: 1,
            kept: &[MISSING, ALIAS],
            then: Then::NxDomain,
            lines: &[b"cached nxdomain a."],
            reply: b"",
        },
        Case {
            name: b"A",
            qtype: 1,
            kept: &[(b"\x00\x01\x01a\x00", b"\xc0\x00\x02\x01"), ALIAS],
            then: Then::Alias(200),
            lines: &[b"cached cname a. b."],
            reply: b"",
        },
        Case {
            name: b"a",
            qtype: 5,
            kept: &[ALIAS],
            then: Then::Replied,
            lines: &[b"cached 5 a."],
            reply: b"\x00\x07\x81\x80\x00\x01\x00\x01\x00\x00\x00\x00\x01a\x00\x00\x05\x00\x01\xc0\x0c\x00\x05\x00\x01\x00\x00\x00\xc8\x00\x03\x01b\x00",
        },
        Case {
            name: b"a",
            qtype: 255,
            kept: &[
                (b"\x00\x01\x01a\x00", b"\xc0\x00\x02\x01"),
                (b"\x00\x0f\x01a\x00", b"\x00\x05\x01b\x00"),
                (b"\x00\x02\x01a\x00", b""),
            ],
            then: Then::Replied,
            lines: &[b"cached 15 a."],
            reply: b"\x00\x07\x81\x80\x00\x01\x00\x01\x00\x00\x00\x00\x01a\x00\x00\xff\x00\x01\xc0\x0c\x00\x0f\x00\x01\x00\x00\x00\xc8\x00\x05\x00\x05\x01b\x00",
        },
        Case {
            name: b"a",
            qtype: 15,
            kept: &[(b"\x00\x0f\x01a\x00", b"")],
            then: Then::Replied,
            lines: &[b"cached 15 a."],
            reply: b"\x00\x07\x81\x80\x00\x01\x00\x00\x00\x00\x00\x00\x01a\x00\x00\x0f\x00\x01",
        },
        Case {
            name: b"a",
            qtype: 6,
            kept: &[(
                b"\x00\x06\x01a\x00",
                b"\x01b\x00\x01c\x00\x00\x00\x00\x01\x00\x00\x00\x02\x00\x00\x00\x03\x00\x00\x00\x04\x00\x00\x00\x05",
            )],
            then: Then::Replied,
            lines: &[b"cached 6 a."],
            reply: b"\x00\x07\x81\x80\x00\x01\x00\x01\x00\x00\x00\x00\x01a\x00\x00\x06\x00\x01\xc0\x0c\x00\x06\x00\x01\x00\x00\x00\xc8\x00\x1a\x01b\x00\x01c\x00\x00\x00\x00\x01\x00\x00\x00\x02\x00\x00\x00\x03\x00\x00\x00\x04\x00\x00\x00\x05",
        },
        Case {
            name: b"a",
            qtype: 16,
            kept: &[(b"\x00\x10\x01a\x00", b"\x00\x02hi")],
            then: Then::Replied,
            lines: &[b"cached 16 a."],
            reply: b"\x00\x07\x81\x80\x00\x01\x00\x01\x00\x00\x00\x00\x01a\x00\x00\x10\x00\x01\xc0\x0c\x00\x10\x00\x01\x00\x00\x00\xc8\x00\x02hi",
        },
        Case {
            name: b"a.B",
            qtype: 16,
            kept: &[(b"\x00\x02\x01b\x00", b"\x01n\x00\x01M\x00")],
            then: Then::Next,
            lines: &[b"cached ns b. n.", b"cached ns b. m."],
            reply: b"",
        },
    ];
    run(&rt, rt.alloc(), Rule::Two, &cases)
}

/// Under rule One a body of type SOA has bytes behind their length, as of types without a rule.
#[test]
fn rule_one(rt: HostRuntime) -> Result<(), Fail> {
    let cases = [Case {
        name: b"a",
        qtype: 6,
        kept: &[(b"\x00\x06\x01a\x00", b"\x00\x02hi")],
        then: Then::Replied,
        lines: &[b"cached 6 a."],
        reply: b"\x00\x07\x81\x80\x00\x01\x00\x01\x00\x00\x00\x00\x01a\x00\x00\x06\x00\x01\xc0\x0c\x00\x06\x00\x01\x00\x00\x00\xc8\x00\x02hi",
    }];
    run(&rt, rt.alloc(), Rule::One, &cases)
}

const ADDRESS: (&[u8], &[u8]) = (b"\x00\x01\x01a\x00", b"\x05\x00\x02\x01\x06");

const NO_ADDRESS: (&[u8], &[u8]) = (b"\x00\x01\x01a\x00", b"");

const EXCHANGE: (&[u8], &[u8]) = (b"\x00\x0f\x01a\x00", b"\x00\x05\x01b\x00");

/// Looks at a name above level 0: what follows, and the first octet of the first address that the frame below then has.
#[derive(Drop)]
struct Above<'a> {
    name: &'a [u8],
    kept: &'a [(&'a [u8], &'a [u8])],
    then: Then,
    first: u8,
}

/// Looks at each name at level 1, where the client wants CNAME.
fn run_above<R: Abort>(rt: &R, alloc: Global, cases: &[Above<'_>]) -> Result<(), Fail> {
    for case in cases {
        let mut query = asked(alloc, Name::root(), 5)?;
        query.raise(Name::from_dotted(case.name)?);
        let mut desk = desk(alloc, Rule::Two, false, case.kept)?;
        let mut lines = Lines::new();
        let then = looked(&mut query, &mut desk, &mut lines);
        leave(desk);
        assert_eq!(rt; then, case.then);
        if query.levels() > 1 {
            query.lower();
            if query.levels() > 0 {
                assert_eq!(rt; query.places()[0][0], case.first);
            }
        }
    }
    Ok(())
}

/// Above level 0 addresses go to the frame below, whatever the client wants.
#[test]
fn above_level_zero(rt: HostRuntime) -> Result<(), Fail> {
    let cases = [
        Above {
            name: b"localhost",
            kept: &[NO_ADDRESS],
            then: Then::Down,
            first: 127,
        },
        Above {
            name: b"9.0.2.7",
            kept: &[NO_ADDRESS],
            then: Then::Down,
            first: 9,
        },
        Above {
            name: b"1.0.0.127.in-addr.arpa",
            kept: &[NO_ADDRESS],
            then: Then::Down,
            first: 0,
        },
        Above {
            name: b"a",
            kept: &[ADDRESS],
            then: Then::Down,
            first: 5,
        },
        Above {
            name: b"a",
            kept: &[NO_ADDRESS],
            then: Then::Down,
            first: 0,
        },
        Above {
            name: b"a",
            kept: &[EXCHANGE, ALIAS],
            then: Then::Alias(200),
            first: 0,
        },
    ];
    run_above(&rt, rt.alloc(), &cases)
}

/// A body with seventeen servers' names, all the root.
const SEVENTEEN: &[u8] = &[0; 17];

/// A query that looks for `a` at a level up to 2.
fn asked_at(alloc: Global, level: usize) -> Result<Query, Fail>
    ensures frame { IfOk result (λ q. 0 < length (query_of q).frames) }
    ensures turns { IfOk result (λ q. (query_of q).turns ≡ 0) }
{
    let mut query = asked(alloc, Name::from_dotted(b"a")?, 1)?;
    if level == 0 {
        return Ok(query);
    }
    query.raise(Name::from_dotted(b"a")?);
    if level == 1 {
        return Ok(query);
    }
    query.raise(Name::from_dotted(b"a")?);
    Ok(query)
}

/// How many servers' names are to be looked for, up to 20.
fn hosts(query: &mut Query) -> usize {
    let mut taken: usize = 0;
    for _ in 0..20 {
        if query.levels() > 0 && query.take_host().is_some() {
            taken = taken.saturating_add(1);
        }
    }
    taken
}

/// The first sixteen of cached servers are looked for, but none while forwarding, and none at level 2.
#[test]
fn servers(rt: HostRuntime) -> Result<(), Fail> {
    let cases: [(bool, usize, usize, usize); 4] = [
        (false, 0, 17, 16),
        (false, 1, 17, 16),
        (false, 2, 0, 0),
        (true, 0, 0, 0),
    ];
    let kept: [(&[u8], &[u8]); 1] = [(b"\x00\x02\x01a\x00", SEVENTEEN)];
    for (forward, level, told, wanted) in cases {
        let mut query = asked_at(rt.alloc(), level)?;
        let mut desk = desk(rt.alloc(), Rule::Two, forward, &kept)?;
        let mut lines = Lines::new();
        let then = looked(&mut query, &mut desk, &mut lines);
        leave(desk);
        assert_eq!(rt; then, Then::Next);
        assert_eq!(rt; lines.count, told);
        assert_eq!(rt; hosts(&mut query), wanted);
    }
    Ok(())
}

/// The hundredth turn drops the query.
#[test]
fn turns(rt: HostRuntime) -> Result<(), Fail> {
    for (turns, then) in [(98, Then::Next), (99, Then::Turns)] {
        let mut query = asked(rt.alloc(), Name::from_dotted(b"a")?, 1)?;
        set_turns(&mut query, turns);
        let mut desk = desk(rt.alloc(), Rule::Two, false, &[])?;
        let mut lines = Lines::new();
        let follows = looked(&mut query, &mut desk, &mut lines);
        leave(desk);
        assert_eq!(rt; follows, then);
    }
    Ok(())
}
