//! Queries from their requests to their ends, by all that is written. All random words are 0: ids are 0, and of two servers the second
//! one is asked first.
ghost use Rattle.std.specs.Prelude.{◌≡◌, IsTrue};
ghost use Rattle.dc_desk.specs.declared.outcome.Outcome.TheVariants.{Replied};

mod aliases;
mod log;
mod long;
mod packets;
mod rows;
mod servers;

use crate::{Counts, Desk, Outcome, event, start};
use dc_engine::{Effects, Event, Inbox, Kind};
use dc_frames::Query;
use dc_lines::{Line, line_drop};
use dc_name::Name;
use dc_packet::{Request, Table};
use dc_reply::Reply;
use dc_rules::Zones;
use dc_store::PlainStore;
use dc_transmit::Transmit;
use log::Log;
use packets::laid;
use rows::{Rest, Row, endless, rows};
use std::alloc::{AllocError, Global};
use std::process::Abort;
use std::test::Fail;

/// The moment of requests and packets.
const NOW: u64 = 1_000_000;

/// The random words.
const DRAWS: [u32; 17] = [0; 17];

/// A desk with nothing in its cache, which knows so many servers of the root.
fn desk(alloc: Global, servers: u8) -> Result<Desk<PlainStore>, Fail> {
    let mut places = [[0; 4]; 16];
    for (i, place) in places.iter_mut().enumerate() {
        if i < usize::from(servers) {
            *place = [198, 51, 100, (i % 16) as u8 + 1];
        }
    }
    let mut zones = Zones::new(alloc)?;
    zones.add(&Name::root(), &places)?;
    Ok(Desk {
        zones,
        forward: false,
        store: PlainStore::new(alloc, 1_000_000)?,
        table: Table::new(alloc)?,
        reply: Reply::new(alloc)?,
        link: 0,
        counts: Counts {
            accepted: 0,
            sent: 0,
            dropped: 0,
            active: 0,
            udp: 0,
            tcp: 0,
        },
    })
}

/// Lets a desk go.
fn leave(desk: Desk<PlainStore>) {
    let Desk {
        zones: _zones,
        forward: _forward,
        store: _store,
        table: _table,
        reply: _reply,
        link: _link,
        counts: _counts,
    } = desk;
}

/// Writes how a turn ended. Whether the query waits.
fn ended(outcome: Outcome, reply: &mut Reply, log: &mut Log) -> bool
    requires { outcome ≡ Replied → IsTrue reply.old.begun }
{
    match outcome {
        Outcome::Waiting => true,
        Outcome::Replied => {
            log.replied(reply.finish_udp());
            false
        }
        Outcome::Dropped(cause) => {
            let mut line = Line::new();
            line_drop(&mut line, 1, cause.drop_cause());
            log.line(line.text());
            false
        }
    }
}

/// A query begins. How its first turn ends.
fn begin(
    rt: &impl Abort,
    query: &mut Query,
    sender: &mut Transmit,
    request: &Request,
    desk: &mut Desk<PlainStore>,
    log: &mut Log,
) -> Outcome
    ensures { result ≡ Replied → IsTrue desk.new.reply.begun }
{
    assert!(rt; sender.link().is_none());
    assert!(rt; desk.link < 1 << 60);
    start(query, sender, request, desk, &DRAWS, NOW, log)
}

/// An event comes. How the turn ends that follows it.
fn go_on(
    rt: &impl Abort,
    query: &mut Query,
    sender: &mut Transmit,
    inbox: &Inbox,
    desk: &mut Desk<PlainStore>,
    log: &mut Log,
) -> Outcome
    ensures { result ≡ Replied → IsTrue desk.new.reply.begun }
{
    assert!(rt; query.levels() > 0);
    assert!(rt; query.turns() < 100);
    assert!(rt; sender.link().is_some());
    assert!(rt; desk.link < 1 << 60);
    event(query, sender, desk, inbox, &DRAWS, log)
}

/// Puts an event of the query's link into an inbox, which comes from the server that was asked last.
fn set(
    rt: &impl Abort,
    inbox: &mut Inbox,
    kind: Kind,
    now: u64,
    sender: &Transmit,
    server: [u8; 4],
    bytes: &[u8],
) {
    let event = Event {
        now,
        kind,
        id: sender.link().unwrap_or(0),
        addr: server,
        port: 53,
        len: bytes.len(),
    };
    assert!(rt; event.len <= 65535);
    assert!(rt; event.now < 1 << 62);
    inbox.set(event, bytes);
}

/// Plays a script: the query begins, the packets come, and then what is left.
fn play(
    rt: &impl Abort,
    alloc: Global,
    row: &Row,
    query: &mut Query,
    desk: &mut Desk<PlainStore>,
    log: &mut Log,
) -> Result<(), Fail> {
    let mut sender = Transmit::new(alloc)?;
    let mut inbox = Inbox::new(alloc)?;
    let request = Request {
        id: 7,
        name: Name::from_dotted(row.name)?,
        qtype: row.kind,
        qclass: 1,
    };
    let first = begin(rt, query, &mut sender, &request, desk, log);
    let mut waits = ended(first, &mut desk.reply, log);
    for packet in row.packets {
        assert!(rt; waits);
        let bytes = laid(alloc, packet)?;
        set(
            rt,
            &mut inbox,
            Kind::Datagram,
            NOW,
            &sender,
            log.server,
            &bytes,
        );
        let outcome = go_on(rt, query, &mut sender, &inbox, desk, log);
        waits = ended(outcome, &mut desk.reply, log);
    }
    for _ in 0..20 {
        if waits {
            let now = sender.deadline().unwrap_or(NOW);
            let kind = match row.rest {
                Rest::Silent => Kind::Tick,
                Rest::Refused => Kind::BindRefused,
            };
            set(rt, &mut inbox, kind, now, &sender, log.server, b"");
            let outcome = go_on(rt, query, &mut sender, &inbox, desk, log);
            waits = ended(outcome, &mut desk.reply, log);
        }
    }
    assert!(rt; !waits);
    Ok(())
}

/// Plays a script, and compares what is written and the number of turns.
fn compare(rt: &impl Abort, alloc: Global, row: &Row, wanted: &[u8]) -> Result<(), Fail> {
    let mut query = Query::new(alloc)?;
    let mut log = Log::new(alloc)?;
    let mut desk = desk(alloc, row.servers)?;
    let played = play(rt, alloc, row, &mut query, &mut desk, &mut log);
    leave(desk);
    played?;
    assert_eq!(rt; log.text(), wanted);
    assert_eq!(rt; query.turns(), row.turns);
    Ok(())
}

#[test]
fn scripts(rt: HostRuntime) -> Result<(), Fail> {
    for row in rows() {
        compare(&rt, rt.alloc(), &row, row.text)?;
    }
    Ok(())
}

/// Ninety-seven looks at one name, and the hundredth turn gives the query up.
#[test]
fn hundredth_turn(rt: HostRuntime) -> Result<(), Fail> {
    let row = endless();
    let mut wanted = Vec::new(rt.alloc());
    wanted.extend_from_slice(row.text)?;
    for _ in 0..97 {
        wanted.extend_from_slice(b"cached cname n.b. n.b.\n")?;
    }
    wanted.extend_from_slice(b"drop 1 turns\n")?;
    compare(&rt, rt.alloc(), &row, &wanted)
}
