//! Replies that are long, and too long.

use super::log::Log;
use super::packets::{MX, Record, TXT, front, put_record};
use super::{NOW, begin, desk, go_on, leave, set};
use crate::{Cause, Desk, Outcome};
use dc_engine::{Inbox, Kind};
use dc_frames::Query;
use dc_name::Name;
use dc_packet::{Request, Section};
use dc_store::{PlainStore, Store};
use dc_transmit::Transmit;
use std::alloc::{AllocError, Global};
use std::process::Abort;
use std::test::Fail;

/// The request for texts of `www.example.com`.
fn texts() -> Result<Request, Fail> {
    Ok(Request {
        id: 7,
        name: Name::from_dotted(b"www.example.com")?,
        qtype: TXT,
        qclass: 1,
    })
}

/// How many bytes the reply has, over UDP and in a stream with its length before it, where the cache has a text of so many bytes; and
/// the flags over UDP.
fn text_of(
    rt: &impl Abort,
    alloc: Global,
    len: u16,
    desk: &mut Desk<PlainStore>,
) -> Result<(usize, u8, usize), Fail> {
    let mut sender = Transmit::new(alloc)?;
    let mut query = Query::new(alloc)?;
    let mut log = Log::new(alloc)?;
    let mut body = vec![in alloc; 0u8; usize::from(len)]?;
    body.insert(0, (len % 256) as u8)?;
    body.insert(0, (len / 256) as u8)?;
    let key = b"\x00\x10\x03www\x07example\x03com\x00";
    desk.store.put(key, &body, 100, NOW / 1000);
    let request = texts()?;
    let mut lens = (0, 0, 0);
    if begin(rt, &mut query, &mut sender, &request, desk, &mut log) == Outcome::Replied {
        let message = desk.reply.finish_udp();
        lens.0 = message.len();
        lens.1 = message.get(2).copied().unwrap_or(0);
    }
    if begin(rt, &mut query, &mut sender, &request, desk, &mut log) == Outcome::Replied {
        lens.2 = desk.reply.finish_tcp().len();
    }
    assert_eq!(rt;
        log.text(),
        b"cached 16 www.example.com.\ncached 16 www.example.com.\n".as_slice()
    );
    Ok(lens)
}

/// A reply of 512 bytes is whole over UDP, and one of 513 is cut.
#[test]
fn cut_over_udp(rt: HostRuntime) -> Result<(), Fail> {
    for (len, wanted) in [(467, (512, 0x81, 514)), (468, (33, 0x83, 515))] {
        let mut desk = desk(rt.alloc(), 1)?;
        let lens = text_of(&rt, rt.alloc(), len, &mut desk);
        leave(desk);
        assert!(rt; lens? == wanted);
    }
    Ok(())
}

/// Four thousand mail exchangers of `a`, of which each has the same name of 255 bytes.
fn exchangers(alloc: Global) -> Result<Vec<u8>, AllocError> {
    let mut host = vec![in alloc; b'x'; 257]?;
    for (at, byte) in [
        (0, 0),
        (1, 10),
        (2, 63),
        (66, 63),
        (130, 63),
        (194, 61),
        (256, 0),
    ] {
        if let Some(place) = host.get_mut(at) {
            *place = byte;
        }
    }
    let mut bytes = front(alloc, [0x80, 0], [4000, 0, 0], b"\x01a\x00", MX)?;
    put_record(
        &mut bytes,
        &Record(Section::Answer, b"\xc0\x0c", MX, 60, &host),
    )?;
    let pointing = Record(Section::Answer, b"\xc0\x0c", MX, 60, b"\x00\x0a\xc0\x21");
    for _ in 1..4000 {
        put_record(&mut bytes, &pointing)?;
    }
    Ok(bytes)
}

/// How a query ends that is told of these exchangers over TCP.
fn told_of(
    rt: &impl Abort,
    alloc: Global,
    desk: &mut Desk<PlainStore>,
    log: &mut Log,
) -> Result<Outcome, Fail> {
    let mut sender = Transmit::new(alloc)?;
    let mut inbox = Inbox::new(alloc)?;
    let mut query = Query::new(alloc)?;
    let request = Request {
        id: 7,
        name: Name::from_dotted(b"a")?,
        qtype: MX,
        qclass: 1,
    };
    let cut = front(alloc, [0x82, 0], [0, 0, 0], b"\x01a\x00", MX)?;
    let message = exchangers(alloc)?;
    let mut stream = Vec::new(alloc);
    stream.extend_from_slice(&u16::try_from(message.len()).unwrap_or(0).to_be_bytes())?;
    stream.extend_from_slice(&message)?;
    let mut outcome = begin(rt, &mut query, &mut sender, &request, desk, log);
    let events: [(Kind, &[u8]); 3] = [
        (Kind::Datagram, &cut),
        (Kind::LinkUp, b""),
        (Kind::LinkBytes, &stream),
    ];
    for (kind, bytes) in events {
        assert!(rt; outcome == Outcome::Waiting);
        set(rt, &mut inbox, kind, NOW, &sender, log.server, bytes);
        outcome = go_on(rt, &mut query, &mut sender, &inbox, desk, log);
    }
    Ok(outcome)
}

/// An answer that would pass 65535 bytes is given up, with all its records told of.
#[test]
fn too_long(rt: HostRuntime) -> Result<(), Fail> {
    let mut log = Log::new(rt.alloc())?;
    let mut desk = desk(rt.alloc(), 1)?;
    let outcome = told_of(&rt, rt.alloc(), &mut desk, &mut log);
    leave(desk);
    assert_eq!(rt; outcome?, Outcome::Dropped(Cause::TooLong));
    assert!(rt;
        log.text().starts_with(
            b"tx 0 15 a. . c6336401\nudp 1\nclose 1\ntcp 2\nwrite 2\nclose 2\nrr c6336401 60 mx a. "
        )
    );
    assert_eq!(rt; log.lines, 4007);
    Ok(())
}
