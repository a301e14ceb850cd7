//! Whole replies, reckoned by hand from the format.
ghost use Rattle.std.specs.Prelude.{◌≡◌, ◌<◌, [], length, true, IsTrue, IfOk};
ghost use Rattle.dc_frames.specs.View.{query_of};

use crate::{reply_failure, reply_heard, reply_items, reply_missing, reply_nothing, reply_one};
use dc_frames::Query;
use dc_items::Items;
use dc_name::Name;
use dc_packet::{Message, Request, Table};
use dc_reply::{Body, Reply};
use dc_rules::Rule;
use std::alloc::{AllocError, Global};
use std::test::Fail;

/// A query of id 7 that begins.
fn asked(alloc: Global, name: Name, qtype: u16) -> Result<Query, AllocError>
    ensures frame { IfOk result (λ q. 0 < length (query_of q).frames) }
    ensures aliases { IfOk result (λ q. (query_of q).aliases ≡ []) }
{
    let mut query = Query::new(alloc)?;
    query.take(&Request {
        id: 7,
        name,
        qtype,
        qclass: 1,
    });
    query.begin();
    Ok(query)
}

/// A query for `www.example.com`, an alias of `web.example.com`, which is one of `Host.example`.
fn followed(alloc: Global) -> Result<Query, Fail>
    ensures { IfOk result (λ q. 0 < length (query_of q).frames) }
{
    let mut query = asked(alloc, Name::from_dotted(b"www.example.com")?, 1)?;
    query.push_alias(300);
    query.rename(Name::from_dotted(b"web.example.com")?);
    query.push_alias(60);
    query.rename(Name::from_dotted(b"Host.example")?);
    Ok(query)
}

/// What is replied.
#[derive(Clone, Copy)]
enum Answer<'a> {
    Nothing,
    Missing,
    Failure,
    Address,
    Heard(&'a Message<'a>),
    Exchanges(&'a [u8]),
}

/// Makes the reply.
fn made(query: &Query, reply: &mut Reply, answer: Answer<'_>) -> bool
    requires { 0 < length (query_of query.now).frames }
    ensures { IsTrue result → IsTrue reply.new.begun }
{
    match answer {
        Answer::Nothing => reply_nothing(query, reply),
        Answer::Missing => reply_missing(query, reply),
        Answer::Failure => reply_failure(query, reply),
        Answer::Address => reply_one(query, reply, 1, 5, Body::Bytes(&[192, 0, 2, 1])),
        Answer::Heard(message) => reply_heard(query, reply, message),
        Answer::Exchanges(body) => reply_items(
            query,
            reply,
            15,
            5,
            Items::new(Rule::Two, 15, body),
        ),
    }
}

/// A message with the addresses 192.0.2.1 to 192.0.2.5: of the name, of its zone, of the name in other letters, of the name in
/// class CH, and of the name in the authority section; and with a text.
const MESSAGE: &[u8] =
    b"\x00\x09\x81\x80\x00\x01\x00\x05\x00\x01\x00\x00\x03www\x07example\x03com\x00\x00\x01\x00\x01\xc0\x0c\x00\x01\x00\x01\x00\x09:\x81\x00\x04\xc0\x00\x02\x01\xc0\x10\x00\x01\x00\x01\x00\x00\x00<\x00\x04\xc0\x00\x02\x02\x03WWW\xc0\x10\x00\x01\x00\x01\x00\x00\x00<\x00\x04\xc0\x00\x02\x03\xc0\x0c\x00\x01\x00\x03\x00\x00\x00<\x00\x04\xc0\x00\x02\x04\xc0\x0c\x00\x10\x00\x01\x00\x00\x00<\x00\x02\x01a\xc0\x0c\x00\x01\x00\x01\x00\x00\x00<\x00\x04\xc0\x00\x02\x05";

/// Two mail exchanges, and a rest that is none.
const EXCHANGES: &[u8] =
    b"\x00\x0a\x04mail\x07example\x03com\x00\x00\x14\x07example\x03com\x00\x00\x1e\x03ww";

/// A CNAME for each alias, and what is told of the last name.
#[test]
fn aliases_and_items(rt: HostRuntime) -> Result<(), Fail> {
    let plain = asked(rt.alloc(), Name::from_dotted(b"www.example.com")?, 1)?;
    let alias = followed(rt.alloc())?;
    let cases: [(&Query, Answer<'_>, &[u8]); 7] = [
        (
            &plain,
            Answer::Nothing,
            b"\x00\x07\x81\x80\x00\x01\x00\x00\x00\x00\x00\x00\x03www\x07example\x03com\x00\x00\x01\x00\x01",
        ),
        (
            &plain,
            Answer::Failure,
            b"\x00\x07\x81\x82\x00\x01\x00\x00\x00\x00\x00\x00\x03www\x07example\x03com\x00\x00\x01\x00\x01",
        ),
        (
            &plain,
            Answer::Address,
            b"\x00\x07\x81\x80\x00\x01\x00\x01\x00\x00\x00\x00\x03www\x07example\x03com\x00\x00\x01\x00\x01\xc0\x0c\x00\x01\x00\x01\x00\x00\x00\x05\x00\x04\xc0\x00\x02\x01",
        ),
        (
            &alias,
            Answer::Nothing,
            b"\x00\x07\x81\x80\x00\x01\x00\x02\x00\x00\x00\x00\x03www\x07example\x03com\x00\x00\x01\x00\x01\xc0\x0c\x00\x05\x00\x01\x00\x00\x01,\x00\x06\x03web\xc0\x10\xc0-\x00\x05\x00\x01\x00\x00\x00<\x00\x0e\x04Host\x07example\x00",
        ),
        (
            &alias,
            Answer::Missing,
            b"\x00\x07\x85\x83\x00\x01\x00\x02\x00\x00\x00\x00\x03www\x07example\x03com\x00\x00\x01\x00\x01\xc0\x0c\x00\x05\x00\x01\x00\x00\x01,\x00\x06\x03web\xc0\x10\xc0-\x00\x05\x00\x01\x00\x00\x00<\x00\x0e\x04Host\x07example\x00",
        ),
        (
            &alias,
            Answer::Address,
            b"\x00\x07\x81\x80\x00\x01\x00\x03\x00\x00\x00\x00\x03www\x07example\x03com\x00\x00\x01\x00\x01\xc0\x0c\x00\x05\x00\x01\x00\x00\x01,\x00\x06\x03web\xc0\x10\xc0-\x00\x05\x00\x01\x00\x00\x00<\x00\x0e\x04Host\x07example\x00\xc0?\x00\x01\x00\x01\x00\x00\x00\x05\x00\x04\xc0\x00\x02\x01",
        ),
        (
            &plain,
            Answer::Exchanges(EXCHANGES),
            b"\x00\x07\x81\x80\x00\x01\x00\x02\x00\x00\x00\x00\x03www\x07example\x03com\x00\x00\x01\x00\x01\xc0\x0c\x00\x0f\x00\x01\x00\x00\x00\x05\x00\x09\x00\x0a\x04mail\xc0\x10\xc0\x0c\x00\x0f\x00\x01\x00\x00\x00\x05\x00\x04\x00\x14\xc0\x10",
        ),
    ];
    let mut reply = Reply::new(rt.alloc())?;
    for (query, answer, message) in cases {
        let is_made = made(query, &mut reply, answer);
        assert!(rt; is_made);
        assert_eq!(rt; reply.finish_udp(), message);
    }
    Ok(())
}

/// The first and the third address are told, the first for a week.
#[test]
fn heard(rt: HostRuntime) -> Result<(), Fail> {
    let query = asked(rt.alloc(), Name::from_dotted(b"www.example.com")?, 1)?;
    let mut table = Table::new(rt.alloc())?;
    assert!(rt; MESSAGE.len() <= 65535);
    table.read(MESSAGE)?;
    let mut reply = Reply::new(rt.alloc())?;
    let is_made = made(
        &query,
        &mut reply,
        Answer::Heard(&Message::new(MESSAGE, &table)),
    );
    assert!(rt; is_made);
    let message =
        b"\x00\x07\x81\x80\x00\x01\x00\x02\x00\x00\x00\x00\x03www\x07example\x03com\x00\x00\x01\x00\x01\xc0\x0c\x00\x01\x00\x01\x00\x09:\x80\x00\x04\xc0\x00\x02\x01\xc0\x0c\x00\x01\x00\x01\x00\x00\x00<\x00\x04\xc0\x00\x02\x03";
    assert_eq!(rt; reply.finish_udp(), message.as_slice());
    Ok(())
}

/// A message of 65535 bytes is made, and none of one more.
#[test]
fn longest(rt: HostRuntime) -> Result<(), Fail> {
    let query = asked(rt.alloc(), Name::root(), 1)?;
    let mut reply = Reply::new(rt.alloc())?;
    let bytes = vec![in rt.alloc(); 0; 65_508]?;
    assert!(rt; reply_one(&query, &mut reply, 99, 0, Body::Bytes(&bytes[..65_507])));
    assert!(rt; !reply_one(&query, &mut reply, 99, 0, Body::Bytes(&bytes)));
    Ok(())
}
