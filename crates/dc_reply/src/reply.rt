//! Replies.
ghost use Rattle.std.specs.Prelude.{◌≡◌, ◌+◌, ◌<◌, ◌≤◌, ◌++◌, true, false, length, drop, Some, [], IsTrue, IfOk};
ghost use Rattle.std.specs.Borrow.{sem};
ghost use Rattle.std.specs.Io.BufRead.{Rests};
ghost use Rattle.dc_model.specs.Limits.{longest_datagram};
ghost use Rattle.dc_model.specs.Message.{u16, message_of};
ghost use Rattle.dc_model.specs.Reply as model;
ghost use Rattle.dc_model.specs.ReadBack.{IsReply};
ghost use Rattle.dc_reply.specs.Bodies.{answer_of};
ghost use Rattle.dc_reply.specs.Draft.{draft_of, IsMessageOf};
ghost use Rattle.dc_reply.specs.contracts.reply.Reply.{the_row};

use crate::Body;
use crate::message::{FRAME, HEADER, MOST};
use crate::writer::Writer;
use dc_limits::LONGEST_DATAGRAM;
use dc_name::Name;
use std::alloc::{AllocError, Global};
use std::marker::Model;

/// The flags of a response without an error: QR, RD and RA (RFC 1035, 4.1.1).
const PLAIN: u16 = 0x8180;

/// Those with AA, and rcode 3: the name doesn't exist.
const NO_NAME: u16 = 0x8583;

/// The rcode of a failure.
const FAILURE: u16 = 2;

/// TC: the message is cut.
const CUT: u16 = 0x0200;

/// A reply to a client: it is begun with the question, gets its answers one by one, and is finished as a datagram or as a
/// message in a stream. It is built once, in place, in memory that `new` takes.
///
/// Contracts say which reply it is by `draft_of`: what is kept of that reply while it is begun.
#[derive(Drop)]
pub struct Reply {
    begun: bool,
    id: u16,
    flags: u16,
    count: usize,
    asked: usize,
    writer: Writer,
}

impl Model for Reply {
    ghost use Rattle.std.specs.Prelude.{◌≤◌, length};
    ghost use Rattle.dc_reply.specs.Draft.{Draft};

    ghost Value = { Draft };

    ghost view = { λ a. record {
      begun = a.begun;
      id = a.id;
      flags = a.flags;
      count = a.count;
      asked = a.asked;
      written = a.writer.written;
    } };

    ghost use Rattle.dc_reply.specs.Draft.{IsInside};

    ghost invariant = { λ a. IsInside a.flags a.count a.asked (length a.writer.written.bytes) };
}

impl Reply {
    /// A reply that isn't begun, with memory for any.
    pub fn new(alloc: Global) -> Result<Reply, AllocError>
        ensures { IfOk result (λ r. r.begun ≡ false) }
    {
        let writer = Writer::new(alloc)?;
        Ok(Reply {
            begun: false,
            id: 0,
            flags: PLAIN,
            count: 0,
            asked: 0,
            writer,
        })
    }

    /// Begins a reply without answers to a request, whose id, name, type and class are given.
    pub fn start(&mut self, id: u16, name: &Name, qtype: u16, qclass: u16)
        ensures reply { self.new
            ≡ draft_of (model.reply_to (record { id = id; name = name.now; kind = qtype; class = qclass })) }
        ensures begun { IsTrue self.new.begun }
    {
        self.writer.truncate(0, 0);
        self.writer.question(name, qtype, qclass);
        self.begun = true;
        self.id = id;
        self.flags = PLAIN;
        self.count = 0;
        self.asked = self.writer.len();
    }

    /// Adds an answer of class IN. Answers false exactly where the message would have more than 65535 bytes with it; the reply is
    /// then as before.
    pub fn rr(&mut self, owner: &Name, kind: u16, ttl: u32, body: Body<'_>) -> bool
        requires { IsTrue self.old.begun }
        ensures fits { (r : model.Reply) → self.old ≡ draft_of r
            → result ≡ model.fits (model.with_answer (answer_of owner.now kind ttl body.entry) r) }
        ensures added { (r : model.Reply) → self.old ≡ draft_of r → result ≡ true
            → self.new ≡ draft_of (model.with_answer (answer_of owner.now kind ttl body.entry) r) }
        ensures same { result ≡ false → self.new ≡ self.old }
        ensures begun { IsTrue self.new.begun }
    {
        let len = self.writer.len();
        if body.plain_len() > MOST - len {
            return false;
        }
        let known = self.writer.known();
        self.writer.answer(owner, kind, ttl, body);
        if self.writer.len() > MOST {
            self.writer.truncate(len, known);
            return false;
        }
        self.count += 1;
        true
    }

    /// Says that the name doesn't exist: sets AA and rcode 3.
    pub fn nxdomain(&mut self)
        requires { IsTrue self.old.begun }
        ensures reply { (r : model.Reply) → self.old ≡ draft_of r → self.new ≡ draft_of (model.nxdomain r) }
        ensures begun { IsTrue self.new.begun }
    {
        self.flags = NO_NAME;
    }

    /// Says that no answer was found: sets rcode 2.
    pub fn servfail(&mut self)
        requires { IsTrue self.old.begun }
        ensures reply { (r : model.Reply) → self.old ≡ draft_of r → self.new ≡ draft_of (model.servfail r) }
        ensures begun { IsTrue self.new.begun }
    {
        self.flags = 16 * (self.flags / 16) + FAILURE;
    }

    /// Finishes the reply as a datagram: the whole message where it has at most 512 bytes, and else its header and question with TC
    /// set (RFC 1035, 4.2.1). Afterwards no reply is begun.
    pub fn finish_udp(&mut self) -> &[u8]
        requires { IsTrue self.old.begun }
        ensures bytes { (r : model.Reply) → self.old ≡ draft_of r → result.now ≡ model.udp_bytes r }
        ensures short { length result.now ≤ longest_datagram }
        ensures reads_back { (r : model.Reply) → self.old ≡ draft_of r → IsReply r
            → length (model.reply_bytes r) ≤ 512 → IsMessageOf r result.now }
        ensures cut_reads_back { (r : model.Reply) → self.old ≡ draft_of r → IsReply r
            → 512 < length (model.reply_bytes r) → message_of result.now ≡ Some (record {
              id = r.id;
              flags = r.flags + 512;
              question = r.question;
              records = [];
            }) }
        ensures* finished { sem 𝓛 (Rests the_row self.entry (λ new. new.begun ≡ false)) }
    {
        self.begun = false;
        let len = HEADER + self.writer.len();
        if len <= LONGEST_DATAGRAM {
            self.writer
                .set_front(&front(len, self.id, self.flags, self.count as u16));
            return &self.writer.framed()[FRAME..];
        }
        self.writer
            .set_front(&front(len, self.id, self.flags + CUT, 0));
        &self.writer.framed()[FRAME..FRAME + HEADER + self.asked]
    }

    /// Finishes the reply as a message in a stream: two bytes of its length, and the whole message (RFC 1035, 4.2.2). Afterwards
    /// no reply is begun.
    pub fn finish_tcp(&mut self) -> &[u8]
        requires { IsTrue self.old.begun }
        ensures bytes { (r : model.Reply) → self.old ≡ draft_of r → result.now ≡ model.tcp_bytes r }
        ensures most { length result.now ≤ 65537 }
        ensures reads_back { (r : model.Reply) → self.old ≡ draft_of r → IsReply r
            → IsMessageOf r (drop 2 result.now) }
        ensures* finished { sem 𝓛 (Rests the_row self.entry (λ new. new.begun ≡ false)) }
    {
        self.begun = false;
        let len = HEADER + self.writer.len();
        self.writer
            .set_front(&front(len, self.id, self.flags, self.count as u16));
        self.writer.framed()
    }
}

/// A frame and a header: a message's length, its id and flags, one question, so many answers, and no other records.
fn front(len: usize, id: u16, flags: u16, count: u16) -> [u8; 14]
    requires { len ≤ 65535 }
    ensures { result ≡ u16 len ++ model.header id flags count }
{
    let len = (len as u16).to_be_bytes();
    let id = id.to_be_bytes();
    let flags = flags.to_be_bytes();
    let count = count.to_be_bytes();
    [
        len[0], len[1], id[0], id[1], flags[0], flags[1], 0, 1, count[0], count[1], 0, 0, 0, 0,
    ]
}
