//! Writing names and records, with pointers to what was written before (RFC 1035, 4.1.4).
ghost use Rattle.std.specs.Prelude.{◌≡◌, ◌≢◌, ◌+◌, ◌≤◌, [], ◌∷◌, ◌++◌, length, take, drop, slice_index_or, option_map, IfOk, IfSome, ◌<◌};
ghost use Rattle.dc_model.specs.Message.{u16, u32, class_in};
ghost use Rattle.dc_model.specs.Reply.{suffix_of, joined, before_bytes, name_written, body_written, answer_written, question_written};
ghost use Rattle.dc_reply.specs.Bodies.{body_of, answer_of};
ghost use Rattle.dc_reply.specs.Put.{nothing, with_more, plain_length};

use crate::Body;
use crate::message::{HEADER, Message};
use crate::suffixes::Suffixes;
use dc_name::{Name, Suffix};
use dc_types::class;
use std::alloc::{AllocError, Global};
use std::marker::Model;

/// The two high bits of a pointer.
const POINTER: u16 = 0xc000;

/// How many numbers two bytes can say. Data with more bytes is part of no message.
const NUMBERS: usize = 65536;

/// How many bytes stand between an answer's owner and its data's length.
const BEFORE_LENGTH: usize = 8;

/// What is written behind a header, with the suffixes that can be pointed to, and the bytes in front.
///
/// Contracts see both.
#[derive(Drop)]
pub(crate) struct Writer {
    message: Message,
    table: Suffixes,
}

impl Model for Writer {
    ghost use Rattle.dc_reply.specs.Pages.{Page};

    ghost Value = { Page };

    ghost view = { λ a. record { front = a.message.front; written = record { bytes = a.message.bytes; table = a.table } } };
}

impl Writer {
    /// Nothing, with room for a message.
    pub(crate) fn new(alloc: Global) -> Result<Writer, AllocError>
        ensures { IfOk result (λ w. w.written ≡ nothing) }
    {
        let message = Message::new(alloc)?;
        let table = Suffixes::new(alloc)?;
        Ok(Writer { message, table })
    }

    /// How many bytes are written.
    pub(crate) fn len(&self) -> usize
        ensures len { result ≡ length self.now.written.bytes }
        ensures most { result ≤ 67000 }
    {
        self.message.len()
    }

    /// How many suffixes can be pointed to.
    pub(crate) fn known(&self) -> usize
        ensures { result ≡ length self.now.written.table }
    {
        self.table.len()
    }

    /// Takes back all but the first `len` bytes and the first `known` suffixes.
    pub(crate) fn truncate(&mut self, len: usize, known: usize)
        requires len { len ≤ length self.old.written.bytes }
        requires known { known ≤ length self.old.written.table }
        ensures { self.new.written ≡ record {
          bytes = take len self.old.written.bytes;
          table = take known self.old.written.table;
        } }
    {
        self.message.truncate(len);
        self.table.truncate(known);
    }

    /// Writes bytes as they are.
    fn put(&mut self, more: &[u8])
        requires { length self.old.written.bytes + length more.now ≤ 67000 }
        ensures { self.new.written ≡ before_bytes self.old.written more.now }
    {
        self.message.put(more);
    }

    /// Writes a number as two bytes.
    fn put_u16(&mut self, n: u16)
        requires { length self.old.written.bytes + 2 ≤ 67000 }
        ensures { self.new.written ≡ before_bytes self.old.written (u16 n) }
    {
        self.put(&n.to_be_bytes());
    }

    /// Writes a number as four bytes.
    fn put_u32(&mut self, n: u32)
        requires { length self.old.written.bytes + 4 ≤ 67000 }
        ensures { self.new.written ≡ before_bytes self.old.written (u32 n) }
    {
        self.put(&n.to_be_bytes());
    }

    /// Writes a number over the two bytes at a place behind the header.
    fn set_u16(&mut self, at: usize, n: u16)
        requires { at + 2 ≤ length self.old.written.bytes }
        ensures { self.new.written ≡ record {
          bytes = take at self.old.written.bytes ++ (u16 n ++ drop (at + 2) self.old.written.bytes);
          table = self.old.written.table;
        } }
    {
        self.message.set_u16(at, n);
    }

    /// Where the first suffix stands that is the same as a name, case aside.
    fn place_of(&self, name: &Suffix<'_>) -> Option<u16>
        ensures place { result ≡ option_map (λ s. s.place) (suffix_of name.now self.now.written.table) }
        ensures near { IfSome result (λ place. place < 16384) }
    {
        self.table.find(name)
    }

    /// Writes the first label of a name, and keeps the name where it can be pointed to.
    fn label(&mut self, name: &Suffix<'_>)
        requires { length self.old.written.bytes + 1 + length (slice_index_or name.now 0 []) ≤ 67000 }
        ensures bytes { let label = slice_index_or name.now 0 [] in
            self.new.written.bytes ≡ self.old.written.bytes ++ length label ∷ label }
        ensures len { length self.new.written.bytes
            ≡ length self.old.written.bytes + 1 + length (slice_index_or name.now 0 []) }
        ensures table { self.new.written.table
            ≡ joined name.now (12 + length self.old.written.bytes) self.old.written.table }
    {
        self.table.join(name, HEADER + self.message.len());
        let label = name.label();
        self.put(&[label.len() as u8]);
        self.put(label);
    }

    /// Writes a name, or its first labels and a pointer to the rest.
    pub(crate) fn name(&mut self, name: &Name)
        requires { length self.old.written.bytes + 255 ≤ 67000 }
        ensures written { self.new.written ≡ with_more self.old.written (name_written name.now) }
        ensures len { length self.new.written.bytes ≤ length self.old.written.bytes + 255 }
    {
        let mut rest = name.suffix();
        while let Some(above) = rest.parent() {
            if let Some(place) = self.place_of(&rest) {
                self.put_u16(POINTER + place);
                return;
            }
            self.label(&rest);
            rest = above;
        }
        self.put(&[0]);
    }

    /// Writes the question behind the header.
    pub(crate) fn question(&mut self, name: &Name, qtype: u16, qclass: u16)
        requires { self.old.written ≡ nothing }
        ensures written { self.new.written
            ≡ question_written (record { name = name.now; kind = qtype; class = qclass }) }
        ensures len { length self.new.written.bytes ≤ 259 }
    {
        self.name(name);
        self.put_u16(qtype);
        self.put_u16(qclass);
    }

    /// Writes the data of a record.
    fn body(&mut self, body: Body<'_>)
        requires { length self.old.written.bytes + plain_length (body_of body) + 530 ≤ 67000 }
        ensures written { self.new.written ≡ with_more self.old.written (body_written (body_of body.entry)) }
        ensures len { length self.new.written.bytes
            ≤ length self.old.written.bytes + plain_length (body_of body.entry) + 530 }
    {
        match body {
            Body::Bytes(bytes) => self.put(bytes),
            Body::Host(name) => self.name(name),
            Body::Mx(preference, name) => {
                self.put_u16(preference);
                self.name(name);
            }
            Body::Soa(first, second, numbers) => {
                self.name(first);
                self.name(second);
                self.put(numbers);
            }
        }
    }

    /// Writes what stands between an answer's owner and its data: the type, the class, the TTL, and
    /// room for the data's length.
    fn fixed(&mut self, kind: u16, ttl: u32)
        requires { length self.old.written.bytes + 10 ≤ 67000 }
        ensures { self.new.written ≡ before_bytes self.old.written (u16 kind ++ (u16 class_in ++ (u32 ttl ++ u16 0))) }
    {
        self.put_u16(kind);
        self.put_u16(class::IN);
        self.put_u32(ttl);
        self.put_u16(0);
    }

    /// Writes an answer of class IN. There is room for one behind the bytes of any message, but for
    /// data that are plain bytes.
    pub(crate) fn answer(&mut self, owner: &Name, kind: u16, ttl: u32, body: Body<'_>)
        requires { length self.old.written.bytes + plain_length (body_of body) ≤ 65523 }
        ensures written { self.new.written
            ≡ with_more self.old.written (answer_written (answer_of owner.now kind ttl body.entry)) }
        ensures most { length self.new.written.bytes ≤ 67000 }
    {
        self.name(owner);
        let at = self.len() + BEFORE_LENGTH;
        self.fixed(kind, ttl);
        self.body(body);
        let len = self.len() - at - 2;
        self.set_u16(at, (len % NUMBERS) as u16);
    }

    /// Writes a frame and a header in front.
    pub(crate) fn set_front(&mut self, front: &[u8; 14])
        ensures { self.new ≡ record { front = front.now; written = self.old.written } }
    {
        self.message.set_front(front);
    }

    /// All bytes from the frame on.
    pub(crate) fn framed(&self) -> &[u8]
        ensures { result.now ≡ self.now.front ++ self.now.written.bytes }
    {
        self.message.framed()
    }
}
