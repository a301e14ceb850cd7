//! The bytes of a message behind its header.
ghost use Rattle.std.specs.Prelude.{◌≡◌, ◌+◌, ◌≤◌, [], ◌++◌, length, take, drop, IfOk};
ghost use Rattle.dc_model.specs.Message.{u16};

use dc_limits::LONGEST_PACKET;
use std::alloc::{AllocError, Global};
use std::marker::Model;

/// How many bytes a header has.
pub(crate) const HEADER: usize = 12;

/// How many bytes say a message's length in a stream.
pub(crate) const FRAME: usize = 2;

/// The greatest number of bytes behind a header: that of a message is 65535.
pub(crate) const MOST: usize = LONGEST_PACKET - HEADER;

/// How many bytes can be put: those of a message, and of a record that is then found not to fit.
const ROOM: usize = 67000;

/// The length of the buffer: a frame, a header, and the room behind it.
const SIZE: usize = 67014;

/// The bytes of a message behind its header, and those in front of them: two of a frame and twelve of a header.
///
/// Contracts see both.
#[derive(Drop)]
pub(crate) struct Message {
    bytes: Vec<u8>,
    len: usize,
}

impl Model for Message {
    ghost use Rattle.std.specs.Prelude.{◌≡◌, ◌≤◌, take, drop, length};
    ghost use Rattle.dc_reply.specs.Pages.{Bytes};

    ghost Value = { Bytes };

    ghost view = { λ a. record { front = take 14 a.bytes.items; bytes = take a.len (drop 14 a.bytes.items) } };

    ghost invariant = { λ a. (a.len ≤ 67000) × (length a.bytes.items ≡ 67014) };
}

impl Message {
    /// No bytes, in a buffer for any number of them.
    pub(crate) fn new(alloc: Global) -> Result<Message, AllocError>
        ensures { IfOk result (λ m. m.bytes ≡ []) }
    {
        Ok(Message {
            bytes: vec![in alloc; 0; SIZE]?,
            len: 0,
        })
    }

    /// How many bytes were put.
    pub(crate) fn len(&self) -> usize
        ensures len { result ≡ length self.now.bytes }
        ensures most { result ≤ 67000 }
    {
        self.len
    }

    /// Takes back all bytes but the first `len`.
    pub(crate) fn truncate(&mut self, len: usize)
        requires { len ≤ length self.old.bytes }
        ensures bytes { self.new.bytes ≡ take len self.old.bytes }
        ensures len { length self.new.bytes ≡ len }
    {
        self.len = len;
    }

    /// Puts bytes behind the others.
    pub(crate) fn put(&mut self, more: &[u8])
        requires { length self.old.bytes + length more.now ≤ 67000 }
        ensures bytes { self.new.bytes ≡ self.old.bytes ++ more.now }
        ensures len { length self.new.bytes ≡ length self.old.bytes + length more.now }
    {
        write(&mut self.bytes, FRAME + HEADER + self.len, more);
        self.len += more.len();
    }

    /// Writes a number over the two bytes at a place.
    pub(crate) fn set_u16(&mut self, at: usize, n: u16)
        requires { at + 2 ≤ length self.old.bytes }
        ensures bytes { self.new.bytes ≡ take at self.old.bytes ++ (u16 n ++ drop (at + 2) self.old.bytes) }
        ensures len { length self.new.bytes ≡ length self.old.bytes }
    {
        let _ = self.len;
        write(&mut self.bytes, FRAME + HEADER + at, &n.to_be_bytes());
    }

    /// Writes a frame and a header in front.
    pub(crate) fn set_front(&mut self, front: &[u8; 14])
        ensures { self.new ≡ record { front = front.now; bytes = self.old.bytes } }
    {
        let _ = self.len;
        write(&mut self.bytes, 0, front);
    }

    /// All bytes from the frame on.
    pub(crate) fn framed(&self) -> &[u8]
        ensures { result.now ≡ self.now.front ++ self.now.bytes }
    {
        &self.bytes[..FRAME + HEADER + self.len]
    }
}

/// Writes bytes over those at a place.
fn write(bytes: &mut [u8], at: usize, more: &[u8])
    requires { at + length more.now ≤ length bytes.old }
    ensures { bytes.new ≡ take at bytes.old ++ (more.now ++ drop (at + length more.now) bytes.old) }
{
    bytes[at..at + more.len()].copy_from_slice(more);
}
