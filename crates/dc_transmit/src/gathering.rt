//! The bytes that are gathered of a stream, and the packet that is kept of an answer.
ghost use Rattle.std.specs.Prelude.{◌≡◌, ◌≤◌, ◌<◌, ◌+◌, ◌++◌, length, vec_len, vec_capacity, IfOk, IfSome, MatchOption, true, false};
ghost use Rattle.dc_model.specs.Transmission.{is_whole};
ghost use Rattle.dc_transmit.specs.Gathered.{no_bytes, appended, packet_of, message_of};

use dc_packet::u16_at;
use std::alloc::{AllocError, Global};
use std::marker::Model;

/// Room for the longest message behind its length.
const ROOM: usize = 65537;

/// Bytes in a buffer that has room for all. The packet is what stands from `start` on; while a stream is gathered, that is what
/// stands behind the length.
#[derive(Drop)]
pub(crate) struct Gathering {
    buffer: Vec<u8>,
    start: usize,
}

impl Model for Gathering {
    ghost use Rattle.std.specs.Prelude.{◌≤◌, ◌+◌, vec_len, vec_capacity};
    ghost use Rattle.dc_transmit.specs.Gathered.{Gathered};

    ghost Value = { Gathered };

    ghost view = { λ a. record { bytes = a.buffer.items; start = a.start } };

    ghost invariant = { λ a. (65537 ≤ vec_capacity a.buffer) × (vec_len a.buffer ≤ 65537) × (a.start ≤ vec_len a.buffer) × (vec_len a.buffer ≤ a.start + 65535) };
}

/// Puts bytes behind those in a buffer that has room for them.
fn extend(buffer: &mut Vec<u8>, bytes: &[u8])
    requires { vec_len buffer.old + length bytes.now ≤ vec_capacity buffer.old }
    ensures bytes { buffer.new.items ≡ buffer.old.items ++ bytes.now }
    ensures len { vec_len buffer.new ≡ vec_len buffer.old + length bytes.now }
    ensures room { vec_capacity buffer.old ≤ vec_capacity buffer.new }
{
    let Ok(()) = buffer.extend_from_slice(bytes) else {
        unreachable!()
    };
}

impl Gathering {
    /// No bytes. It takes all memory that it needs.
    pub(crate) fn new(alloc: Global) -> Result<Gathering, AllocError>
        ensures { IfOk result (λ g. g ≡ no_bytes) }
    {
        let buffer = Vec::with_capacity(alloc, ROOM)?;
        Ok(Gathering { buffer, start: 0 })
    }

    /// Takes all bytes away.
    pub(crate) fn clear(&mut self)
        ensures { self.new ≡ no_bytes }
    {
        self.buffer.clear();
        self.start = 0;
    }

    /// Puts bytes behind those that are there, as far as there is room.
    pub(crate) fn append(&mut self, bytes: &[u8])
        ensures { self.new.bytes ≡ appended self.old.bytes bytes.now }
    {
        let count = bytes.len().min(ROOM - self.buffer.len());
        extend(&mut self.buffer, &bytes[..count]);
        self.start = self.buffer.len().min(2);
    }

    /// Keeps a packet in place of the bytes.
    pub(crate) fn keep(&mut self, packet: &[u8])
        requires { length packet.now ≤ 65535 }
        ensures { packet_of self.new ≡ packet.now }
    {
        self.buffer.clear();
        extend(&mut self.buffer, packet);
        self.start = 0;
    }

    /// The message behind its length, where so many bytes are there (RFC 1035, 4.2.2).
    pub(crate) fn message(&self) -> Option<&[u8]>
        ensures message { MatchOption result (is_whole self.now.bytes ≡ false) (λ m. m.now ≡ message_of self.now.bytes) }
        ensures whole { IfSome result (λ m. is_whole self.now.bytes ≡ true) }
        ensures most { IfSome result (λ m. length m.now ≤ 65535) }
        ensures room { MatchOption result (length self.now.bytes < 65537) (λ m. Unit {0}) }
    {
        if self.buffer.len() < 2 {
            return None;
        }
        let behind = 2 + u16_at(&self.buffer, 0) as usize;
        if self.buffer.len() < behind {
            return None;
        }
        Some(&self.buffer[2..behind])
    }

    /// Keeps the message as the packet.
    pub(crate) fn keep_message(&mut self)
        requires { is_whole self.old.bytes ≡ true }
        ensures { packet_of self.new ≡ message_of self.old.bytes }
    {
        let behind = 2 + u16_at(&self.buffer, 0) as usize;
        self.buffer.truncate(behind);
        self.start = 2;
    }

    /// The packet that is kept.
    pub(crate) fn packet(&self) -> &[u8]
        ensures packet { result.now ≡ packet_of self.now }
        ensures most { length result.now ≤ 65535 }
    {
        &self.buffer[self.start..]
    }
}
