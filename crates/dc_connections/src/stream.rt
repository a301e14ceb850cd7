//! The bytes of a stream that came and weren't used.
ghost use Rattle.std.specs.Prelude.{◌≡◌, ◌≤◌, ◌+◌, ◌++◌, [], length, take, drop, IfOk, true};
ghost use Rattle.dc_model.specs.Limits.{longest_gathered, longest_packet};
ghost use Rattle.dc_model.specs.Message as model;
ghost use Rattle.dc_model.specs.Transmission.{is_whole};
ghost use Rattle.dc_machine.specs.Machine.{first_message, behind_message};

use dc_limits::LONGEST_GATHERED;
use dc_packet::u16_at;
use std::alloc::{AllocError, Global};
use std::marker::Model;

/// Room for the most bytes twice, a length and the longest message (RFC 1035, 4.2.2): so what is left is moved to the front only
/// where as many bytes were used since it was moved last.
const ROOM: usize = 2 * LONGEST_GATHERED;

/// At most 65537 bytes of a stream, which came and weren't used. They are neither cleared nor moved as a whole: a place and a
/// length say what counts.
#[derive(Drop)]
pub(crate) struct Stream {
    buffer: Vec<u8>,
    start: usize,
    len: usize,
}

impl Model for Stream {
    ghost use Rattle.std.specs.Prelude.{ℕ, List, ◌≡◌, ◌≤◌, ◌+◌, take, drop, length};
    ghost use Rattle.dc_model.specs.Limits.{longest_gathered};

    ghost Value = { List ℕ };

    ghost view = { λ a. take a.len (drop a.start a.buffer.items) };

    ghost invariant = { λ a. (length a.buffer.items ≡ 131074) × (a.len ≤ longest_gathered) × (a.start + a.len ≤ 131074) };
}

/// Writes bytes at a place.
fn put(buffer: &mut [u8], at: usize, bytes: &[u8])
    requires { at + length bytes.now ≤ length buffer.old }
    ensures front { take (at + length bytes.now) buffer.new ≡ take at buffer.old ++ bytes.now }
    ensures len { length buffer.new ≡ length buffer.old }
{
    buffer[at..at + bytes.len()].copy_from_slice(bytes);
}

/// Makes room behind the bytes from a place on, and answers where they begin then. They are moved to the front only where the
/// end is reached.
fn make_room(buffer: &mut [u8], start: usize, len: usize, more: usize) -> usize
    requires inside { start + len ≤ length buffer.old }
    requires few { len + more ≤ length buffer.old }
    ensures room { result + len + more ≤ length buffer.new }
    ensures same { take len (drop result buffer.new) ≡ take len (drop start buffer.old) }
    ensures len { length buffer.new ≡ length buffer.old }
{
    if more <= buffer.len() - start - len {
        return start;
    }
    buffer.copy_within(start..start + len, 0);
    0
}

/// Whether bytes begin with a whole message, behind its length (RFC 1035, 4.2.2).
#[tactic(auto, using(crate::proofs::StreamLemmas::short_not_whole, crate::proofs::StreamLemmas::whole_by))]
fn holds_whole(bytes: &[u8]) -> bool
    ensures { result ≡ is_whole bytes.now }
{
    if bytes.len() < 2 {
        return false;
    }
    bytes.len() >= 2 + u16_at(bytes, 0) as usize
}

/// How many bytes the first message takes, with its length.
#[tactic(auto, using(crate::proofs::StreamLemmas::whole_length, crate::proofs::StreamLemmas::whole_behind))]
fn used_by_first(bytes: &[u8]) -> usize
    requires { is_whole bytes.now ≡ true }
    ensures used { result ≡ 2 + model.u16_at bytes.now 0 }
    ensures inside { result ≤ length bytes.now }
    ensures most { result ≤ longest_gathered }
{
    u16_at(bytes, 0) as usize + 2
}

/// The first message, without its length.
fn first_of(bytes: &[u8]) -> &[u8]
    requires { is_whole bytes.now ≡ true }
    ensures message { result.now ≡ first_message bytes.now }
    ensures most { length result.now ≤ longest_packet }
{
    &bytes[2..used_by_first(bytes)]
}

impl Stream {
    /// No bytes. It takes all memory that it needs.
    pub(crate) fn new(alloc: Global) -> Result<Stream, AllocError>
        ensures { IfOk result (λ s. s ≡ []) }
    {
        let buffer = vec![in alloc; 0u8; ROOM]?;
        Ok(Stream {
            buffer,
            start: 0,
            len: 0,
        })
    }

    /// Takes all bytes away.
    pub(crate) fn clear(&mut self)
        ensures { self.new ≡ [] }
    {
        self.start = 0;
        self.len = 0;
    }

    /// The bytes.
    pub(crate) fn bytes(&self) -> &[u8]
        ensures bytes { result.now ≡ self.now }
        ensures most { length result.now ≤ longest_gathered }
    {
        &self.buffer[self.start..self.start + self.len]
    }

    /// Puts bytes behind those that are there.
    pub(crate) fn append(&mut self, bytes: &[u8])
        requires { length self.old + length bytes.now ≤ longest_gathered }
        ensures { self.new ≡ self.old ++ bytes.now }
    {
        self.start = make_room(&mut self.buffer, self.start, self.len, bytes.len());
        put(&mut self.buffer, self.start + self.len, bytes);
        self.len += bytes.len();
    }

    /// Whether a whole message is there, behind its length (RFC 1035, 4.2.2).
    pub(crate) fn is_whole(&self) -> bool
        ensures { result ≡ is_whole self.now }
    {
        holds_whole(self.bytes())
    }

    /// The first message, without its length.
    pub(crate) fn message(&self) -> &[u8]
        requires { is_whole self.now ≡ true }
        ensures message { result.now ≡ first_message self.now }
        ensures most { length result.now ≤ longest_packet }
    {
        first_of(self.bytes())
    }

    /// Takes the first message off, with its length.
    pub(crate) fn take_off(&mut self)
        requires { is_whole self.old ≡ true }
        ensures { self.new ≡ behind_message self.old }
    {
        let used = used_by_first(self.bytes());
        self.start += used;
        self.len -= used;
    }
}
