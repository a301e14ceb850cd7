//! A source and a sink in memory that never fail.
ghost use Rattle.std.specs.Prelude.{◌≡◌, ℕ, ◌+◌, ◌-◌, ◌≤◌, ◌<◌, List, [], ◌++◌, length, take, drop, min, IfOk, Some, None, MatchOption};
ghost use Rattle.std.specs.declared.option.Option.{Option};
ghost use Rattle.std.specs.Io.KnownBytes.{IsAtEnd};
ghost use Rattle.dc_event.specs.Answers.{taken_by, TakesAtMost, count_taken, IfTakeFailed, put_by, PutsSome, count_put, IfPutFailed};
ghost use Rattle.dc_event.specs.Bytes.{Moved, Moved-none, Moved-both};
ghost use Rattle.dc_event.specs.Quiet.{Filled, Filled-none, Filled-both};

use crate::stream::{Sink, Source};
use crate::{Put, Taken};
use std::alloc::{AllocError, Global};
use std::marker::Model;

/// Bytes in memory, given as many at a time as fit. It never fails.
#[derive(Drop)]
pub struct QuietSource {
    bytes: Vec<u8>,
    at: usize,
}

impl Model for QuietSource {
    ghost use Rattle.std.specs.Prelude.{◌≤◌, take, drop, length};
    ghost use Rattle.dc_event.specs.Bytes.{Tape};

    ghost Value = { Tape };

    ghost view = { λ a. record { taken = take a.at a.bytes.items; left = drop a.at a.bytes.items } };

    ghost invariant = { λ a. a.at ≤ length a.bytes.items };
}

impl QuietSource {
    /// A source of these bytes.
    pub fn new(bytes: Vec<u8>) -> QuietSource
        ensures { result ≡ record { taken = []; left = bytes.items } }
    {
        QuietSource { bytes, at: 0 }
    }
}

impl Source for QuietSource {
    ghost took = { Moved };

    ghost left = { λ s. Some s.left };

    ghost faults = { λ _. 0 };

    ghost refused = { λ a b. ⊥ };

    fn take(&mut self, into: &mut [u8]) -> Taken
        requires { 0 < length into.old }
        ensures took { Moved self.old (taken_by result into.new) self.new }
        ensures bound { TakesAtMost result (length into.new) }
        ensures end { result ≡ Taken.Bytes 0 → IsAtEnd (Some self.new.left) }
        ensures count { 0 ≡ count_taken result 0 }
        ensures failed { IfTakeFailed result ⊥ }
        ensures answer { result ≡ Taken.Bytes (min (length into.old) (length self.old.left)) }
    {
        let count = give(&self.bytes, self.at, usize::MAX, into);
        self.at += count;
        Taken::Bytes(count)
    }

    fn faults(&self) -> u64 {
        0
    }

    ghost took_none = { Moved-none };

    ghost took_both = { Moved-both };

    ghost took_left = { λ a b xs m. m.ahead };
}

/// Copies as many bytes from this place on as there are and fit, `most` at most.
pub(crate) fn give(bytes: &[u8], at: usize, most: usize, into: &mut [u8]) -> usize
    requires { at ≤ length bytes.now }
    ensures count { result ≡ min (min (length into.old) most) (length bytes.now - at) }
    ensures bytes { take result into.new ≡ take result (drop at bytes.now) }
    ensures len { length into.new ≡ length into.old }
{
    let rest = &bytes[at..];
    let count = rest.len().min(into.len().min(most));
    into[..count].copy_from_slice(&rest[..count]);
    count
}

/// A sink in memory with room for so many bytes. It never fails, but once its room is passed it doesn't tell what it holds.
#[derive(Drop)]
pub struct QuietSink {
    buffer: Vec<u8>,
    len: usize,
    passed: bool,
}

impl Model for QuietSink {
    ghost use Rattle.std.specs.Prelude.{Some, None, ◌≤◌, take, length, cond};
    ghost use Rattle.dc_event.specs.Quiet.{Quiet};

    ghost Value = { Quiet };

    ghost view = { λ a. record { room = length a.buffer.items; bytes = cond a.passed None (Some (take a.len a.buffer.items)) } };

    ghost invariant = { λ a. a.len ≤ length a.buffer.items };
}

impl QuietSink {
    /// An empty sink. It takes all memory that it needs.
    pub fn new(alloc: Global, room: usize) -> Result<QuietSink, AllocError>
        ensures { IfOk result (λ sink. sink ≡ record { room = room; bytes = Some [] }) }
    {
        let buffer = vec![in alloc; 0u8; room]?;
        Ok(QuietSink {
            buffer,
            len: 0,
            passed: false,
        })
    }

    /// The bytes held, unless the room was passed.
    pub fn held(&self) -> Option<&[u8]>
        ensures { MatchOption result (self.now.bytes ≡ None) (λ bytes. self.now.bytes ≡ Some bytes.now) }
    {
        if self.passed {
            None
        } else {
            Some(&self.buffer[..self.len])
        }
    }
}

impl Sink for QuietSink {
    ghost gained = { Filled };

    ghost faults = { λ _. 0 };

    ghost refused = { λ a b. ⊥ };

    fn put(&mut self, bytes: &[u8]) -> Put
        requires { 0 < length bytes.now }
        ensures gained { Filled self.old (put_by result bytes.now) self.new }
        ensures bound { PutsSome result (length bytes.now) }
        ensures count { 0 ≡ count_put result 0 }
        ensures failed { IfPutFailed result ⊥ }
        ensures answer { result ≡ Put.Taken (length bytes.now) }
    {
        if self.passed || bytes.len() > self.buffer.len() - self.len {
            self.passed = true;
        } else {
            keep(&mut self.buffer, self.len, bytes);
            self.len += bytes.len();
        }
        Put::Taken(bytes.len())
    }

    fn faults(&self) -> u64 {
        0
    }

    ghost gained_none = { Filled-none };

    ghost gained_both = { Filled-both };
}

/// Copies these bytes to this place.
pub(crate) fn keep(buffer: &mut [u8], at: usize, bytes: &[u8])
    requires { at + length bytes.now ≤ length buffer.old }
    ensures bytes { take (at + length bytes.now) buffer.new ≡ take at buffer.old ++ bytes.now }
    ensures len { length buffer.new ≡ length buffer.old }
{
    buffer[at..at + bytes.len()].copy_from_slice(bytes);
}
