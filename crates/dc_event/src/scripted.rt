//! A source and a sink in memory whose calls of given numbers fail.
ghost use Rattle.std.specs.Prelude.{◌≡◌, ℕ, ◌+◌, ◌-◌, ◌≤◌, ◌<◌, List, [], ◌++◌, length, take, drop, min, IfOk, Some, None};
ghost use Rattle.std.specs.Io.KnownBytes.{IsAtEnd};
ghost use Rattle.dc_event.specs.Answers.{taken_by, TakesAtMost, count_taken, IfTakeFailed, put_by, PutsSome, count_put, IfPutFailed};
ghost use Rattle.dc_event.specs.Causes.{counted};
ghost use Rattle.dc_event.specs.Scripted.{Wound, Wound-none, Wound-both, Added, Added-none, Added-both, take_gives, put_gives};

use crate::quiet::{give, keep};
use crate::stream::{Sink, Source};
use crate::{Put, Taken};
use std::alloc::{AllocError, Global};
use std::marker::Model;

/// Bytes in memory, given in pieces. The calls of `take` whose numbers are in a list fail, counted from 1.
#[derive(Drop)]
pub struct MemorySource {
    bytes: Vec<u8>,
    at: usize,
    piece: usize,
    fails: Vec<u64>,
    calls: u64,
    faults: u64,
}

impl Model for MemorySource {
    ghost use Rattle.std.specs.Prelude.{◌≤◌, take, drop, length};
    ghost use Rattle.dc_event.specs.Scripted.{Reel};

    ghost Value = { Reel };

    ghost view = { λ a. record { taken = take a.at a.bytes.items; left = drop a.at a.bytes.items; piece = a.piece; fails = a.fails.items; calls = a.calls; faults = a.faults } };

    ghost invariant = { λ a. (a.at ≤ length a.bytes.items) × (1 ≤ a.piece) };
}

impl MemorySource {
    /// A source of these bytes that gives at most `piece` of them at a time.
    pub fn new(bytes: Vec<u8>, piece: usize, fails: Vec<u64>) -> MemorySource
        requires { 1 ≤ piece }
        ensures { result ≡ record { taken = []; left = bytes.items; piece = piece; fails = fails.items; calls = 0; faults = 0 } }
    {
        MemorySource {
            bytes,
            at: 0,
            piece,
            fails,
            calls: 0,
            faults: 0,
        }
    }
}

impl Source for MemorySource {
    ghost took = { Wound };

    ghost left = { λ s. Some s.left };

    ghost faults = { λ s. s.faults };

    ghost refused = { λ a b. b ≡ record a { calls = counted a.calls; faults = counted a.faults } };

    fn take(&mut self, into: &mut [u8]) -> Taken
        requires { 0 < length into.old }
        ensures took { Wound self.old (taken_by result into.new) self.new }
        ensures bound { TakesAtMost result (length into.new) }
        ensures end { result ≡ Taken.Bytes 0 → IsAtEnd (Some self.new.left) }
        ensures count { self.new.faults ≡ count_taken result self.old.faults }
        ensures failed { IfTakeFailed result (self.new ≡ record self.old { calls = counted self.old.calls; faults = counted self.old.faults }) }
        ensures answer { result ≡ take_gives self.old (length into.old) }
        ensures calls { self.new.calls ≡ counted self.old.calls }
    {
        self.calls = self.calls.saturating_add(1);
        if self.fails.contains(&self.calls) {
            self.faults = self.faults.saturating_add(1);
            return Taken::Failed;
        }
        let count = give(&self.bytes, self.at, self.piece, into);
        self.at += count;
        Taken::Bytes(count)
    }

    fn faults(&self) -> u64 {
        self.faults
    }

    ghost took_none = { Wound-none };

    ghost took_both = { Wound-both };

    ghost took_left = { λ a b xs m. m.moved.ahead };
}

/// A sink in memory with room for so many bytes. It fails where its room is full, and at the calls of `put` whose numbers are in a list,
/// counted from 1.
#[derive(Drop)]
pub struct MemorySink {
    buffer: Vec<u8>,
    len: usize,
    fails: Vec<u64>,
    calls: u64,
    faults: u64,
}

impl Model for MemorySink {
    ghost use Rattle.std.specs.Prelude.{◌≤◌, take, length};
    ghost use Rattle.dc_event.specs.Scripted.{Shelf};

    ghost Value = { Shelf };

    ghost view = { λ a. record { room = length a.buffer.items; bytes = take a.len a.buffer.items; fails = a.fails.items; calls = a.calls; faults = a.faults } };

    ghost invariant = { λ a. a.len ≤ length a.buffer.items };
}

impl MemorySink {
    /// An empty sink. It takes all memory that it needs.
    pub fn new(alloc: Global, room: usize, fails: Vec<u64>) -> Result<MemorySink, AllocError>
        ensures { IfOk result (λ sink. sink ≡ record { room = room; bytes = []; fails = fails.items; calls = 0; faults = 0 }) }
    {
        let buffer = vec![in alloc; 0u8; room]?;
        Ok(MemorySink {
            buffer,
            len: 0,
            fails,
            calls: 0,
            faults: 0,
        })
    }

    /// The bytes held.
    pub fn held(&self) -> &[u8]
        ensures { result.now ≡ self.now.bytes }
    {
        &self.buffer[..self.len]
    }
}

impl Sink for MemorySink {
    ghost gained = { Added };

    ghost faults = { λ s. s.faults };

    ghost refused = { λ a b. b ≡ record a { calls = counted a.calls; faults = counted a.faults } };

    fn put(&mut self, bytes: &[u8]) -> Put
        requires { 0 < length bytes.now }
        ensures gained { Added self.old (put_by result bytes.now) self.new }
        ensures bound { PutsSome result (length bytes.now) }
        ensures count { self.new.faults ≡ count_put result self.old.faults }
        ensures failed { IfPutFailed result (self.new ≡ record self.old { calls = counted self.old.calls; faults = counted self.old.faults }) }
        ensures answer { result ≡ put_gives self.old (length bytes.now) }
        ensures calls { self.new.calls ≡ counted self.old.calls }
    {
        self.calls = self.calls.saturating_add(1);
        let free = self.buffer.len() - self.len;
        if free == 0 || self.fails.contains(&self.calls) {
            self.faults = self.faults.saturating_add(1);
            return Put::Failed;
        }
        let count = bytes.len().min(free);
        keep(&mut self.buffer, self.len, &bytes[..count]);
        self.len += count;
        Put::Taken(count)
    }

    fn faults(&self) -> u64 {
        self.faults
    }

    ghost gained_none = { Added-none };

    ghost gained_both = { Added-both };
}
