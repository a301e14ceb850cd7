//! Entries of the cache in a block of bytes, each in the chain of its bucket.
//!
//! The first bytes are the head links. A link is the XOR of the places beside it in its chain, so that a chain can be
//! read from either end (djbdns' cache.c). All places are counted in bytes from the start of the block.
#![tactic(auto)]

ghost use Rattle.std.specs.Prelude.{◌≡◌, ℕ, ◌+◌, ◌<◌, ◌≤◌, ◌^◌, length, List, [], ◌∷◌, ◌++◌, replicate, IfOk};
ghost use Rattle.dc_model.specs.Cache.{Cache, Entry, bucket, hsize, entry_size};
ghost use Rattle.dc_model.specs.Chain.{first, place_of};
ghost use Rattle.dc_model.specs.Layout.{Place, IsHead, chain, ClearOf, Stands, Holds, Layout};
ghost use Rattle.dc_chain.specs.Chains.{place, IsFresh, IsTail, IsAfter, reads};

mod links;
mod steps;

use dc_arena::Arena;
use dc_bucket::{bucket_of, hsize_of};
pub use std::alloc::AllocError as NoMemory;
use std::alloc::Global;
use std::marker::Model;
use std::sync::ledger::Ledger;
pub use steps::Steps;

/// Where the entries of a cache end and begin: the newest end at `writer`, and the older ones stand from `oldest` up to
/// `unused`.
#[derive(Clone, Copy, PartialEq, Eq)]
pub struct Marks {
    pub writer: u32,
    pub oldest: u32,
    pub unused: u32,
}

/// A block of 100 to 1000000000 bytes that holds entries, each in the chain of its bucket.
#[derive(Drop)]
pub struct Chains {
    arena: Arena,
    heads: u32,
}

impl Model for Chains {
    ghost use Rattle.std.specs.Prelude.{List, ℕ};

    ghost Value = { List ℕ };

    ghost use Rattle.dc_chain.specs.Kept.{IsKept};

    ghost view = { λ a. a.arena };

    ghost invariant = { IsKept };
}

impl Chains {
    /// A block of zeros: all chains are empty.
    pub fn new(alloc: Global, size: u32) -> Result<Chains, NoMemory>
        requires least { 100 ≤ size }
        requires most { size ≤ 1000000000 }
        ensures bytes { IfOk result (λ c. c ≡ replicate size 0) }
        ensures empty { IfOk result (λ c. Holds c size []) }
    {
        Ok(Chains {
            arena: Arena::new(alloc, size)?,
            heads: hsize_of(size),
        })
    }

    /// The chains of a block that is the layout of a cache.
    pub fn adopt(arena: Arena, marks: Marks) -> Chains
        requires { (c : Cache) × Layout arena marks.writer marks.oldest marks.unused c }
        ensures { result ≡ arena }
    {
        let heads = hsize_of(arena.size());
        Chains { arena, heads }
    }

    /// How many bytes the head links take.
    pub fn hsize(&self) -> u32
        ensures { result ≡ hsize (length self.now) }
    {
        self.heads
    }

    /// The place of the head of a key's bucket.
    pub fn bucket(&self, key: &[u8]) -> u32
        ensures { result ≡ bucket (length self.now) key.now }
    {
        bucket_of(self.heads, key)
    }

    /// The whole block.
    pub fn bytes(&self) -> &[u8]
        ensures { result.now ≡ self.now }
    {
        self.arena.slice(0, self.arena.size())
    }

    /// Writes an entry, but for its link, behind the heads and clear of all entries in chains.
    pub fn write(&mut self, at: u32, key: &[u8], body: &[u8], expiry: u64)
        requires key { length key.now ≤ 1000 }
        requires body { length body.now ≤ 1000000 }
        requires after { hsize (length self.old) ≤ at }
        requires within { at + (20 + length key.now + length body.now) ≤ length self.old }
        requires clear { (ps : List Place) × Holds self.old (length self.old) ps × ClearOf (place at key.now body.now expiry) ps }
        ensures stands { Stands self.new (length self.new) (place at key.now body.now expiry) }
        ensures others { (ps : List Place) → Holds self.old (length self.old) ps → ClearOf (place at key.now body.now expiry) ps → Holds self.new (length self.new) ps }
        ensures len { length self.new ≡ length self.old }
    {
        links::write(&mut self.arena, at, key, body, expiry);
    }

    /// A written entry becomes the newest of its bucket. All other chains stay.
    pub fn link_first(&mut self, bucket: u32, at: u32)
        requires { (ps : List Place) × (p : Place) × IsFresh self.old bucket at ps p }
        ensures first { (ps : List Place) (p : Place) → IsFresh self.old bucket at ps p → Holds self.new (length self.new) (p ∷ ps) }
        ensures len { length self.new ≡ length self.old }
    {
        links::link(&mut self.arena, bucket, at);
    }

    /// The last entry of a bucket leaves its chain. All other chains stay. The result is the entry's size in bytes.
    pub fn unlink_last(&mut self, at: u32) -> u32
        requires { (before behind : List Place) × (p : Place) × IsTail self.old at before behind p }
        ensures others { (before behind : List Place) (p : Place) → IsTail self.old at before behind p → Holds self.new (length self.new) (before ++ behind) }
        ensures size { (before behind : List Place) (p : Place) → IsTail self.old at before behind p → result ≡ entry_size p.entry }
        ensures len { length self.new ≡ length self.old }
    {
        links::unlink(&mut self.arena, at)
    }

    /// The place of the newest entry of a bucket, or 0 where it has none.
    pub fn first(&self, bucket: u32) -> u32
        requires { IsHead (length self.now) bucket }
        ensures { (ps : List Place) → Holds self.now (length self.now) ps → result ≡ first (chain (length self.now) bucket ps) }
    {
        self.arena.get4(bucket)
    }

    /// The place of the entry behind the one at `at`, or 0 where that is the last of its bucket. `prev` is the place in
    /// front of it, or the bucket's head.
    pub fn next(&self, prev: u32, at: u32) -> u32
        requires { (behind : List ℕ) × IsAfter self.now prev at behind }
        ensures { (behind : List ℕ) → IsAfter self.now prev at behind → result ≡ first behind }
    {
        prev ^ self.arena.get4(at)
    }

    /// The place of the first entry with a key among the first 101 of a bucket. Each entry that is read is a step.
    pub fn walk<L: Ledger>(&self, bucket: u32, key: &[u8], steps: &mut Steps<L>) -> Option<u32>
        requires { IsHead (length self.now) bucket }
        ensures first { (ps : List Place) → Holds self.now (length self.now) ps → result ≡ place_of 101 self.now key.now (chain (length self.now) bucket ps) }
        ensures cost { (ps : List Place) → Holds self.now (length self.now) ps → steps.new ≡ steps.old + reads 101 self.now key.now (chain (length self.now) bucket ps) }
        ensures most { steps.new ≤ steps.old + 101 }
    {
        links::walk(&self.arena, bucket, key, steps)
    }

    /// The body of the entry at a place.
    pub fn body(&self, at: u32) -> &[u8]
        requires { (e : Entry) × Stands self.now (length self.now) (record { at = at; entry = e }) }
        ensures { (e : Entry) → Stands self.now (length self.now) (record { at = at; entry = e }) → result.now ≡ e.body }
    {
        let key_len = self.arena.get4(at + 4);
        let body_len = self.arena.get4(at + 8);
        self.arena.slice(at + 20 + key_len, body_len)
    }

    /// The last second at which the entry at a place is known.
    pub fn expiry(&self, at: u32) -> u64
        requires { (e : Entry) × Stands self.now (length self.now) (record { at = at; entry = e }) }
        ensures { (e : Entry) → Stands self.now (length self.now) (record { at = at; entry = e }) → result ≡ e.expiry }
    {
        self.arena.get8(at + 12)
    }
}
