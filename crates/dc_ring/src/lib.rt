//! The cache in one block of bytes, as a ring: new entries are written behind the newest, and the oldest leave in front
//! of them (djbdns' cache.c).
#![tactic(auto)]

ghost use Rattle.std.specs.Prelude.{◌≡◌, ℕ, ◌+◌, ◌-◌, ◌<◌, ◌≤◌, ◌↔◌, ◌^◌, length, List, true, option_map, IfOk, IsTrue, min, max};
ghost use Rattle.dc_model.specs.Limits.{least_cache, longest_body, longest_key, most_cache};
ghost use Rattle.dc_model.specs.Cache.{Cache, Entry, evicted, rotated, added, placed, has_room, empty, get};
ghost use Rattle.dc_model.specs.Layout.{Layout};
ghost use Rattle.dc_store.specs.Lent.{hit_value};
ghost use Rattle.dc_ring.specs.Image.{writer_of, oldest_of, unused_of, IsImage};

use dc_arena::Arena;
use dc_chain::Chains;
pub use dc_chain::{Marks, Steps};
use dc_limits::{LEAST_CACHE, LONGEST_BODY, LONGEST_KEPT, LONGEST_KEY, MOST_CACHE};
pub use dc_store::{Hit, NoMemory, PlainStore, Store};
use std::alloc::Global;
use std::marker::{Brand, Model};
use std::sync::ledger::{Blank, Ledger};

/// A cache that keeps its entries in one block of bytes, each linked in the chain of its bucket, and three marks. It
/// takes its memory in `new`. A look-up reads at most 101 entries and copies nothing; a put costs the bytes that it
/// writes and the entries that leave.
#[derive(Drop)]
pub struct ArenaStore {
    chains: Chains,
    writer: u32,
    oldest: u32,
    unused: u32,
    motion: u64,
}

impl Model for ArenaStore {
    ghost use Rattle.dc_model.specs.Cache.{Cache};

    ghost Value = { Cache };

    ghost use Rattle.dc_ring.specs.Ring.{cache_of, IsRing};

    ghost view = { cache_of };

    ghost invariant = { IsRing };
}

impl ArenaStore {
    /// An empty cache of a size that is brought into 100 to 1000000000 bytes.
    pub fn new(alloc: Global, size: u32) -> Result<ArenaStore, NoMemory>
        ensures { IfOk result (λ s. s ≡ empty (min (max size least_cache) most_cache)) }
    {
        let size = size.max(LEAST_CACHE).min(MOST_CACHE);
        let chains = Chains::new(alloc, size)?;
        let writer = chains.hsize();
        Ok(ArenaStore {
            chains,
            writer,
            oldest: size,
            unused: size,
            motion: 0,
        })
    }

    /// The cache of a block and marks that are a layout of it. Motion begins at 0.
    pub fn adopt(bytes: Vec<u8>, marks: Marks) -> ArenaStore
        requires { (c : Cache) × Layout bytes.items marks.writer marks.oldest marks.unused c }
        ensures { (c : Cache) → Layout bytes.items marks.writer marks.oldest marks.unused c → result ≡ record { size = c.size; young = c.young; old = c.old; end = c.end; motion = 0 } }
    {
        ArenaStore {
            chains: Chains::adopt(Arena::of(bytes), marks),
            writer: marks.writer,
            oldest: marks.oldest,
            unused: marks.unused,
            motion: 0,
        }
    }

    /// The whole block.
    pub fn image(&self) -> &[u8]
        ensures { IsImage result.now self.now }
    {
        self.chains.bytes()
    }

    /// Where the entries in the block begin and end.
    pub fn marks(&self) -> Marks
        ensures { result ≡ record { writer = writer_of self.now; oldest = oldest_of self.now; unused = unused_of self.now } }
    {
        Marks {
            writer: self.writer,
            oldest: self.oldest,
            unused: self.unused,
        }
    }

    /// As `get`. Each entry that is read is a step.
    pub fn get_counted<L: Ledger>(
        &self,
        key: &[u8],
        now: u64,
        steps: &mut Steps<L>,
    ) -> Option<Hit<'_>>
        ensures same { option_map hit_value result ≡ get key.now now self.now }
        ensures most { steps.new ≤ steps.old + 101 }
    {
        let bucket = self.chains.bucket(key);
        match self.chains.walk(bucket, key, steps) {
            None => None,
            Some(at) => Hit::of(self.chains.body(at), self.chains.expiry(at), now),
        }
    }

    /// As `get`, with nothing counted.
    fn get_by<L: Ledger>(&self, key: &[u8], now: u64, blank: Blank) -> Option<Hit<'_>>
        requires name { blank.name ≡ L.name }
        requires parts { blank.parts ≡ L.parts }
        requires some { 0 < L.parts }
        ensures { option_map hit_value result ≡ get key.now now self.now }
    {
        let mut steps = Steps::<L>::new(blank);
        self.get_counted(key, now, &mut steps)
    }

    /// What is young becomes old.
    fn rotate(&mut self)
        requires old { length self.old.old ≡ 0 }
        requires young { 0 < length self.old.young }
        ensures { self.new ≡ rotated self.old }
    {
        let heads = self.chains.hsize();
        self.unused = self.writer;
        self.oldest = heads;
        self.writer = heads;
    }

    /// The oldest entry leaves.
    fn evict(&mut self)
        requires { 0 < length self.old.old }
        ensures { self.new ≡ evicted self.old }
    {
        let size = self.chains.unlink_last(self.oldest);
        self.oldest += size;
        if self.oldest == self.unused {
            self.oldest = self.chains.bytes().len() as u32;
            self.unused = self.oldest;
        }
    }

    /// Puts an entry in front.
    fn add(&mut self, key: &[u8], body: &[u8], expiry: u64)
        requires key { length key.now ≤ longest_key }
        requires body { length body.now ≤ longest_body }
        requires room { has_room self.old (20 + length key.now + length body.now) ≡ true }
        ensures { self.new ≡ added (record { key = key.now; body = body.now; expiry = expiry }) self.old }
    {
        let at = self.writer;
        let size = 20 + key.len() as u32 + body.len() as u32;
        self.chains.write(at, key, body, expiry);
        let bucket = self.chains.bucket(key);
        self.chains.link_first(bucket, at);
        self.writer = at + size;
        self.motion = self.motion.saturating_add(u64::from(size));
    }

    fn has_room(&self, size: u32) -> bool
        requires { size < 2 ^ 30 }
        ensures { result ≡ has_room self.now size }
    {
        self.writer + size <= self.oldest
    }

    fn has_no_old(&self) -> bool
        ensures { IsTrue result ↔ (length self.now.old ≡ 0) }
    {
        self.oldest == self.unused
    }

    fn has_no_young(&self) -> bool
        ensures { IsTrue result ↔ (length self.now.young ≡ 0) }
    {
        self.writer == self.chains.hsize()
    }

    /// Makes room and puts the entry in front, or leaves nothing.
    fn place(&mut self, key: &[u8], body: &[u8], expiry: u64)
        requires key { length key.now ≤ longest_key }
        requires body { length body.now ≤ longest_body }
        ensures { self.new ≡ placed (record { key = key.now; body = body.now; expiry = expiry }) self.old }
    {
        let size = 20 + key.len() as u32 + body.len() as u32;
        'room: while !self.has_room(size) {
            if self.has_no_old() {
                if self.has_no_young() {
                    return;
                }
                self.rotate();
            } else {
                self.evict();
            }
        }
        self.add(key, body, expiry);
    }
}

impl Store for ArenaStore {
    ghost cache = { λ s. s };

    fn get(&self, key: &[u8], now: u64) -> Option<Hit<'_>> {
        self.get_by::<Brand>(key, now, Blank::new(1))
    }

    fn put(&mut self, key: &[u8], body: &[u8], ttl: u32, now: u64) {
        if key.len() > LONGEST_KEY || body.len() > LONGEST_BODY || ttl == 0 {
            return;
        }
        self.place(key, body, now + u64::from(ttl.min(LONGEST_KEPT)));
    }

    fn motion(&self) -> u64 {
        self.motion
    }
}
