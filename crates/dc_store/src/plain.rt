//! The cache with its entries packed, newest first.
ghost use Rattle.std.specs.Prelude.{◌≡◌, ℕ, ◌+◌, ◌-◌, ◌*◌, ◌/◌, ◌%◌, ◌^◌, ◌<◌, ◌≤◌, ◌↔◌, length, ◌++◌, take, drop, min, max, option_map, true, IfOk, IsTrue};
ghost use Rattle.dc_model.specs.Limits.{least_cache, longest_body, longest_key, most_cache};
ghost use Rattle.dc_model.specs.Cache.{Cache, Entry, hsize, evicted, rotated, added, placed, has_room, empty};
ghost use Rattle.dc_store.specs.Lists.{entries, payload};
ghost use Rattle.dc_store.specs.Found.{entry_of, look_up};

use crate::{Hit, NoMemory, Store};
use dc_bucket::{bucket_of, hsize_of};
use dc_limits::{LEAST_CACHE, LONGEST_BODY, LONGEST_KEPT, LONGEST_KEY, MOST_CACHE};
use std::alloc::Global;
use std::marker::Model;

/// The lengths of an entry's key and body, and its last second.
#[derive(Clone, Copy)]
pub struct Record {
    key_len: u32,
    body_len: u32,
    expiry: u64,
}

/// A cache that keeps a list of its entries, newest first, and their keys and bodies packed in the same order. It takes
/// its memory in `new`. A look-up reads the entries one after another, and a put moves all of them.
#[derive(Drop)]
pub struct PlainStore {
    size: u32,
    heads: u32,
    records: Vec<Record>,
    bytes: Vec<u8>,
    young: usize,
    young_size: usize,
    old_size: usize,
    end: usize,
    motion: u64,
}

impl Model for PlainStore {
    ghost use Rattle.dc_model.specs.Cache.{Cache};

    ghost Value = { Cache };

    ghost use Rattle.dc_store.specs.Packed.{cache_of, IsPacked};

    ghost view = { cache_of };

    ghost invariant = { IsPacked };
}

/// An entry, lent.
#[derive(Clone, Copy)]
struct Found<'a> {
    key: &'a [u8],
    body: &'a [u8],
    expiry: u64,
}

/// The first of the first 101 entries of the key's bucket that has the key.
fn find_in<'a>(heads: u32, records: &[Record], bytes: &'a [u8], key: &[u8]) -> Option<Found<'a>>
    requires heads { 4 ≤ heads }
    requires block { payload records.now ≤ length bytes.now }
    ensures { (size : ℕ) → heads ≡ hsize size → option_map entry_of result ≡ look_up 101 size key.now (entries records.now bytes.now) }
{
    let bucket = bucket_of(heads, key);
    let mut at: usize = 0;
    let mut seen: u32 = 0;
    for record in records {
        let key_end = at + record.key_len as usize;
        let end = key_end + record.body_len as usize;
        let found = Found {
            key: &bytes[at..key_end],
            body: &bytes[key_end..end],
            expiry: record.expiry,
        };
        if bucket_of(heads, found.key) == bucket {
            if found.key == key {
                return Some(found);
            }
            seen += 1;
            if seen == 101 {
                return None;
            }
        }
        at = end;
    }
    None
}

/// Writes a key and a body in front of the used bytes.
fn write_front(bytes: &mut [u8], used: usize, key: &[u8], body: &[u8])
    requires { used + length key.now + length body.now ≤ length bytes.old }
    ensures { bytes.new ≡ key.now ++ (body.now ++ (take used bytes.old ++ drop (length key.now + length body.now + used) bytes.old)) }
{
    let n = key.len() + body.len();
    bytes.copy_within(0..used, n);
    bytes[..key.len()].copy_from_slice(key);
    bytes[key.len()..n].copy_from_slice(body);
}

/// The bytes of an entry.
fn size_of_record(of: &Record) -> usize
    ensures { result ≡ 20 + of.now.key_len + of.now.body_len }
{
    20 + of.key_len as usize + of.body_len as usize
}

impl PlainStore {
    /// An empty cache of a size that is brought into 100 to 1000000000.
    #[tactic(auto, using(dc_model::proofs::SizeLemmas::hsize_most))]
    pub fn new(alloc: Global, size: u32) -> Result<PlainStore, NoMemory>
        ensures { IfOk result (λ s. s ≡ empty (min (max size least_cache) most_cache)) }
    {
        let size = size.max(LEAST_CACHE).min(MOST_CACHE);
        let heads = hsize_of(size);
        let capacity = (size - heads) as usize;
        let records = Vec::with_capacity(alloc, capacity / 20)?;
        let bytes = vec![in alloc; 0; capacity]?;
        Ok(PlainStore {
            size,
            heads,
            records,
            bytes,
            young: 0,
            young_size: 0,
            old_size: 0,
            end: capacity,
            motion: 0,
        })
    }

    /// The oldest entry leaves.
    fn evict(&mut self)
        requires { 0 < length self.old.old }
        ensures { self.new ≡ evicted self.old }
    {
        if let Some(last) = self.records.pop() {
            self.old_size -= size_of_record(&last);
            if self.young == self.records.len() {
                self.end = self.bytes.len();
            }
        }
    }

    /// What is young becomes old.
    fn rotate(&mut self)
        requires old { length self.old.old ≡ 0 }
        requires young { 0 < length self.old.young }
        ensures { self.new ≡ rotated self.old }
    {
        self.young = 0;
        self.old_size = self.young_size;
        self.young_size = 0;
        self.end = self.old_size;
    }

    /// Puts an entry in front.
    fn add(&mut self, key: &[u8], body: &[u8], expiry: u64)
        requires key { length key.now ≤ longest_key }
        requires body { length body.now ≤ longest_body }
        requires room { has_room self.old (20 + length key.now + length body.now) ≡ true }
        ensures { self.new ≡ added (record { key = key.now; body = body.now; expiry = expiry }) self.old }
    {
        let n = 20 + key.len() + body.len();
        let used = self.young_size + self.old_size - 20 * self.records.len();
        write_front(&mut self.bytes, used, key, body);
        let record = Record {
            key_len: key.len() as u32,
            body_len: body.len() as u32,
            expiry,
        };
        self.records.insert(0, record).unwrap();
        self.young += 1;
        self.young_size += n;
        self.motion = self.motion.saturating_add(n as u64);
    }

    fn has_room(&self, n: usize) -> bool
        requires { n < 2 ^ 32 }
        ensures { result ≡ has_room self.now n }
    {
        self.young_size + n <= self.end - self.old_size
    }

    fn has_no_old(&self) -> bool
        ensures { IsTrue result ↔ (length self.now.old ≡ 0) }
    {
        self.young == self.records.len()
    }

    fn has_no_young(&self) -> bool
        ensures { IsTrue result ↔ (length self.now.young ≡ 0) }
    {
        self.young == 0
    }

    /// Makes room and puts the entry in front, or leaves nothing.
    fn place(&mut self, key: &[u8], body: &[u8], expiry: u64)
        requires key { length key.now ≤ longest_key }
        requires body { length body.now ≤ longest_body }
        ensures { self.new ≡ placed (record { key = key.now; body = body.now; expiry = expiry }) self.old }
    {
        let n = 20 + key.len() + body.len();
        'room: while !self.has_room(n) {
            if self.has_no_old() {
                if self.has_no_young() {
                    return;
                }
                self.rotate();
            } else {
                self.evict();
            }
        }
        self.add(key, body, expiry);
    }
}

impl Store for PlainStore {
    ghost cache = { λ s. s };

    fn get(&self, key: &[u8], now: u64) -> Option<Hit<'_>> {
        match find_in(self.heads, &self.records, &self.bytes, key) {
            None => None,
            Some(found) => Hit::of(found.body, found.expiry, now),
        }
    }

    fn put(&mut self, key: &[u8], body: &[u8], ttl: u32, now: u64) {
        if key.len() > LONGEST_KEY || body.len() > LONGEST_BODY || ttl == 0 {
            return;
        }
        self.place(key, body, now + ttl.min(LONGEST_KEPT) as u64);
    }

    fn motion(&self) -> u64 {
        self.motion
    }
}
