//! Links and entries in a block.
ghost use Rattle.std.specs.Prelude.{◌≡◌, ℕ, ◌+◌, ◌<◌, ◌≤◌, ◌^◌, length, List, [], ◌∷◌, ◌++◌, bytes_eq};
ghost use Rattle.dc_model.specs.Block.{get4};
ghost use Rattle.dc_model.specs.Cache.{hsize, entry_size};
ghost use Rattle.dc_model.specs.Chain.{key_at, IsBucket, place_of};
ghost use Rattle.dc_model.specs.Layout.{Place, EntryAt, ClearOf, Holds};
ghost use Rattle.dc_chain.specs.Chains.{place, IsFresh, IsTail, reads};

use crate::Steps;
use dc_arena::Arena;
use std::sync::ledger::Ledger;

/// Writes an entry, but for its link.
pub fn write(arena: &mut Arena, at: u32, key: &[u8], body: &[u8], expiry: u64)
    requires key { length key.now ≤ 1000 }
    requires body { length body.now ≤ 1000000 }
    requires small { length arena.old < 2 ^ 32 }
    requires room { at + (20 + length key.now + length body.now) ≤ length arena.old }
    ensures entry { EntryAt arena.new at (place at key.now body.now expiry).entry }
    ensures rest { (ps : List Place) → hsize (length arena.old) ≤ at → ClearOf (place at key.now body.now expiry) ps → Holds arena.old (length arena.old) ps → Holds arena.new (length arena.old) ps }
    ensures len { length arena.new ≡ length arena.old }
{
    arena.set4(at + 4, key.len() as u32);
    arena.set4(at + 8, body.len() as u32);
    arena.set8(at + 12, expiry);
    arena.copy_in(at + 20, key);
    arena.copy_in(at + 20 + key.len() as u32, body);
}

/// A written entry becomes the newest of its bucket.
pub fn link(arena: &mut Arena, head: u32, at: u32)
    requires { (ps : List Place) × (p : Place) × IsFresh arena.old head at ps p }
    ensures first { (ps : List Place) (p : Place) → IsFresh arena.old head at ps p → Holds arena.new (length arena.old) (p ∷ ps) }
    ensures len { length arena.new ≡ length arena.old }
{
    let first = arena.get4(head);
    arena.set4(at, head ^ first);
    if first != 0 {
        let link = arena.get4(first);
        arena.set4(first, link ^ head ^ at);
    }
    arena.set4(head, at);
}

/// The last entry of a bucket leaves its chain, and its size is the result.
pub fn unlink(arena: &mut Arena, at: u32) -> u32
    requires { (before behind : List Place) × (p : Place) × IsTail arena.old at before behind p }
    ensures others { (before behind : List Place) (p : Place) → IsTail arena.old at before behind p → Holds arena.new (length arena.old) (before ++ behind) }
    ensures size { (before behind : List Place) (p : Place) → IsTail arena.old at before behind p → result ≡ entry_size p.entry }
    ensures len { length arena.new ≡ length arena.old }
{
    let size = 20 + arena.get4(at + 4) + arena.get4(at + 8);
    let before = arena.get4(at);
    let link = arena.get4(before);
    arena.set4(before, link ^ at);
    size
}

/// Whether the entry at a place has the key. One step.
fn has_key<L: Ledger>(arena: &Arena, at: u32, key: &[u8], steps: &mut Steps<L>) -> bool
    requires size { length arena.now < 2 ^ 32 }
    requires inside { at + 20 + get4 arena.now (at + 4) + get4 arena.now (at + 8) ≤ length arena.now }
    ensures value { result ≡ bytes_eq (key_at arena.now at) key.now }
    ensures cost { steps.new ≡ steps.old + 1 }
{
    steps.tick();
    let len = arena.get4(at + 4);
    arena.slice(at + 20, len) == key
}

/// The place of the first of the first 101 entries of a bucket that has the key.
pub fn walk<L: Ledger>(arena: &Arena, bucket: u32, key: &[u8], steps: &mut Steps<L>) -> Option<u32>
    requires size { length arena.now < 2 ^ 32 }
    requires head { bucket + 4 ≤ length arena.now }
    requires chain { (ps : List ℕ) × IsBucket arena.now bucket ps }
    ensures first { (ps : List ℕ) → IsBucket arena.now bucket ps → result ≡ place_of 101 arena.now key.now ps }
    ensures cost { (ps : List ℕ) → IsBucket arena.now bucket ps → steps.new ≡ steps.old + reads 101 arena.now key.now ps }
    ensures most { steps.new ≤ steps.old + 101 }
{
    let mut before = bucket;
    let mut at = arena.get4(bucket);
    for i in 0..101u32 {
        if at == 0 {
            return None;
        }
        if has_key(arena, at, key, steps) {
            return Some(at);
        }
        let next = before ^ arena.get4(at);
        before = at;
        at = next;
    }
    None
}
