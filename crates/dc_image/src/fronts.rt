//! Going over the entries of a block, from the oldest to the newest, with two numbers a bucket.
ghost use Rattle.std.specs.Prelude.{◌≡◌, ◌↔◌, ℕ, ◌+◌, ◌*◌, ◌<◌, ◌≤◌, ◌^◌, List, [], length, IfOk, IsTrue};
ghost use Rattle.dc_model.specs.Limits.{most_cache};
ghost use Rattle.dc_model.specs.Cache.{hsize};
ghost use Rattle.dc_model.specs.Block.{get4, part};
ghost use Rattle.dc_model.specs.Layout.{Place, IsHead};
ghost use Rattle.dc_image.specs.Fronts.{AreNoted, AreNewest, Ends, Fits, Notes, Passes};

use dc_bucket::bucket_of;
use dc_chain::NoMemory;
use dc_limits::{LONGEST_BODY, LONGEST_KEY};
use std::alloc::Global;

/// How many bytes stand before an entry's key: its link, two lengths and the expiry.
const ENTRY_HEAD: u32 = 20;

/// The number of four bytes at a place, low byte first.
#[tactic(auto, unfolding(dc_model::specs::Block::get4))]
fn number_at(block: &[u8], at: u32) -> u32
    requires { at + 4 ≤ length block.now }
    ensures { result ≡ get4 block.now at }
{
    let at = at as usize;
    let mut word = [0; 4];
    word.copy_from_slice(&block[at..at + 4]);
    u32::from_le_bytes(word)
}

/// The place behind the entry at a place, where that is within the limits and ends at `up` at the latest.
fn end_of(block: &[u8], at: u32, up: u32) -> Option<u32>
    requires most { length block.now ≤ most_cache }
    requires within { up ≤ length block.now }
    requires before { at < up }
    ensures { Ends block.now at up result }
{
    if up - at < ENTRY_HEAD {
        return None;
    }
    let key = number_at(block, at + 4);
    let body = number_at(block, at + 8);
    if key > LONGEST_KEY as u32 || body > LONGEST_BODY as u32 {
        return None;
    }
    let end = at + ENTRY_HEAD + key + body;
    (end <= up).then_some(end)
}

/// Of a bucket, the newest entry that was gone over, or 0 where there was none, and the place that its link asks for in front of it.
#[derive(Clone, Copy)]
pub struct Front {
    newest: u32,
    awaited: u32,
}

impl Front {
    /// Whether this place may stand in front of the newest.
    fn fits(self, at: u32) -> bool
        ensures { IsTrue result ↔ Fits self at }
    {
        self.newest == 0 || self.awaited == at
    }
}

/// The bucket of each head, while a block is gone over.
#[derive(Drop)]
pub struct Fronts {
    fronts: Vec<Front>,
    heads: u32,
}

impl Fronts {
    /// No entry was gone over. `heads` is how many bytes the heads take.
    pub fn new(alloc: Global, heads: u32) -> Result<Fronts, NoMemory>
        ensures { IfOk result (λ fs. (block : List ℕ) → heads ≡ hsize (length block) → AreNoted block [] fs) }
    {
        let none = Front {
            newest: 0,
            awaited: 0,
        };
        let fronts = vec![in alloc; none; heads as usize / 4]?;
        Ok(Fronts { fronts, heads })
    }

    /// Goes over the entry at a place. The result is the place behind it; nothing where a layout has no such entry, or no such link of the
    /// entry that was the newest of its bucket.
    fn note(&mut self, block: &[u8], at: u32, up: u32) -> Option<u32>
        requires most { length block.now ≤ most_cache }
        requires within { up ≤ length block.now }
        requires before { at < up }
        requires behind { hsize (length block.now) ≤ at }
        requires noted { (ps : List Place) × AreNoted block.now ps self.old }
        ensures { (ps : List Place) → AreNoted block.now ps self.old → Notes block.now at up ps self.new result }
    {
        let end = end_of(block, at, up)?;
        let key = (at + ENTRY_HEAD) as usize;
        let head = bucket_of(
            self.heads,
            &block[key..key + number_at(block, at + 4) as usize],
        );
        let front = self.fronts[head as usize / 4];
        if !front.fits(at) {
            return None;
        }
        self.fronts[head as usize / 4] = Front {
            newest: at,
            awaited: number_at(block, at) ^ front.newest,
        };
        Some(end)
    }

    /// Goes over the entries that lie end to end from a place up to another one, the oldest first. False where a layout has no such entries,
    /// or no such links.
    pub fn pass(&mut self, block: &[u8], from: u32, up: u32) -> bool
        requires most { length block.now ≤ most_cache }
        requires within { up ≤ length block.now }
        requires order { from ≤ up }
        requires behind { hsize (length block.now) ≤ from }
        requires noted { (ps : List Place) × AreNoted block.now ps self.old }
        ensures { (ps : List Place) → AreNoted block.now ps self.old → Passes block.now from up ps self.new result }
    {
        let mut at = from;
        'entries: while at < up {
            match self.note(block, at, up) {
                Some(end) => at = end,
                None => return false,
            }
        }
        true
    }

    /// Whether each head links to the newest entry of its bucket, and that entry to the head.
    pub fn are_headed(&self, block: &[u8]) -> bool
        requires least { 100 ≤ length block.now }
        requires most { length block.now ≤ most_cache }
        requires noted { (ps : List Place) × AreNoted block.now ps self.now }
        ensures { (ps : List Place) → AreNoted block.now ps self.now → IsTrue result ↔ AreNewest block.now ps }
    {
        for index in 0..self.fronts.len() {
            let front = self.fronts[index];
            let head = 4 * index as u32;
            if number_at(block, head) != front.newest || !front.fits(head) {
                return false;
            }
        }
        true
    }
}
