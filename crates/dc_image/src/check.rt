//! Whether a block is the layout of a cache.
ghost use Rattle.std.specs.Prelude.{◌≡◌, ◌↔◌, ℕ, ◌≤◌, length, IfOk, IsTrue};
ghost use Rattle.dc_model.specs.Limits.{most_cache};
ghost use Rattle.dc_model.specs.Cache.{hsize};
ghost use Rattle.dc_image.specs.Gathered.{HasLayout, InOrder};
ghost use Rattle.dc_image.specs.Loaded.{marked};

use crate::fronts::Fronts;
use dc_bucket::hsize_of;
use dc_chain::{Marks, NoMemory};
use std::alloc::Global;

/// Whether marks lie in order in a block of `size` bytes, of which the heads take `heads`.
fn are_in_order(size: u32, heads: u32, marks: Marks) -> bool
    requires least { 100 ≤ size }
    requires most { size ≤ most_cache }
    requires heads { heads ≡ hsize size }
    ensures { IsTrue result ↔ InOrder size (marked marks) }
{
    heads <= marks.writer
        && marks.writer <= marks.oldest
        && marks.oldest <= marks.unused
        && marks.unused <= size
        && (marks.oldest != marks.unused || marks.unused == size)
}

/// Whether a block and marks are the layout of a cache. Each entry is read once, the oldest first, and no link is followed. It takes two words
/// of memory a head.
pub fn check_layout(alloc: Global, bytes: &[u8], marks: Marks) -> Result<bool, NoMemory>
    requires least { 100 ≤ length bytes.now }
    requires most { length bytes.now ≤ most_cache }
    ensures { IfOk result (λ is. IsTrue is ↔ HasLayout bytes.now (marked marks)) }
{
    let size = bytes.len() as u32;
    let heads = hsize_of(size);
    if !are_in_order(size, heads, marks) {
        return Ok(false);
    }
    let mut fronts = Fronts::new(alloc, heads)?;
    if !fronts.pass(bytes, marks.oldest, marks.unused) {
        return Ok(false);
    }
    if !fronts.pass(bytes, heads, marks.writer) {
        return Ok(false);
    }
    Ok(fronts.are_headed(bytes))
}
