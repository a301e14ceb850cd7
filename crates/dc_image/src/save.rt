//! Saving a cache as an image.
ghost use Rattle.std.specs.Prelude.{◌≡◌, ℕ};
ghost use Rattle.dc_event.specs.Causes.{Fares};
ghost use Rattle.dc_image.specs.Image.{head_of};
ghost use Rattle.dc_image.specs.Loaded.{Saves, marked, well_saved};

use dc_event::{Put, Sink, put_all};
use dc_ring::{ArenaStore, Marks};

/// How many bytes the head of an image has.
pub const HEAD: usize = 24;

/// The first bytes of an image.
pub const SIGNATURE: [u8; 8] = *b"dnscimg1";

/// How saving ended.
#[derive(Clone, Copy, Debug, PartialEq, Eq)]
pub enum Saved {
    /// The whole image was put.
    Whole,
    /// The sink failed.
    Failed,
}

/// The head of an image: the signature, the size of the block in bytes, and the three marks, each in four bytes, high byte first.
#[tactic(auto, unfolding(crate::specs::Image::head_of))]
fn head_of(size: u32, marks: Marks) -> [u8; HEAD]
    ensures { result ≡ head_of size (marked marks) }
{
    let mut head = [0; HEAD];
    head[..8].copy_from_slice(&SIGNATURE);
    head[8..12].copy_from_slice(&size.to_be_bytes());
    head[12..16].copy_from_slice(&marks.writer.to_be_bytes());
    head[16..20].copy_from_slice(&marks.oldest.to_be_bytes());
    head[20..].copy_from_slice(&marks.unused.to_be_bytes());
    head
}

/// Puts the image of a store: a head with its marks, and then its block. It takes no memory. Where the sink fails, a front of the image was put,
/// and that call was the last.
pub fn save_image<O: Sink>(store: &ArenaStore, sink: &mut O) -> Saved
    ensures saves { Saves O.gained store.now sink.old sink.new result }
    ensures fares { Fares O.gained O.refused O.faults (well_saved result) sink.old sink.new }
{
    let block = store.image();
    let head = head_of(block.len() as u32, store.marks());
    if let Put::Failed = put_all(sink, &head) {
        return Saved::Failed;
    }
    match put_all(sink, block) {
        Put::Taken(_) => Saved::Whole,
        Put::Failed => Saved::Failed,
    }
}
