//! Loading a cache from an image.
ghost use Rattle.std.specs.Prelude.{◌≡◌, ℕ, ◌+◌, ◌≤◌, List, length};
ghost use Rattle.dc_model.specs.Limits.{most_cache};
ghost use Rattle.dc_event.specs.Answers.{well_taken};
ghost use Rattle.dc_event.specs.Causes.{Fares};
ghost use Rattle.dc_image.specs.Image.{word_at};
ghost use Rattle.dc_image.specs.Loaded.{Adopts, Fills, Loads, MarksOf, TakesBlock, TakesEnd, TakesHead, TakesParts, marked, well_loaded};

use crate::check::check_layout;
use crate::save::{HEAD, SIGNATURE};
use dc_event::{Source, Taken};
use dc_ring::{ArenaStore, Marks};
use std::alloc::Global;

/// Why no image was loaded.
#[derive(Clone, Copy, Debug, PartialEq, Eq)]
pub enum ImageError {
    /// The source had no byte.
    Empty,
    /// What the source had isn't an image of that size with nothing behind it.
    Bad,
    /// The source failed.
    ReadFault,
    /// There wasn't memory enough.
    NoMemory,
}

/// Takes bytes until the buffer is full or the source has none left.
fn take_all<I: Source>(source: &mut I, into: &mut [u8]) -> Taken
    ensures took { (bytes : List ℕ) × I.took source.old bytes source.new × Fills result bytes into.new (I.left source.new) }
    ensures fares { Fares I.took I.refused I.faults (well_taken result) source.old source.new }
{
    let mut count = 0;
    while count < into.len() {
        match source.take(&mut into[count..]) {
            Taken::Bytes(0) => return Taken::Bytes(count),
            Taken::Bytes(more) => count += more,
            Taken::Failed => return Taken::Failed,
        }
    }
    Taken::Bytes(count)
}

/// The number of four bytes at a place of a head, high byte first.
fn word_at(head: &[u8; HEAD], at: usize) -> u32
    requires { at + 4 ≤ 24 }
    ensures { result ≡ word_at head.now at }
{
    let mut word = [0; 4];
    word.copy_from_slice(&head[at..at + 4]);
    u32::from_be_bytes(word)
}

/// The marks that a head has, where it has the signature and says this size.
fn marks_of(size: u32, head: &[u8; HEAD]) -> Option<Marks>
    ensures { MarksOf size head.now result }
{
    if &head[..8] != SIGNATURE.as_slice() || word_at(head, 8) != size {
        return None;
    }
    Some(Marks {
        writer: word_at(head, 12),
        oldest: word_at(head, 16),
        unused: word_at(head, 20),
    })
}

/// Takes the head of an image of this size.
fn take_head<I: Source>(size: u32, source: &mut I) -> Result<Marks, ImageError>
    ensures took { (bytes : List ℕ) × I.took source.old bytes source.new × TakesHead size bytes (I.left source.new) result }
    ensures fares { Fares I.took I.refused I.faults (well_loaded result) source.old source.new }
{
    let mut head = [0; HEAD];
    match take_all(source, &mut head) {
        Taken::Failed => Err(ImageError::ReadFault),
        Taken::Bytes(0) => Err(ImageError::Empty),
        Taken::Bytes(HEAD) => marks_of(size, &head).ok_or(ImageError::Bad),
        Taken::Bytes(_) => Err(ImageError::Bad),
    }
}

/// Takes the block of an image.
fn take_block<I: Source>(alloc: Global, size: u32, source: &mut I) -> Result<Vec<u8>, ImageError>
    ensures took { (bytes : List ℕ) × I.took source.old bytes source.new × TakesBlock size bytes (I.left source.new) result }
    ensures fares { Fares I.took I.refused I.faults (well_loaded result) source.old source.new }
{
    let Ok(mut block) = vec![in alloc; 0; size as usize] else {
        return Err(ImageError::NoMemory);
    };
    match take_all(source, &mut block) {
        Taken::Failed => Err(ImageError::ReadFault),
        Taken::Bytes(count) if count < size as usize => Err(ImageError::Bad),
        Taken::Bytes(_) => Ok(block),
    }
}

/// Asks the source for one byte more, where none may be.
fn take_end<I: Source>(source: &mut I) -> Result<(), ImageError>
    ensures took { (bytes : List ℕ) × I.took source.old bytes source.new × TakesEnd bytes (I.left source.new) result }
    ensures fares { Fares I.took I.refused I.faults (well_loaded result) source.old source.new }
{
    let mut more = [0];
    match source.take(&mut more) {
        Taken::Failed => Err(ImageError::ReadFault),
        Taken::Bytes(0) => Ok(()),
        Taken::Bytes(_) => Err(ImageError::Bad),
    }
}

/// What stands in an image: the marks, and the block.
#[derive(Drop)]
struct Parts {
    marks: Marks,
    block: Vec<u8>,
}

impl Parts {
    /// The store that they are, where they are the layout of a cache.
    fn adopt(self, alloc: Global) -> Result<ArenaStore, ImageError>
        requires least { 100 ≤ length self.block.items }
        requires most { length self.block.items ≤ most_cache }
        ensures { Adopts self.block.items (marked self.marks) result }
    {
        match check_layout(alloc, &self.block, self.marks) {
            Ok(true) => Ok(ArenaStore::adopt(self.block, self.marks)),
            Ok(false) => Err(ImageError::Bad),
            Err(_) => Err(ImageError::NoMemory),
        }
    }
}

/// Takes what stands in an image of this size, with nothing behind it.
fn take_parts<I: Source>(alloc: Global, size: u32, source: &mut I) -> Result<Parts, ImageError>
    ensures took { (bytes : List ℕ) × I.took source.old bytes source.new × (length bytes ≤ 24 + size + 1) × TakesParts size bytes (I.left source.new) result }
    ensures fares { Fares I.took I.refused I.faults (well_loaded result) source.old source.new }
{
    let marks = take_head(size, source)?;
    let block = take_block(alloc, size, source)?;
    take_end(source)?;
    Ok(Parts { marks, block })
}

/// Loads the image of a cache of `size` bytes that a source has left, with nothing behind it. At most one byte past the image is taken. The store
/// has the image's cache, and its motion is 0.
///
/// `Empty` comes exactly where the source has no byte left, and `Bad` exactly where what it has isn't such an image; both yield to `ReadFault`,
/// where the source fails before that is found out, and to `NoMemory`.
pub fn load_image<I: Source>(
    alloc: Global,
    size: u32,
    source: &mut I,
) -> Result<ArenaStore, ImageError>
    requires least { 100 ≤ size }
    requires most { size ≤ most_cache }
    ensures loads { (bytes : List ℕ) × I.took source.old bytes source.new × (length bytes ≤ 24 + size + 1) × Loads size bytes (I.left source.new) result }
    ensures fares { Fares I.took I.refused I.faults (well_loaded result) source.old source.new }
{
    let parts = take_parts(alloc, size, source)?;
    parts.adopt(alloc)
}
