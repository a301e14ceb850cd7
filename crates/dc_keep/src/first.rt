//! The first cache of a service that keeps its cache.
ghost use Rattle.std.specs.Prelude.{◌≡◌, ◌+◌, ◌≤◌, ℕ, List, length, min, max};
ghost use Rattle.dc_model.specs.Limits.{least_cache, most_cache};
ghost use Rattle.dc_event.specs.Causes.{Fares};
ghost use Rattle.dc_keep.specs.First.{Begins, well_begun};

use dc_event::Source;
use dc_image::{ImageError, load_image};
use dc_limits::{LEAST_CACHE, MOST_CACHE};
use dc_ring::ArenaStore;
use std::alloc::Global;

/// The store of the image that a source has left, whose size is brought into 100 to 1000000000 bytes; an empty one, where it has no byte.
/// `Empty` never comes.
pub fn first_store<I: Source>(
    alloc: Global,
    size: u32,
    image: &mut I,
) -> Result<ArenaStore, ImageError>
    ensures begins { (bytes : List ℕ) × I.took image.old bytes image.new × (length bytes ≤ 24 + min (max size least_cache) most_cache + 1) × Begins (min (max size least_cache) most_cache) bytes (I.left image.new) result }
    ensures fares { Fares I.took I.refused I.faults (well_begun result) image.old image.new }
{
    let size = size.max(LEAST_CACHE).min(MOST_CACHE);
    match load_image(alloc, size, image) {
        Ok(store) => Ok(store),
        Err(ImageError::Empty) => match ArenaStore::new(alloc, size) {
            Ok(empty) => Ok(empty),
            Err(_) => Err(ImageError::NoMemory),
        },
        Err(error) => Err(error),
    }
}
