//! The image of a small cache, as it is and changed.
ghost use Rattle.std.specs.Prelude.{◌≤◌};

use dc_event::{QuietSink, QuietSource};
use dc_image::{load_image, save_image};
use dc_ring::ArenaStore;
use dc_store::Store;
use std::alloc::{AllocError, Global};
use std::io;

/// The size of the cache in bytes.
const SIZE: u32 = 100;

/// The most bytes of an image.
const MOST_IMAGE: usize = 200;

/// Where an image has the first byte of the link of the entry at place 4: behind a head of 24 bytes.
const LINK: usize = 28;

/// The image of a cache that was put three entries of 48 bytes, of which the first had to leave.
fn image_of(alloc: Global) -> Result<Vec<u8>, AllocError> {
    let mut store = ArenaStore::new(alloc, SIZE)?;
    for number in 1..4u8 {
        store.put(&[number; 14], &[number; 14], 600, 1);
    }
    let mut sink = QuietSink::new(alloc, MOST_IMAGE)?;
    let _saved = save_image(&store, &mut sink);
    sink.held().unwrap_or(b"").to_vec(alloc)
}

/// Says how an image loads as a cache of this size.
fn say(rt: &HostRuntime, what: &str, size: u32, image: Vec<u8>) -> io::Result<()>
    requires least { 100 ≤ size }
    requires most { size ≤ 1000000000 }
{
    match load_image(rt.alloc(), size, &mut QuietSource::new(image)) {
        Ok(store) => {
            let marks = store.marks();
            println!(rt.stdout();
                "{}: marks {} {} {}",
                what, marks.writer, marks.oldest, marks.unused
            )
        }
        Err(error) => println!(rt.stdout(); "{}: {:?}", what, error),
    }
}

/// Says how the image loads, as it is and changed.
pub fn say_all(rt: &HostRuntime) -> io::Result<()> {
    let image = image_of(rt.alloc())?;
    println!(rt.stdout(); "an image of {} bytes", image.len())?;
    say(rt, "as it is", SIZE, image.clone()?)?;
    let mut linked = image.clone()?;
    if let Some(link) = linked.get_mut(LINK) {
        println!(rt.stdout(); "the link at place 4 is {}", *link)?;
        *link = 51;
    }
    say(rt, "with 51 for it", SIZE, linked)?;
    let mut short = image.clone()?;
    let _last = short.pop();
    say(rt, "without its last byte", SIZE, short)?;
    let mut long = image.clone()?;
    long.push(0)?;
    say(rt, "with one byte more", SIZE, long)?;
    say(rt, "at a size of 101", 101, image)
}
