//! What the block holds.
ghost use Rattle.std.specs.Prelude.{◌≡◌, ◌<◌};

use crate::chains::find;
use dc_arena::Arena;
use dc_bucket::{bucket_of, hash_of, hsize_of};
use dc_chain::Chains;
use dc_ring::{ArenaStore, Marks, NoMemory, Steps, Store};
use std::alloc::Global;
use std::marker::Brand;
use std::process::Abort;
use std::sync::ledger::{Blank, Ledger};
use std::test::Fail;

/// The link at a place.
pub fn link(image: &[u8], at: u32) -> Option<u32> {
    let link: [u8; 4] = image.get(at as usize..)?.get(..4)?.try_into().ok()?;
    Some(u32::from_le_bytes(link))
}

#[test]
fn heads_and_buckets(rt: HostRuntime) {
    for (size, heads) in [
        (100, 4),
        (1000, 32),
        (3000, 128),
        (1000000, 32768),
        (1000000000, 33554432),
    ] {
        assert_eq!(rt; hsize_of(size), heads, "at {size}");
    }
    for i in 0..=255u8 {
        assert_eq!(rt; bucket_of(128, &[i, i]), 20, "at {i}");
    }
    assert_eq!(rt; bucket_of(32, &[0, 1, 0]), 16);
    assert_eq!(rt; hash_of(b""), 5381);
    // 33 * (33 * 5381 xor 97) xor 98
    assert_eq!(rt; hash_of(b"ab"), 5860902);
}

/// The places, links and marks after each put.
#[test]
fn marks_and_links(rt: HostRuntime) -> Result<(), Fail> {
    let mut store = ArenaStore::new(rt.alloc(), 100)?;
    let body = [7u8; 75];
    let marks = |writer, oldest, unused| Marks {
        writer,
        oldest,
        unused,
    };
    assert!(rt; store.marks() == marks(4, 100, 100));
    store.put(b"k1", &body[..26], 100, 0);
    store.put(b"k2", &body[..26], 100, 0);
    assert!(rt; store.marks() == marks(100, 100, 100));
    assert_eq!(rt; link(store.image(), 0), Some(52));
    assert_eq!(rt; link(store.image(), 52), Some(4));
    assert_eq!(rt; link(store.image(), 4), Some(52));
    store.put(b"k3", &body[..26], 100, 0);
    assert!(rt; store.marks() == marks(52, 52, 100));
    assert_eq!(rt; link(store.image(), 0), Some(4));
    assert_eq!(rt; link(store.image(), 4), Some(52));
    assert_eq!(rt; link(store.image(), 52), Some(4));
    store.put(b"k4", &body[..74], 100, 0);
    assert!(rt; store.marks() == marks(100, 100, 100));
    store.put(b"k5", &body[..75], 100, 0);
    assert!(rt; store.marks() == marks(4, 100, 100));
    assert_eq!(rt; link(store.image(), 0), Some(0));
    assert_eq!(rt; store.image().len(), 100);
    Ok(())
}

/// A store over a copy of another one's block.
fn adopted_store(alloc: Global, store: &ArenaStore) -> Result<ArenaStore, NoMemory> {
    let bytes = store.image().to_vec(alloc)?;
    Ok(ArenaStore::adopt(bytes, store.marks()))
}

/// Chains over a copy of a store's block.
fn adopted_chains(alloc: Global, store: &ArenaStore) -> Result<Chains, NoMemory> {
    let bytes = store.image().to_vec(alloc)?;
    Ok(Chains::adopt(Arena::of(bytes), store.marks()))
}

/// Looks a key up with its steps counted.
fn is_counted<L: Ledger>(store: &ArenaStore, key: &[u8], blank: Blank) -> bool
    requires name { blank.name ≡ L.name }
    requires parts { blank.parts ≡ L.parts }
    requires some { 0 < L.parts }
{
    let mut steps = Steps::<L>::new(blank);
    store.get_counted(key, 0, &mut steps).is_some()
}

/// In 3000 bytes the keys `[i, i]` are one bucket: the oldest is found at its place while it is the 101st.
#[test]
fn the_101st_entry(rt: HostRuntime) -> Result<(), Fail> {
    let mut store = ArenaStore::new(rt.alloc(), 3000)?;
    for i in 0..101u8 {
        store.put(&[i, i], b"", 100, 0);
    }
    let chains = adopted_chains(rt.alloc(), &store)?;
    assert_eq!(rt; find::<Brand>(&chains, &[0, 0], Blank::new(1)), Some(128));
    assert!(rt; is_counted::<Brand>(&store, &[0, 0], Blank::new(1)));
    store.put(&[101, 101], b"", 100, 0);
    let chains = adopted_chains(rt.alloc(), &store)?;
    assert_eq!(rt; find::<Brand>(&chains, &[0, 0], Blank::new(1)), None);
    assert!(rt; !is_counted::<Brand>(&store, &[0, 0], Blank::new(1)));
    let again = adopted_store(rt.alloc(), &store)?;
    assert!(rt; again.marks() == store.marks());
    assert!(rt; again.get(&[0, 0], 0).is_none());
    assert!(rt; again.get(&[1, 1], 0).is_some());
    assert_eq!(rt; again.motion(), 0);
    Ok(())
}
