//! The same puts and look-ups on both stores.
use dc_ring::ArenaStore;
use dc_store::{PlainStore, Store};
use std::test::Fail;

/// The next of a row of numbers that look random.
fn next(state: u32) -> u32 {
    state.wrapping_mul(1664525).wrapping_add(1013904223)
}

/// Puts and look-ups of some 200 keys, of which each is looked up again: both stores give the same.
#[test]
fn both_give_the_same(rt: HostRuntime) -> Result<(), Fail> {
    let mut bytes = [0u8; 256];
    for (i, byte) in (0..=255u8).zip(bytes.iter_mut()) {
        *byte = i;
    }
    for size in [100u32, 700, 3000, 20000] {
        let mut plain = PlainStore::new(rt.alloc(), size)?;
        let mut ring = ArenaStore::new(rt.alloc(), size)?;
        let mut state = size;
        let mut hits = 0u32;
        for second in 0..2000u32 {
            state = next(state);
            let key = [(state >> 24) as u8, (state >> 23 & 3) as u8];
            let len = (state >> 8) as usize & 127;
            let ttl = state >> 16 & 1023;
            let now = u64::from(second);
            let body = &bytes[len..2 * len];
            plain.put(&key, body, ttl, now);
            ring.put(&key, body, ttl, now);
            assert_eq!(rt; plain.motion(), ring.motion(), "at {second} of {size}");
            for low in 0..4u8 {
                let key = [(state >> 13 & 255) as u8, low];
                let seen = plain.get(&key, now).map(|hit| (hit.body, hit.ttl));
                let found = ring.get(&key, now).map(|hit| (hit.body, hit.ttl));
                assert_eq!(rt; seen, found, "at {second} of {size}");
                if seen.is_some() {
                    hits = hits.saturating_add(1);
                }
            }
        }
        assert!(rt; hits > 0, "no hits at {size}");
    }
    Ok(())
}
