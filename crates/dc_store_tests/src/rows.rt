//! Worked rows on any store.
use dc_ring::ArenaStore;
use dc_store::{Hit, PlainStore, Store};
use std::process::Abort;
use std::test::Fail;

/// What is done to a store, and what is seen of it. A body has so many bytes of 7.
#[derive(Clone, Copy)]
enum Step<'a> {
    Put {
        key: &'a [u8],
        body: usize,
        ttl: u32,
        now: u32,
    },
    Hit {
        key: &'a [u8],
        now: u32,
        body: usize,
        ttl: u32,
    },
    Miss {
        key: &'a [u8],
        now: u32,
    },
    Motion(u64),
}

const BODY: [u8; 1100] = [7; 1100];

/// Does the steps in order.
fn follow<S: Store>(rt: &impl Abort, store: &mut S, steps: &[Step<'_>]) {
    for (i, step) in steps.iter().enumerate() {
        match step {
            Step::Put {
                key,
                body,
                ttl,
                now,
            } => store.put(key, &BODY[..(*body).min(1100)], *ttl, u64::from(*now)),
            Step::Hit {
                key,
                now,
                body,
                ttl,
            } => {
                let hit = store.get(key, u64::from(*now));
                let seen = hit.map(|hit| (hit.body, hit.ttl));
                let body = &BODY[..(*body).min(1100)];
                assert_eq!(rt; seen, Some((body, *ttl)), "at step {i}");
            }
            Step::Miss { key, now } => {
                assert!(rt; store.get(key, u64::from(*now)).is_none(), "at step {i}");
            }
            Step::Motion(motion) => assert_eq!(rt; store.motion(), *motion, "at step {i}"),
        }
    }
}

fn put(key: &[u8], body: usize) -> Step<'_> {
    Step::Put {
        key,
        body,
        ttl: 100,
        now: 0,
    }
}

fn hit(key: &[u8], body: usize) -> Step<'_> {
    Step::Hit {
        key,
        now: 0,
        body,
        ttl: 100,
    }
}

fn miss(key: &[u8]) -> Step<'_> {
    Step::Miss { key, now: 0 }
}

/// In 100 bytes, of which 96 are for entries.
fn rows_of_100<S: Store>(rt: &impl Abort, store: &mut S) {
    let steps = [
        // three entries of 48 bytes: the third takes the place of the first
        put(b"k1", 26),
        put(b"k2", 26),
        Step::Motion(96),
        put(b"k3", 26),
        Step::Motion(144),
        miss(b"k1"),
        hit(b"k2", 26),
        hit(b"k3", 26),
        // what is refused changes nothing
        put(&BODY[..1001], 0),
        Step::Put {
            key: b"k4",
            body: 1,
            ttl: 0,
            now: 0,
        },
        Step::Motion(144),
        hit(b"k2", 26),
        miss(&BODY[..1001]),
        // one of 96 bytes takes all
        put(b"k4", 74),
        Step::Motion(240),
        miss(b"k2"),
        miss(b"k3"),
        hit(b"k4", 74),
        // one of 97 bytes has no room, and leaves nothing
        put(b"k5", 75),
        Step::Motion(240),
        miss(b"k4"),
        miss(b"k5"),
        // the cache goes on
        put(b"k6", 0),
        hit(b"k6", 0),
    ];
    follow(rt, store, &steps);
}

/// Lifetimes, and a key that is put twice.
fn rows_of_lives<S: Store>(rt: &impl Abort, store: &mut S) {
    let later = |now, ttl| Step::Hit {
        key: b"k",
        now,
        body: 1,
        ttl,
    };
    let steps = [
        put(b"k", 1),
        Step::Put {
            key: b"k",
            body: 1,
            ttl: 10,
            now: 0,
        },
        // both entries are kept, and the newer one decides
        Step::Motion(44),
        later(10, 0),
        Step::Miss { key: b"k", now: 11 },
        // a week at most, also where the clock went back
        Step::Put {
            key: b"k",
            body: 1,
            ttl: 604801,
            now: 100,
        },
        later(100, 604800),
        later(604900, 0),
        Step::Miss {
            key: b"k",
            now: 604901,
        },
        later(0, 604800),
    ];
    follow(rt, store, &steps);
}

/// In 3000 bytes: of the keys `[i, i]`, all in one bucket, the newest 101 are seen.
fn row_of_101<S: Store>(rt: &impl Abort, store: &mut S) {
    for i in 0..101u8 {
        store.put(&[i, i], b"", 100, 0);
    }
    assert!(rt; store.get(&[0, 0], 0).is_some());
    store.put(&[101, 101], b"", 100, 0);
    assert!(rt; store.get(&[0, 0], 0).is_none());
    assert!(rt; store.get(&[1, 1], 0).is_some());
}

fn may_move<T: Send>(_value: &T) {}

#[test]
fn rows(rt: HostRuntime) -> Result<(), Fail> {
    rows_of_100(&rt, &mut PlainStore::new(rt.alloc(), 100)?);
    rows_of_100(&rt, &mut ArenaStore::new(rt.alloc(), 100)?);
    // a size is brought into range
    rows_of_100(&rt, &mut PlainStore::new(rt.alloc(), 0)?);
    rows_of_100(&rt, &mut ArenaStore::new(rt.alloc(), 99)?);
    rows_of_lives(&rt, &mut PlainStore::new(rt.alloc(), 1000)?);
    rows_of_lives(&rt, &mut ArenaStore::new(rt.alloc(), 1000)?);
    row_of_101(&rt, &mut PlainStore::new(rt.alloc(), 3000)?);
    Ok(())
}

/// Takes memory once, for the block: it is also run with every later request refused, outside the gate.
#[test]
fn row_in_one_block(rt: HostRuntime) -> Result<(), Fail> {
    row_of_101(&rt, &mut ArenaStore::new(rt.alloc(), 3000)?);
    Ok(())
}

#[test]
fn stores_may_move(rt: HostRuntime) -> Result<(), Fail> {
    may_move(&PlainStore::new(rt.alloc(), 100)?);
    may_move(&ArenaStore::new(rt.alloc(), 100)?);
    Ok(())
}
