//! Two entries in one chain.
ghost use Rattle.std.specs.Prelude.{◌≡◌, ℕ, ◌+◌, ◌<◌, ◌≤◌, length, List, [], ◌∷◌};
ghost use Rattle.dc_model.specs.Cache.{bucket, hsize};
ghost use Rattle.dc_model.specs.Layout.{Place, ClearOf, Holds};
ghost use Rattle.dc_chain.specs.Chains.{place};

use crate::block::link;
use dc_chain::{Chains, Steps};
use std::marker::Brand;
use std::process::Abort;
use std::sync::ledger::{Blank, Ledger};
use std::test::Fail;

/// Writes an entry and makes it the newest of its bucket.
fn put_at(chains: &mut Chains, at: u32, key: &[u8], body: &[u8])
    requires key { length key.now ≤ 1000 }
    requires body { length body.now ≤ 1000000 }
    requires after { hsize (length chains.old) ≤ at }
    requires within { at + (20 + length key.now + length body.now) ≤ length chains.old }
    requires clear { (ps : List Place) × Holds chains.old (length chains.old) ps × ClearOf (place at key.now body.now 9) ps }
    ensures holds { (ps : List Place) → Holds chains.old (length chains.old) ps → ClearOf (place at key.now body.now 9) ps → Holds chains.new (length chains.new) (place at key.now body.now 9 ∷ ps) }
    ensures len { length chains.new ≡ length chains.old }
{
    chains.write(at, key, body, 9);
    let bucket = chains.bucket(key);
    chains.link_first(bucket, at);
}

/// Finds a key, with the steps counted.
pub fn find<L: Ledger>(chains: &Chains, key: &[u8], blank: Blank) -> Option<u32>
    requires name { blank.name ≡ L.name }
    requires parts { blank.parts ≡ L.parts }
    requires some { 0 < L.parts }
{
    let mut steps = Steps::<L>::new(blank);
    chains.walk(chains.bucket(key), key, &mut steps)
}

/// Where two entries stand, and what is in front of the newer one.
#[derive(Clone, Copy)]
struct Row {
    head: u32,
    older: u32,
    newer: u32,
}

/// Looks at two entries of one bucket.
fn look_at_two(
    rt: &impl Abort,
    chains: &Chains,
    row: Row,
    older_key: &[u8],
    newer_key: &[u8],
    body: &[u8],
)
    requires { Holds chains.now (length chains.now) (place row.newer newer_key.now body.now 9 ∷ place row.older older_key.now body.now 9 ∷ []) }
{
    let head = chains.bucket(older_key);
    let newer_head = chains.bucket(newer_key);
    if newer_head != head {
        panic!(rt; "the keys are in two buckets");
    }
    assert_eq!(rt; head, row.head);
    assert_eq!(rt; link(chains.bytes(), row.head), Some(row.newer));
    assert_eq!(rt; link(chains.bytes(), row.newer), Some(row.head ^ row.older));
    assert_eq!(rt; link(chains.bytes(), row.older), Some(row.newer));
    assert_eq!(rt; chains.first(head), row.newer);
    assert_eq!(rt; chains.next(head, row.newer), row.older);
    assert_eq!(rt; chains.next(row.newer, row.older), 0);
    assert_eq!(rt; chains.body(row.older), body);
    assert_eq!(rt; chains.expiry(row.newer), 9);
    assert_eq!(rt;
        find::<Brand>(chains, older_key, Blank::new(1)),
        Some(row.older)
    );
}

/// Puts two entries of one bucket into an empty block, and takes the older one out.
fn two_entries(
    rt: &impl Abort,
    chains: &mut Chains,
    row: Row,
    older_key: &[u8],
    newer_key: &[u8],
    body: &[u8],
)
    requires older_key { length older_key.now ≤ 1000 }
    requires newer_key { length newer_key.now ≤ 1000 }
    requires body { length body.now ≤ 1000000 }
    requires empty { Holds chains.old (length chains.old) [] }
    requires after { hsize (length chains.old) ≤ row.older }
    requires apart { row.older + (20 + length older_key.now + length body.now) ≤ row.newer }
    requires within { row.newer + (20 + length newer_key.now + length body.now) ≤ length chains.old }
{
    put_at(chains, row.older, older_key, body);
    put_at(chains, row.newer, newer_key, body);
    look_at_two(rt, chains, row, older_key, newer_key, body);
    let size = chains.unlink_last(row.older);
    assert_eq!(rt; size as usize, 20 + older_key.len() + body.len());
    assert_eq!(rt; link(chains.bytes(), row.head), Some(row.newer));
    assert_eq!(rt; link(chains.bytes(), row.newer), Some(row.head));
    assert_eq!(rt; find::<Brand>(chains, older_key, Blank::new(1)), None);
}

#[test]
fn two_entries_in_a_chain(rt: HostRuntime) -> Result<(), Fail> {
    let row = Row {
        head: 0,
        older: 4,
        newer: 52,
    };
    two_entries(
        &rt,
        &mut Chains::new(rt.alloc(), 100)?,
        row,
        b"k1",
        b"k2",
        &[7; 26],
    );
    let row = Row {
        head: 20,
        older: 128,
        newer: 150,
    };
    two_entries(
        &rt,
        &mut Chains::new(rt.alloc(), 3000)?,
        row,
        &[0, 0],
        &[1, 1],
        b"",
    );
    Ok(())
}
