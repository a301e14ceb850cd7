//! Keys of the cache.
ghost use Rattle.std.specs.Prelude.{◌≡◌, ◌≢◌, ◌*◌, ◌^◌, ◌+◌, ◌<◌, ◌≤◌, [], ◌∷◌, ◌++◌, length, drop, option_map};
ghost use Rattle.dc_model.specs.Name as model;
ghost use Rattle.dc_model.specs.Message.{u16};
ghost use Rattle.dc_model.specs.Puts.{key_of};
ghost use Rattle.dc_model.specs.Cache.{get, put};
ghost use Rattle.dc_store.specs.Lent.{hit_value};
ghost use Rattle.dc_name.specs.Wire.{IsWire, name_of};
ghost use Rattle.dc_desk.specs.Keys.{name_at, IsAbove};

use arrayvec::ArrayVec;
use dc_limits::LONGEST_NAME;
use dc_name::Name;
use dc_store::{Hit, Store};
use std::marker::Model;

/// How many bytes a key has at most: those of a type and of a name.
const MOST_KEY: usize = LONGEST_NAME + 2;

/// The keys of a name, and then of the names above it. The name is lowered and laid out once; the key of each name above is
/// a part of the same bytes.
///
/// Contracts see the name whose keys it gives, in lower case.
#[derive(Drop)]
pub struct Key {
    bytes: ArrayVec<u8, MOST_KEY>,
    /// Where the key begins: two bytes of a type, and the name's wire form.
    start: usize,
}

impl Model for Key {
    ghost use Rattle.dc_model.specs.Name.{Name as Labels};

    ghost Value = { Labels };

    ghost use Rattle.dc_desk.specs.Keys.{name_at, IsKey};

    ghost view = { λ a. name_at a.bytes.items a.start };

    ghost invariant = { λ a. IsKey a.bytes.items a.start };
}

/// Puts the two bytes of a type at a place.
fn set_kind(bytes: &mut ArrayVec<u8, MOST_KEY>, start: usize, kind: u16)
    requires { start + 2 ≤ length bytes.old.items }
    ensures kind { drop start bytes.new.items ≡ u16 kind ++ drop (2 + start) bytes.old.items }
    ensures len { length bytes.new.items ≡ length bytes.old.items }
{
    let kind = kind.to_be_bytes();
    bytes[start] = kind[0];
    bytes[start + 1] = kind[1];
}

/// The bytes from a place on.
fn from(bytes: &ArrayVec<u8, MOST_KEY>, start: usize) -> &[u8]
    requires { start ≤ length bytes.now.items }
    ensures { result.now ≡ drop start bytes.now.items }
{
    &bytes.as_slice()[start..]
}

/// How many bytes the first label of a name has, with the one before it.
#[tactic(auto, using(crate::proofs::KeyLemmas::above_by, crate::proofs::KeyLemmas::wire_some))]
fn step(wire: &[u8]) -> usize
    requires name { IsWire wire.now }
    requires some { name_of wire.now ≢ [] }
    ensures above { IsAbove wire.now result }
{
    1 + wire[0] as usize
}

#[tactic(auto, using(crate::proofs::KeyLemmas::keys))]
impl Key {
    /// The keys of a name.
    pub fn new(name: &Name) -> Key
        ensures { result ≡ model.lower name.now }
    {
        let lowered = name.lower();
        let mut bytes = ArrayVec::new();
        bytes.push(0);
        bytes.push(0);
        let _ = bytes.try_extend_from_slice(lowered.wire());
        Key { bytes, start: 0 }
    }

    /// What a store knows of the name and a type at the second `now`.
    pub fn find<'a, S: Store>(&mut self, store: &'a S, kind: u16, now: u64) -> Option<Hit<'a>>
        ensures hit { (n : model.Name) → self.old ≡ model.lower n → option_map hit_value result ≡ get (key_of kind n) now (S.cache store.now) }
        ensures same { self.new ≡ self.old }
    {
        set_kind(&mut self.bytes, self.start, kind);
        store.get(from(&self.bytes, self.start), now)
    }

    /// Puts an empty entry of the name and the type into a store, to be known for `ttl` seconds from the second `now` on.
    pub fn put_empty<S: Store>(&mut self, store: &mut S, kind: u16, ttl: u32, now: u64)
        requires { now * 1000 < 2 ^ 62 }
        ensures put { (n : model.Name) → self.old ≡ model.lower n → S.cache store.new ≡ put (key_of kind n) [] ttl now (S.cache store.old) }
        ensures same { self.new ≡ self.old }
    {
        set_kind(&mut self.bytes, self.start, kind);
        store.put(from(&self.bytes, self.start), &[], ttl, now);
    }

    /// Goes on to the name above.
    pub fn up(&mut self)
        requires { self.old ≢ [] }
        ensures { self.new ≡ model.parent self.old }
    {
        self.start += step(from(&self.bytes, self.start + 2));
    }
}
