//! The suffixes of names that stand in a message, for later names to point to (RFC 1035, 4.1.4).
ghost use Rattle.std.specs.Prelude.{◌≡◌, ◌<◌, ◌≤◌, [], ◌∷◌, ◌++◌, length, take, option_map, IfOk, IfSome};
ghost use Rattle.dc_model.specs.Name.{lower, name_eq, wire_length};
ghost use Rattle.dc_model.specs.Reply.{suffix_of, can_join, joined};

use dc_limits::{LONGEST_SUFFIX, MOST_SUFFIXES};
use dc_name::Suffix;
use std::alloc::{AllocError, Global};
use std::marker::Model;

/// The first place that a pointer can't reach.
const OUT_OF_REACH: usize = 16384;

/// A suffix and its place in the message.
#[derive(Drop)]
pub(crate) struct Entry {
    wire: [u8; LONGEST_SUFFIX],
    len: usize,
    place: u16,
}

impl Model for Entry {
    ghost use Rattle.std.specs.Prelude.{◌≤◌, ◌<◌, take};
    ghost use Rattle.dc_model.specs.Name.{lower};
    ghost use Rattle.dc_model.specs.Reply.{Suffix as Placed};
    ghost use Rattle.dc_name.specs.Wire.{IsWire, name_of};

    ghost Value = { Placed };

    ghost view = { λ a. record { name = lower (name_of (take a.len a.wire)); place = a.place } };

    ghost invariant = { λ a. IsWire (take a.len a.wire) × (a.len ≤ 128) × (a.place < 16384) };
}

impl Entry {
    /// The root at place 0, which stands where there is no suffix yet.
    fn root() -> Entry {
        Entry {
            wire: [0; LONGEST_SUFFIX],
            len: 1,
            place: 0,
        }
    }

    /// The suffix's place.
    fn place(&self) -> u16
        ensures place { result ≡ self.now.place }
        ensures near { result < 16384 }
    {
        self.place
    }

    /// Whether the suffix is the same as a name, case aside.
    fn is(&self, name: &Suffix<'_>) -> bool
        ensures { result ≡ name_eq self.now.name (lower name.now) }
    {
        self.wire[..self.len].eq_ignore_ascii_case(name.wire())
    }

    /// Makes this a name at a place.
    fn set(&mut self, name: &Suffix<'_>, place: u16)
        requires short { wire_length name.now ≤ 128 }
        requires near { place < 16384 }
        ensures { self.new ≡ record { name = lower name.now; place = place } }
    {
        let wire = name.wire();
        self.wire[..wire.len()].copy_from_slice(wire);
        self.len = wire.len();
        self.place = place;
    }
}

/// At most 100 suffixes, the one that was written first in front.
///
/// Contracts see their list.
#[derive(Drop)]
pub(crate) struct Suffixes {
    entries: Vec<Entry>,
    count: usize,
}

impl Model for Suffixes {
    ghost use Rattle.std.specs.Prelude.{◌≡◌, ◌≤◌, List, take, length};
    ghost use Rattle.dc_model.specs.Reply.{Suffix as Placed};

    ghost Value = { List Placed };

    ghost view = { λ a. take a.count a.entries.items };

    ghost invariant = { λ a. (a.count ≤ 100) × (length a.entries.items ≡ 100) };
}

impl Suffixes {
    /// No suffix, with room for any number of them.
    pub(crate) fn new(alloc: Global) -> Result<Suffixes, AllocError>
        ensures { IfOk result (λ t. t ≡ []) }
    {
        let mut entries = Vec::with_capacity(alloc, MOST_SUFFIXES)?;
        for _ in 0..MOST_SUFFIXES {
            entries.push(Entry::root())?;
        }
        Ok(Suffixes { entries, count: 0 })
    }

    /// How many there are.
    pub(crate) fn len(&self) -> usize
        ensures { result ≡ length self.now }
    {
        self.count
    }

    /// Forgets all but the first `len`.
    pub(crate) fn truncate(&mut self, len: usize)
        requires { len ≤ length self.old }
        ensures { self.new ≡ take len self.old }
    {
        self.count = len;
    }

    /// The place of the first suffix that is the same as a name, case aside.
    pub(crate) fn find(&self, name: &Suffix<'_>) -> Option<u16>
        ensures place { result ≡ option_map (λ s. s.place) (suffix_of name.now self.now) }
        ensures near { IfSome result (λ place. place < 16384) }
    {
        for entry in self.entries[..self.count].iter() {
            if entry.is(name) {
                return Some(entry.place());
            }
        }
        None
    }

    /// Whether a name at a place is kept: where it is short, a pointer reaches the place, and there is room.
    fn can_join(&self, name: &Suffix<'_>, place: usize) -> bool
        ensures { result ≡ can_join name.now place self.now }
    {
        name.wire().len() <= LONGEST_SUFFIX && (self.count < MOST_SUFFIXES && place < OUT_OF_REACH)
    }

    /// Keeps a name at a place behind the others.
    fn add(&mut self, name: &Suffix<'_>, place: u16)
        requires short { wire_length name.now ≤ 128 }
        requires near { place < 16384 }
        requires room { length self.old < 100 }
        ensures { self.new ≡ self.old ++ record { name = lower name.now; place = place } ∷ [] }
    {
        let entry = &mut self.entries[self.count];
        entry.set(name, place);
        self.count += 1;
    }

    /// Keeps a name at a place behind the others, where it can be kept.
    pub(crate) fn join(&mut self, name: &Suffix<'_>, place: usize)
        ensures { self.new ≡ joined name.now place self.old }
    {
        if self.can_join(name, place) {
            self.add(name, place as u16);
        }
    }
}
