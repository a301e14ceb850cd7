//! Names that lie in the bytes of others.
ghost use Rattle.std.specs.Prelude.{◌≡◌, ◌≤◌, ◌↔◌, [], ◌∷◌, length, slice_index_or, IsTrue, IsNone, IfSome};
ghost use Rattle.dc_model.specs.Name as model;
ghost use Rattle.dc_name.specs.Wire.{IsWire, name_of};

use crate::Name;
use crate::wire::{above, same_wire, under_wire};
use std::marker::Model;

/// A name that lies in the bytes of another: the name itself, its parent, and so on up to the root.
///
/// Contracts see the list of its labels, as of a `Name`. Going up copies no byte.
#[derive(Debug, Drop)]
pub struct Suffix<'a> {
    wire: &'a [u8],
}

impl<'a> Model for Suffix<'a> {
    ghost use Rattle.dc_model.specs.Name.{Name as Labels};
    ghost use Rattle.dc_name.specs.Wire.{IsWire, name_of};

    ghost Value = { Labels };

    ghost view = { λ a. name_of a.wire.now };

    ghost invariant = { λ a. IsWire a.wire.now };
}

impl<'a> Suffix<'a> {
    /// The name of these bytes.
    pub(crate) fn of_wire(wire: &'a [u8]) -> Suffix<'a>
        requires { IsWire wire.now }
        ensures { result ≡ name_of wire.now }
    {
        Suffix { wire }
    }

    /// The name's bytes in a message: each label behind its length, then a zero byte.
    pub fn wire(&self) -> &'a [u8]
        ensures bytes { result.now ≡ model.wire self.now }
        ensures name { model.IsName self.now }
        ensures least { 1 ≤ length result.now }
        ensures most { length result.now ≤ 255 }
    {
        self.wire
    }

    /// Whether the name has no label.
    pub fn is_root(&self) -> bool
        ensures { IsTrue result ↔ (self.now ≡ []) }
    {
        self.wire[0] == 0
    }

    /// The first label, the one farthest from the root; at the root the empty one.
    pub fn label(&self) -> &'a [u8]
        ensures value { result.now ≡ slice_index_or self.now 0 [] }
        ensures most { length result.now ≤ 63 }
    {
        let len = self.wire[0] as usize;
        &self.wire[1..len + 1]
    }

    /// The name one level up; `None` at the root.
    pub fn parent(&self) -> Option<Suffix<'a>>
        ensures root { IsNone result ↔ (self.now ≡ []) }
        ensures above { IfSome result (λ s. s ≡ model.parent self.now) }
        ensures first { IfSome result (λ s. self.now ≡ slice_index_or self.now 0 [] ∷ s) }
    {
        if self.is_root() {
            return None;
        }
        Some(Suffix {
            wire: above(self.wire),
        })
    }

    /// Whether two names are the same, without regard to ASCII case.
    pub fn same(&self, other: &Suffix<'_>) -> bool
        ensures { result ≡ model.same self.now other.now }
    {
        same_wire(self.wire, other.wire)
    }

    /// Whether the labels of `zone` are the last labels of the name, without regard to ASCII case.
    pub fn under(&self, zone: &Suffix<'_>) -> bool
        ensures { result ≡ model.under self.now zone.now }
    {
        under_wire(self.wire, zone.wire)
    }

    /// The name with bytes of its own.
    pub fn to_name(&self) -> Name
        ensures { result ≡ self.now }
    {
        Name::of_wire(self.wire)
    }
}
