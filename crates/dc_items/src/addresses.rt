//! The addresses of a cached body.
ghost use Rattle.std.specs.Prelude.{◌≡◌, [], ◌∷◌, map, MatchOption};
ghost use Rattle.dc_model.specs.Message.{bytes, kind_a};
ghost use Rattle.dc_model.specs.Rules as model;
ghost use Rattle.dc_model.specs.Bodies.{items_of};
ghost use Rattle.dc_items.specs.Left.{addresses_in};

use std::marker::Model;

/// The addresses of a cached body of type A that are left, one after another.
#[derive(Drop)]
pub struct Addresses<'a> {
    rest: &'a [u8],
}

impl<'a> Model for Addresses<'a> {
    ghost use Rattle.std.specs.Prelude.{List, ℕ};
    ghost use Rattle.dc_items.specs.Left.{addresses_in};

    ghost Value = { List (List ℕ) };

    ghost view = { λ s. addresses_in s.rest.now };
}

impl<'a> Addresses<'a> {
    /// The addresses of a body of type A, of four bytes each (RFC 1035, 3.4.1). At most three bytes behind the last one are none.
    pub fn new(body: &'a [u8]) -> Addresses<'a>
        ensures addresses { result ≡ addresses_in body.now }
        ensures items { (rule : model.Rule) → map bytes result ≡ items_of rule kind_a body.now }
    {
        Addresses { rest: body }
    }

    /// Takes off the first address. `None` comes exactly where none is left.
    pub fn next_address(&mut self) -> Option<[u8; 4]>
        ensures { MatchOption result ((self.old ≡ []) × (self.new ≡ [])) (λ a. self.old ≡ a ∷ self.new) }
    {
        let (first, rest) = self.rest.split_first_chunk::<4>()?;
        self.rest = rest;
        Some(*first)
    }
}
