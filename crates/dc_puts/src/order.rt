//! The order in which records are taken.
ghost use Rattle.std.specs.Prelude.{◌≡◌, ◌∷◌};
ghost use Rattle.std.specs.Cmp.Lexicographic.{slice_cmp};
ghost use Rattle.std.specs.Ordering.{nat_cmp};
ghost use Rattle.dc_puts.specs.Order.{owner_key, place_key};

use crate::record::{kind_at, owner_at};
use dc_name::Name;
use dc_packet::Message;
use std::cmp::Ordering;

/// Compares names by the length and then by the bytes of their wire form, and then the numbers.
#[tactic(auto, using(crate::proofs::Sorting::owner_cmp))]
fn compare_owners(x: &Name, y: &Name, a: u16, b: u16) -> Ordering
    ensures { result ≡ slice_cmp nat_cmp (owner_key x.now a) (owner_key y.now b) }
{
    x.wire()
        .len()
        .cmp(&y.wire().len())
        .then(x.wire().cmp(y.wire()))
        .then(a.cmp(&b))
}

/// Compares the records of two numbers: by type, by the length and then by the bytes of the owner's wire form, by the number.
#[tactic(auto, unfolding(crate::specs::Order::place_key))]
pub(crate) fn compare(message: &Message<'_>, a: u16, b: u16) -> Ordering
    ensures { result ≡ slice_cmp nat_cmp (place_key message.now a) (place_key message.now b) }
{
    match kind_at(message, a).cmp(&kind_at(message, b)) {
        Ordering::Less => Ordering::Less,
        Ordering::Greater => Ordering::Greater,
        Ordering::Equal => compare_owners(&owner_at(message, a), &owner_at(message, b), a, b),
    }
}
