//! The records of a message, by their numbers.
ghost use Rattle.std.specs.Prelude.{◌≡◌, ◌<◌, length};
ghost use Rattle.dc_model.specs.Name.{lower};
ghost use Rattle.dc_packet.specs.Rows.{row_of};
ghost use Rattle.dc_marks.specs.Places.{record_in};

use dc_name::Name;
use dc_packet::{Message, Rr};

/// The places, type and class of the record of this number.
pub(crate) fn row(message: &Message<'_>, i: usize) -> Rr
    requires { i < length message.now.records }
    ensures { result ≡ row_of (record_in message.now i) }
{
    message.rr(i)
}

/// The type of the record of this number; 0 behind the last.
#[tactic(auto, using(crate::proofs::Past::past))]
pub(crate) fn kind_at(message: &Message<'_>, i: u16) -> u16
    ensures { result ≡ (record_in message.now i).kind }
{
    let i = i as usize;
    if i < message.count() {
        row(message, i).kind
    } else {
        0
    }
}

/// The owner of the record of this number, in lower case; the root behind the last.
#[tactic(auto, using(crate::proofs::Past::past))]
pub(crate) fn owner_at(message: &Message<'_>, i: u16) -> Name
    ensures { result ≡ lower (record_in message.now i).owner }
{
    let i = i as usize;
    if i < message.count() {
        message.owner(i).lower()
    } else {
        Name::root()
    }
}

/// The TTL of the record of this number; 0 behind the last.
#[tactic(auto, using(crate::proofs::Past::past))]
pub(crate) fn ttl_at(message: &Message<'_>, i: u16) -> u32
    ensures { result ≡ (record_in message.now i).ttl }
{
    let i = i as usize;
    if i < message.count() {
        row(message, i).ttl
    } else {
        0
    }
}
