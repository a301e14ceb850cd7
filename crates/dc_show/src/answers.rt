//! What the answers of a message have.
ghost use Rattle.std.specs.Prelude.{◌≡◌, ◌≢◌, ◌<◌, [], length, true, false, Some, slice_get};
ghost use Rattle.dc_model.specs.Message as model;
ghost use Rattle.dc_lookup.specs.Text.{answers, first_host};
ghost use Rattle.dc_show.specs.Parts.{host_part};

use crate::parts::is_wanted;
use dc_name::Name;
use dc_packet::{Data, Message};
use dc_types::rtype;

/// Whether a message has an IN record of this type among its answers.
#[tactic(auto, unfolding(dc_lookup::specs::Text::answers))]
pub(crate) fn has_answers(message: &Message<'_>, kind: u16) -> bool
    ensures some { result ≡ true → answers kind message.now ≢ [] }
    ensures none { result ≡ false → answers kind message.now ≡ [] }
{
    for at in 0..message.count() {
        if is_wanted(kind, message.rr(at)) {
            return true;
        }
    }
    false
}

/// The name that the record of this number is, if it is a PTR among the answers.
fn host_at(message: &Message<'_>, at: usize) -> Option<Name>
    requires { at < length message.now.records }
    ensures { (r : model.Record) → slice_get message.now.records at ≡ Some r → result ≡ host_part r }
{
    if !is_wanted(rtype::PTR, message.rr(at)) {
        return None;
    }
    match message.data(at) {
        Data::Host(name) => Some(name),
        Data::Bytes(_) | Data::Mx(_, _) | Data::Soa(_, _, _) => None,
    }
}

/// The first name that a PTR among the answers is.
pub(crate) fn first_host(message: &Message<'_>) -> Option<Name>
    ensures { result ≡ first_host message.now }
{
    for at in 0..message.count() {
        if let Some(name) = host_at(message, at) {
            return Some(name);
        }
    }
    None
}
