//! Answers: at level 0 for the client, above for the frame below.
ghost use Rattle.std.specs.Prelude.{◌≡◌, ◌<◌, ◌∷◌, ℕ, [], length};
ghost use Rattle.dc_model.specs.Cache.{Cache};
ghost use Rattle.dc_model.specs.Message.{IsWellFormed};
ghost use Rattle.dc_marks.specs.Places.{record_in};
ghost use Rattle.dc_machine.specs.Query.{name_of, with_addresses};
ghost use Rattle.dc_machine.specs.Turn.{answers_row, bytes_of, heard_addresses};
ghost use Rattle.dc_packet.specs.Data.{body_of};
ghost use Rattle.dc_frames.specs.View.{query_of};
ghost use Rattle.dc_heard.specs.Quiet.{Leads, AreFormed};
ghost use Rattle.dc_heard.specs.Taken.{listed, addresses_in, gives_address};

use crate::record::{data, is_answer, owner, row};
use dc_answer::reply_heard;
use dc_desk::{Point, Step};
use dc_frames::Query;
use dc_name::Name;
use dc_packet::{Data, Message};
use dc_reply::Reply;
use dc_types::{class, rtype};

/// The answer of a message is told to the client at level 0. Above, its addresses are for the frame below.
#[tactic(auto, unfolding(dc_machine::specs::Turn::answers_row))]
pub(crate) fn answers(query: &mut Query, message: &Message<'_>, reply: &mut Reply) -> Step
    requires some { 0 < length (query_of query.old).frames }
    requires formed { AreFormed message.now }
    ensures { (c : Cache) (n : ℕ) → Leads (answers_row message.now (record { query = query_of query.old; cache = c; links = n })) (query_of query.new) reply.new result }
{
    if query.is_lowest() {
        return Step::replied(reply_heard(query, reply, message));
    }
    add_addresses(query, message);
    Step::Go(Point::Down)
}

/// Adds the addresses of a message to the frame below.
#[tactic(auto, using(crate::proofs::Addresses::adding))]
fn add_addresses(query: &mut Query, message: &Message<'_>)
    requires below { 1 < length (query_of query.old).frames }
    requires formed { AreFormed message.now }
    ensures { query_of query.new ≡ with_addresses (query_of query.old) (heard_addresses (query_of query.old) message.now) }
{
    for i in 0..message.count() {
        add_address(query, message, i);
    }
}

/// Adds the address that the record of this number answers for the name on top, if it does.
#[tactic(auto, using(crate::proofs::Addresses::placing))]
fn add_address(query: &mut Query, message: &Message<'_>, i: usize)
    requires below { 1 < length (query_of query.old).frames }
    requires number { i < length message.now.records }
    requires formed { IsWellFormed (record_in message.now i) }
    ensures { query_of query.new ≡ with_addresses (query_of query.old) (addresses_in (name_of (query_of query.old)) (record_in message.now i ∷ [])) }
{
    if let Some(address) = address(message, i, query.name()) {
        query.add_address(address);
    }
}

/// The address that the record of this number answers for a name: four bytes of data of an A in class IN.
#[tactic(auto, using(crate::proofs::Addresses::finding))]
fn address(message: &Message<'_>, i: usize, name: &Name) -> Option<[u8; 4]>
    requires number { i < length message.now.records }
    requires formed { IsWellFormed (record_in message.now i) }
    ensures { listed result ≡ addresses_in name.now (record_in message.now i ∷ []) }
{
    if is_address(message, i, name) {
        Some(octets(data(message, i)))
    } else {
        None
    }
}

/// Whether the record of this number is an address that answers for a name.
fn is_address(message: &Message<'_>, i: usize, name: &Name) -> bool
    requires { i < length message.now.records }
    ensures { result ≡ gives_address name.now (record_in message.now i) }
{
    let rr = row(message, i);
    rr.class == class::IN
        && (is_answer(rr.section) && owner(message, i).same(name))
        && (rr.kind == rtype::A && rr.len == 4)
}

/// Data of four bytes.
#[tactic(auto, using(crate::proofs::Addresses::four))]
fn octets(data: Data<'_>) -> [u8; 4]
    requires { length (bytes_of (body_of «data»)) ≡ 4 }
    ensures { result ≡ bytes_of (body_of «data».entry) }
{
    match data {
        Data::Bytes(bytes) => [bytes[0], bytes[1], bytes[2], bytes[3]],
        Data::Host(_) | Data::Mx(_, _) | Data::Soa(_, _, _) => unreachable!(),
    }
}
