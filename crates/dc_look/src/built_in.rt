//! What is built in: `localhost`, names that spell an address, and the name under which 127.0.0.1 is looked up.
ghost use Rattle.std.specs.Prelude.{◌≡◌, ◌<◌, [], ◌∷◌, length, Some};
ghost use Rattle.dc_model.specs.Name.{same, reverse_name};
ghost use Rattle.dc_model.specs.Message as model;
ghost use Rattle.dc_frames.specs.View.{query_of};
ghost use Rattle.dc_machine.specs.Turn as machine;
ghost use Rattle.dc_answer.specs.Replies.{Replies};
ghost use Rattle.dc_desk.specs.declared.moment.Moment.{Moment};
ghost use Rattle.dc_desk.specs.Steps.{TookRow};
ghost use Rattle.dc_look.specs.Rows.{loopback_here};

use crate::wanted::is_wanted;
use dc_answer::{reply_nothing, reply_one};
use dc_desk::{Desk, Point, Step};
use dc_engine::Effects;
use dc_frames::Query;
use dc_limits::LASTING;
use dc_name::Name;
use dc_reply::{Body, Reply};
use dc_store::Store;
use dc_types::rtype;

/// The address of this host.
const LOOPBACK: [u8; 4] = [127, 0, 0, 1];

/// The name of this host.
fn localhost() -> Name
    ensures { result ≡ machine.localhost }
{
    let mut name = Name::root();
    name.push(b"localhost");
    name
}

/// The address that is built in for a name: that of `localhost`, and that which a name spells.
#[tactic(auto, unfolding(dc_machine::specs::Turn::built_in))]
pub(crate) fn built_in(name: &Name) -> Option<[u8; 4]>
    ensures { result ≡ machine.built_in name.now }
{
    if name.same(&localhost()) {
        Some(LOOPBACK)
    } else {
        name.is_address()
    }
}

/// Whether a name is that under which 127.0.0.1 is looked up (RFC 1912, 4.1).
pub(crate) fn is_loopback(name: &Name) -> bool
    ensures { result ≡ same name.now (reverse_name machine.loopback) }
{
    name.same(&Name::reverse_of(LOOPBACK))
}

/// Makes the reply of a built-in address, if one is wanted.
fn reply_address(query: &Query, reply: &mut Reply, address: [u8; 4]) -> bool
    requires { 0 < length (query_of query.now).frames }
    ensures { Replies result reply.new (machine.reply_of (query_of query.now)
        (machine.if_wanted (query_of query.now) model.kind_a (machine.answer_of (query_of query.now) model.kind_a 655360 (model.bytes address) ∷ []))) }
{
    if is_wanted(query.wanted(), rtype::A) {
        reply_one(query, reply, rtype::A, LASTING, Body::Bytes(&address))
    } else {
        reply_nothing(query, reply)
    }
}

/// Makes the reply of this host's name, if a name is wanted.
fn reply_host(query: &Query, reply: &mut Reply) -> bool
    requires { 0 < length (query_of query.now).frames }
    ensures { Replies result reply.new (machine.reply_of (query_of query.now)
        (machine.if_wanted (query_of query.now) model.kind_ptr (machine.answer_of (query_of query.now) model.kind_ptr 655360 (model.host machine.localhost) ∷ []))) }
{
    if is_wanted(query.wanted(), rtype::PTR) {
        reply_one(query, reply, rtype::PTR, LASTING, Body::Host(&localhost()))
    } else {
        reply_nothing(query, reply)
    }
}

/// A built-in address is answered at level 0, and above it is for the frame below.
pub(crate) fn give_address<S: Store, O: Effects>(
    query: &mut Query,
    desk: &mut Desk<S>,
    address: [u8; 4],
    out: &mut O,
) -> Step
    requires { 0 < length (query_of query.old).frames }
    ensures { (m : Moment) → TookRow O.acted S.cache (machine.built_in_by (Some address)) m out.old query.old desk.old out.new query.new desk.new result }
{
    let _ = &out;
    if !query.is_lowest() {
        query.add_address(address);
        return Step::Go(Point::Down);
    }
    Step::replied(reply_address(query, &mut desk.reply, address))
}

/// The host's name is answered at level 0, and above there is no address.
pub(crate) fn give_host<S: Store, O: Effects>(
    query: &mut Query,
    desk: &mut Desk<S>,
    out: &mut O,
) -> Step
    requires { 0 < length (query_of query.old).frames }
    ensures { (m : Moment) → TookRow O.acted S.cache loopback_here m out.old query.old desk.old out.new query.new desk.new result }
{
    let _ = &out;
    if !query.is_lowest() {
        return Step::Go(Point::Down);
    }
    Step::replied(reply_host(query, &mut desk.reply))
}
