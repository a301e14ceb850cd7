//! The reply of what a message answers.
ghost use Rattle.std.specs.Prelude.{◌≡◌, ◌<◌, ◌+◌, ◌&&◌, true, length, [], ◌++◌};
ghost use Rattle.dc_model.specs.Marks as marks;
ghost use Rattle.dc_model.specs.Name.{same};
ghost use Rattle.dc_machine.specs.Query.{name_of, wanted_of};
ghost use Rattle.dc_machine.specs.Turn.{reply_of, heard_answers};
ghost use Rattle.dc_packet.specs.Data.{body_of};
ghost use Rattle.dc_packet.specs.Rows.{row_of, named_section};
ghost use Rattle.dc_marks.specs.Places.{record_in};
ghost use Rattle.dc_frames.specs.View.{query_of};
ghost use Rattle.dc_answer.specs.Replies.{Replies};
ghost use Rattle.dc_answer.specs.Heard.{is_told, first_heard};

use crate::begin::begin;
use crate::lent::lent;
use dc_frames::Query;
use dc_name::Name;
use dc_packet::{Data, Message, Rr, Section, kept_ttl};
use dc_reply::Reply;
use dc_types::{class, rtype};

/// The places, type and class of the record of this number.
fn row(message: &Message<'_>, i: usize) -> Rr
    requires { i < length message.now.records }
    ensures { result ≡ row_of (record_in message.now i) }
{
    message.rr(i)
}

/// The data of the record of this number.
fn data<'a>(message: &Message<'a>, i: usize) -> Data<'a>
    requires { i < length message.now.records }
    ensures { body_of result ≡ (record_in message.now i).body }
{
    message.data(i)
}

/// Whether a name owns the record of this number, case aside.
fn owns(name: &Name, message: &Message<'_>, i: usize) -> bool
    requires { i < length message.now.records }
    ensures { result ≡ same (record_in message.now i).owner name.now }
{
    message.owner(i).same(name)
}

/// Whether a section is that of the answers.
fn is_answer(section: Section) -> bool
    ensures { result ≡ marks.is_answer (named_section section) }
{
    match section {
        Section::Answer => true,
        Section::Authority | Section::Additional => false,
    }
}

/// Whether a type is wanted: it is the one asked for, or all are.
fn is_wanted(wanted: u16, kind: u16) -> bool
    ensures { result ≡ marks.is_wanted wanted kind }
{
    kind == wanted || wanted == rtype::ANY
}

/// Whether the client is told of the record of this number: an IN record of the answer section, of a wanted type, which the
/// name on top owns.
fn is_heard(query: &Query, message: &Message<'_>, i: usize) -> bool
    requires frame { 0 < length (query_of query.now).frames }
    requires number { i < length message.now.records }
    ensures { result ≡ is_told (query_of query.now) (record_in message.now i) }
{
    let rr = row(message, i);
    rr.class == class::IN
        && is_answer(rr.section)
        && is_wanted(query.wanted(), rr.kind)
        && owns(query.name(), message, i)
}

/// Adds the record of this number, where the client is told of it. Answers false where it doesn't fit.
fn add_record(query: &Query, reply: &mut Reply, message: &Message<'_>, i: usize) -> bool
    requires frame { 0 < length (query_of query.now).frames }
    requires number { i < length message.now.records }
    requires before { Replies true reply.old (reply_of (query_of query.now) (first_heard i (query_of query.now) message.now)) }
    ensures { Replies result reply.new (reply_of (query_of query.now) (first_heard (i + 1) (query_of query.now) message.now)) }
{
    if !is_heard(query, message, i) {
        return true;
    }
    let rr = row(message, i);
    let data = data(message, i);
    reply.rr(query.name(), rr.kind, kept_ttl(rr.ttl), lent(&data))
}

/// Makes the reply of what a message answers: its IN records of the answer section that the name on top owns and that are
/// wanted, in order, each with the TTL that it is kept for (after djbdns' query.c). Answers false exactly where it is no message.
pub fn reply_heard(query: &Query, reply: &mut Reply, message: &Message<'_>) -> bool
    requires { 0 < length (query_of query.now).frames }
    ensures { Replies result reply.new (reply_of (query_of query.now) (heard_answers (query_of query.now) message.now)) }
{
    if !begin(query, reply) {
        return false;
    }
    for i in 0..message.count() {
        if !add_record(query, reply, message, i) {
            return false;
        }
    }
    true
}
