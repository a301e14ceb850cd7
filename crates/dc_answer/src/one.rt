//! Replies of one answer or none.
ghost use Rattle.std.specs.Prelude.{◌≡◌, ◌<◌, length, [], ◌∷◌};
ghost use Rattle.dc_model.specs.Reply as model;
ghost use Rattle.dc_machine.specs.Turn.{reply_of, answer_of};
ghost use Rattle.dc_reply.specs.Bodies.{body_of};
ghost use Rattle.dc_frames.specs.View.{query_of};
ghost use Rattle.dc_answer.specs.Replies.{Replies};

use crate::begin::begin;
use dc_frames::Query;
use dc_reply::{Body, Reply};

/// Makes the reply of a query to which there is no answer, without an error. Answers false exactly where it is no message: it
/// would have more than 65535 bytes.
pub fn reply_nothing(query: &Query, reply: &mut Reply) -> bool
    requires { 0 < length (query_of query.now).frames }
    ensures { Replies result reply.new (reply_of (query_of query.now) []) }
{
    begin(query, reply)
}

/// Makes the reply that the name on top doesn't exist: AA is set, and rcode 3 (RFC 1035, 4.1.1; after djbdns' response.c).
/// Answers false exactly where it is no message.
pub fn reply_missing(query: &Query, reply: &mut Reply) -> bool
    requires { 0 < length (query_of query.now).frames }
    ensures { Replies result reply.new (model.nxdomain (reply_of (query_of query.now) [])) }
{
    if !begin(query, reply) {
        return false;
    }
    reply.nxdomain();
    true
}

/// Makes the reply that no answer was found: rcode 2 (RFC 1035, 4.1.1; after djbdns' response.c). Answers false exactly where
/// it is no message.
pub fn reply_failure(query: &Query, reply: &mut Reply) -> bool
    requires { 0 < length (query_of query.now).frames }
    ensures { Replies result reply.new (model.servfail (reply_of (query_of query.now) [])) }
{
    if !begin(query, reply) {
        return false;
    }
    reply.servfail();
    true
}

/// Makes the reply of one answer, owned by the name on top: its type, its TTL in seconds, and its data. Answers false exactly
/// where it is no message.
pub fn reply_one(query: &Query, reply: &mut Reply, kind: u16, ttl: u32, body: Body<'_>) -> bool
    requires { 0 < length (query_of query.now).frames }
    ensures { Replies result reply.new (reply_of (query_of query.now) (answer_of (query_of query.now) kind ttl (body_of body.entry) ∷ [])) }
{
    if !begin(query, reply) {
        return false;
    }
    reply.rr(query.name(), kind, ttl, body)
}
