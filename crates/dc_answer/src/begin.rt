//! How the reply to a query begins.
ghost use Rattle.std.specs.Prelude.{◌≡◌, ◌<◌, ◌+◌, true, length, []};
ghost use Rattle.dc_model.specs.Reply.{reply_to};
ghost use Rattle.dc_machine.specs.Query.{Query as Asked};
ghost use Rattle.dc_machine.specs.Turn.{reply_of};
ghost use Rattle.dc_frames.specs.View.{query_of};
ghost use Rattle.dc_answer.specs.Replies.{Replies, first_aliases, target_of};

use dc_frames::Query;
use dc_name::Name;
use dc_reply::{Body, Reply};
use dc_types::rtype;

/// Begins the reply to a query's request, with its question alone.
fn ask(query: &Query, reply: &mut Reply)
    ensures { Replies true reply.new (reply_to (query_of query.now).request) }
{
    let request = query.request();

    // The question is a message, since its name has at most 255 bytes.
    let _most_255_bytes = request.name.wire();
    reply.start(request.id, &request.name, request.qtype, request.qclass);
}

/// The name to which the alias of this number leads: that of the next alias, or the name on top.
fn target(query: &Query, i: usize) -> &Name
    requires frame { 0 < length (query_of query.now).frames }
    requires alias { i < length (query_of query.now).aliases }
    ensures { result.now ≡ target_of (query_of query.now) i }
{
    let count = query.aliases();
    if i + 1 < count {
        &query.alias(i + 1).name
    } else {
        query.name()
    }
}

/// Adds a CNAME for the alias of this number. Answers false where it doesn't fit.
fn add_alias(query: &Query, reply: &mut Reply, i: usize) -> bool
    requires frame { 0 < length (query_of query.now).frames }
    requires alias { i < length (query_of query.now).aliases }
    requires before { Replies true reply.old (first_aliases i (query_of query.now)) }
    ensures { Replies result reply.new (first_aliases (i + 1) (query_of query.now)) }
{
    let alias = query.alias(i);
    reply.rr(
        &alias.name,
        rtype::CNAME,
        alias.ttl,
        Body::Host(target(query, i)),
    )
}

/// Begins the reply to a query: its question, and a CNAME for each alias, the oldest first, which leads to the next one, and
/// the last to the name on top (after djbdns' query.c). Answers false where that is no message.
pub(crate) fn begin(query: &Query, reply: &mut Reply) -> bool
    requires { 0 < length (query_of query.now).frames }
    ensures { Replies result reply.new (reply_of (query_of query.now) []) }
{
    ask(query, reply);
    for i in 0..query.aliases() {
        if !add_alias(query, reply, i) {
            return false;
        }
    }
    true
}
