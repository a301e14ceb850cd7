//! The reply of what the cache holds.
ghost use Rattle.std.specs.Prelude.{◌≡◌, ◌<◌, length, map};
ghost use Rattle.dc_machine.specs.Turn.{reply_of, answer_of};
ghost use Rattle.dc_frames.specs.View.{query_of};
ghost use Rattle.dc_answer.specs.Replies.{Replies};

use crate::begin::begin;
use crate::lent::lent;
use dc_frames::Query;
use dc_items::Items;
use dc_reply::Reply;

/// Makes the reply of the items of a cached body, in order: answers of this type and with this TTL in seconds, which the name on
/// top owns. Answers false exactly where it is no message.
pub fn reply_items(
    query: &Query,
    reply: &mut Reply,
    kind: u16,
    ttl: u32,
    mut items: Items<'_>,
) -> bool
    requires { 0 < length (query_of query.now).frames }
    ensures { Replies result reply.new (reply_of (query_of query.now) (map (answer_of (query_of query.now) kind ttl) items.entry)) }
{
    if !begin(query, reply) {
        return false;
    }
    while let Some(data) = items.next_item() {
        if !reply.rr(query.name(), kind, ttl, lent(&data)) {
            return false;
        }
    }
    true
}
