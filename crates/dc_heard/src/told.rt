//! What is remembered and told before an answer or a referral is followed.
ghost use Rattle.std.specs.Prelude.{◌≡◌, ◌<◌, ◌≤◌, ◌^◌, ◌++◌, ◌∷◌, [], length};
ghost use Rattle.dc_model.specs.Limits.{longest_packet};
ghost use Rattle.dc_model.specs.Event.{second};
ghost use Rattle.dc_model.specs.Puts.{all_put};
ghost use Rattle.dc_packet.specs.Rows.{AreRowsOf, message_in};
ghost use Rattle.dc_machine.specs.Turn as machine;
ghost use Rattle.dc_frames.specs.View.{query_of};
ghost use Rattle.dc_desk.specs.View.{setting_at, at};
ghost use Rattle.dc_heard.specs.Accepted.{accepted_of};
ghost use Rattle.dc_heard.specs.Said.{marks_found, HasSoa};
ghost use Rattle.dc_model.specs.Message.{Message as Said};

use crate::Answered;
use crate::missing::{negative_ttl, no_data};
use crate::record::said;
use dc_desk::{Desk, Moment};
use dc_engine::Effects;
use dc_frames::{Found, Query};
use dc_lines::{Line, line_stats};
use dc_store::Store;
use dc_types::rtype;

/// Whether the name on top is there, but has no records of the wanted type.
#[tactic(auto, using(crate::proofs::Telling::some_is))]
fn has_no_data(query: &Query, found: &Found) -> bool
    ensures { (m : Said) → result ≡ machine.has_no_data (query_of query.now) (marks_found m found.now) }
{
    let wanted = query.wanted();
    !found.out
        && (found.soa.is_some()
            && !(wanted == rtype::ANY || wanted == rtype::AXFR || wanted == rtype::CNAME))
}

/// Remembers missing data, where a message tells of it.
fn remember<S: Store, O: Effects>(
    query: &Query,
    desk: &mut Desk<S>,
    found: &Found,
    answer: Answered<'_>,
    moment: Moment<'_>,
    out: &mut O,
)
    requires some { 0 < length (query_of query.now).frames }
    requires packet { length answer.packet.now ≤ longest_packet }
    requires rows { AreRowsOf answer.packet.now desk.old.table }
    requires soa { HasSoa (message_in answer.packet.now) found.now }
    requires moment { moment.time < 2 ^ 62 }
    ensures store { S.cache desk.new.store ≡ all_put (machine.nodata_puts (setting_at desk.old moment.entry) (marks_found (message_in answer.entry.packet.now) found.now) (at S.cache query.now desk.old)) (second moment.entry.time) (S.cache desk.old.store) }
    ensures acts { O.acted out.old (machine.nodata_lines (setting_at desk.old moment.entry) (marks_found (message_in answer.entry.packet.now) found.now) (accepted_of answer.entry) (at S.cache query.now desk.old)) out.new }
    ensures rest { desk.new ≡ record desk.old { store = desk.new.store } }
{
    if !has_no_data(query, found) {
        return;
    }
    let ttl = negative_ttl(
        &said(answer.packet, &desk.table),
        desk.zones.rule(),
        found.soa,
    );
    no_data(
        query,
        answer.server,
        ttl,
        moment.second(),
        &mut desk.store,
        out,
    );
}

/// Remembers missing data, where a message tells of it, and then tells the counts.
pub(crate) fn tell<S: Store, O: Effects>(
    query: &Query,
    desk: &mut Desk<S>,
    found: &Found,
    answer: Answered<'_>,
    moment: Moment<'_>,
    out: &mut O,
)
    requires some { 0 < length (query_of query.now).frames }
    requires packet { length answer.packet.now ≤ longest_packet }
    requires rows { AreRowsOf answer.packet.now desk.old.table }
    requires soa { HasSoa (message_in answer.packet.now) found.now }
    requires moment { moment.time < 2 ^ 62 }
    ensures store { S.cache desk.new.store ≡ all_put (machine.nodata_puts (setting_at desk.old moment.entry) (marks_found (message_in answer.entry.packet.now) found.now) (at S.cache query.now desk.old)) (second moment.entry.time) (S.cache desk.old.store) }
    ensures acts { O.acted out.old (machine.nodata_lines (setting_at desk.old moment.entry) (marks_found (message_in answer.entry.packet.now) found.now) (accepted_of answer.entry) (at S.cache query.now desk.old)
        ++ machine.stats (setting_at desk.old moment.entry) (S.cache desk.new.store) ∷ []) out.new }
    ensures rest { desk.new ≡ record desk.old { store = desk.new.store } }
{
    remember(query, desk, found, answer, moment, out);
    let counts = desk.counts;
    let mut line = Line::new();
    line_stats(
        &mut line,
        counts.accepted,
        desk.store.motion(),
        counts.udp,
        counts.tcp,
    );
    out.line(line.text());
}
