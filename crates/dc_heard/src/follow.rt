//! A message is followed by what it says.
ghost use Rattle.std.specs.Prelude.{◌≡◌, ◌<◌, ◌≤◌, ◌^◌, length};
ghost use Rattle.dc_model.specs.Limits.{longest_packet};
ghost use Rattle.dc_model.specs.Marks as marks;
ghost use Rattle.dc_model.specs.Marks.{Marks};
ghost use Rattle.dc_model.specs.Transmission.{Accepted};
ghost use Rattle.dc_reply.specs.Draft.{Draft};
ghost use Rattle.dc_packet.specs.Rows.{AreRowsOf, message_in};
ghost use Rattle.dc_marks.specs.Places.{record_in};
ghost use Rattle.dc_machine.specs.Turn.{class_row, Setting, State};
ghost use Rattle.dc_frames.specs.View.{query_of};
ghost use Rattle.dc_desk.specs.declared.moment.Moment.{Moment};
ghost use Rattle.dc_desk.specs.Steps.{TookRow};
ghost use Rattle.dc_heard.specs.Accepted.{accepted_of};
ghost use Rattle.dc_heard.specs.Quiet.{Leads};
ghost use Rattle.dc_heard.specs.Said.{class_said, marks_found, IsWithin, HasSoa};

use crate::Answered;
use crate::answers::answers;
use crate::lame::leave_out;
use crate::missing::{negative_ttl, no_name};
use crate::record::{data, host_of, owner, row, said};
use crate::refers::refers;
use crate::says::Says;
use crate::told::tell;
use dc_desk::{Desk, Moment, Point, Step};
use dc_engine::Effects;
use dc_frames::{Found, Query};
use dc_packet::{Message, kept_ttl};
use dc_store::Store;

/// A message is followed, when its records have been put into the cache: a lame server is left out, an alias's target is looked
/// at, what isn't there is remembered, an answer is told, and a referral leads to other servers.
pub(crate) fn follow<S: Store, O: Effects>(
    query: &mut Query,
    desk: &mut Desk<S>,
    says: Says,
    found: &Found,
    answer: Answered<'_>,
    moment: Moment<'_>,
    out: &mut O,
) -> Step
    requires some { 0 < length (query_of query.old).frames }
    requires packet { length answer.packet.now ≤ longest_packet }
    requires rows { AreRowsOf answer.packet.now desk.old.table }
    requires within { IsWithin (message_in answer.packet.now) says }
    requires soa { HasSoa (message_in answer.packet.now) found.now }
    requires place { answer.place < 16 }
    requires moment { moment.time < 2 ^ 62 }
    ensures { TookRow O.acted S.cache (class_row (class_said (message_in answer.entry.packet.now) says) (marks_found (message_in answer.entry.packet.now) found.now) (message_in answer.entry.packet.now) (accepted_of answer.entry)) moment.entry out.old query.old desk.old out.new query.new desk.new result }
{
    match says {
        Says::Lame(i) => lame(query, desk, i, answer, out),
        Says::Alias(i) => alias(&said(answer.packet, &desk.table), i),
        Says::NxDomain => missing(query, desk, found, answer, moment, out),
        Says::Answer => answered(query, desk, found, answer, moment, out),
        Says::Referral(i) => referred(query, desk, i, found, answer, moment, out),
    }
}

/// A lame server is left out, and the servers that remain are asked.
fn lame<S: Store, O: Effects>(
    query: &mut Query,
    desk: &Desk<S>,
    i: usize,
    answer: Answered<'_>,
    out: &mut O,
) -> Step
    requires some { 0 < length (query_of query.old).frames }
    requires packet { length answer.packet.now ≤ longest_packet }
    requires rows { AreRowsOf answer.packet.now desk.now.table }
    requires within { i < length (message_in answer.packet.now).records }
    requires place { answer.place < 16 }
    ensures { (k : Marks) (m : Moment) → TookRow O.acted S.cache (class_row (marks.lame (record_in (message_in answer.entry.packet.now) i).owner) k (message_in answer.entry.packet.now) (accepted_of answer.entry)) m out.old query.old desk.now out.new query.new desk.now result }
{
    let zone = owner(&said(answer.packet, &desk.table), i);
    leave_out(query, &zone, answer, out);
    Step::Go(Point::Next)
}

/// The target of an alias is looked at in place of the name.
#[tactic(auto, unfolding(dc_machine::specs::Turn::class_row))]
fn alias(message: &Message<'_>, i: usize) -> Step
    requires { i < length message.now.records }
    ensures { (k : Marks) (a : Accepted) (g : Setting) (s : State) (d : Draft) → Leads (class_row (marks.renames (record_in message.now i)) k message.now a g s) s.query d result }
{
    let target = host_of(data(message, i));
    Step::Go(Point::Alias(target, kept_ttl(row(message, i).ttl)))
}

/// That the name on top doesn't exist is remembered.
fn missing<S: Store, O: Effects>(
    query: &Query,
    desk: &mut Desk<S>,
    found: &Found,
    answer: Answered<'_>,
    moment: Moment<'_>,
    out: &mut O,
) -> Step
    requires some { 0 < length (query_of query.now).frames }
    requires packet { length answer.packet.now ≤ longest_packet }
    requires rows { AreRowsOf answer.packet.now desk.old.table }
    requires soa { HasSoa (message_in answer.packet.now) found.now }
    requires moment { moment.time < 2 ^ 62 }
    ensures { TookRow O.acted S.cache (class_row marks.no_name (marks_found (message_in answer.entry.packet.now) found.now) (message_in answer.entry.packet.now) (accepted_of answer.entry)) moment.entry out.old query.now desk.old out.new query.now desk.new result }
{
    let message = said(answer.packet, &desk.table);
    let ttl = negative_ttl(&message, desk.zones.rule(), found.soa);
    let second = moment.second();
    no_name(query, answer.server, ttl, second, &mut desk.store, out);
    Step::Go(Point::NxDomain)
}

/// An answer, or that there is none, is told.
fn answered<S: Store, O: Effects>(
    query: &mut Query,
    desk: &mut Desk<S>,
    found: &Found,
    answer: Answered<'_>,
    moment: Moment<'_>,
    out: &mut O,
) -> Step
    requires some { 0 < length (query_of query.old).frames }
    requires packet { length answer.packet.now ≤ longest_packet }
    requires rows { AreRowsOf answer.packet.now desk.old.table }
    requires soa { HasSoa (message_in answer.packet.now) found.now }
    requires moment { moment.time < 2 ^ 62 }
    ensures { TookRow O.acted S.cache (class_row marks.answers (marks_found (message_in answer.entry.packet.now) found.now) (message_in answer.entry.packet.now) (accepted_of answer.entry)) moment.entry out.old query.old desk.old out.new query.new desk.new result }
{
    tell(query, desk, found, answer, moment, out);
    let message = said(answer.packet, &desk.table);
    answers(query, &message, &mut desk.reply)
}

/// A referral leads to other servers.
fn referred<S: Store, O: Effects>(
    query: &mut Query,
    desk: &mut Desk<S>,
    i: usize,
    found: &Found,
    answer: Answered<'_>,
    moment: Moment<'_>,
    out: &mut O,
) -> Step
    requires some { 0 < length (query_of query.old).frames }
    requires packet { length answer.packet.now ≤ longest_packet }
    requires rows { AreRowsOf answer.packet.now desk.old.table }
    requires within { i < length (message_in answer.packet.now).records }
    requires soa { HasSoa (message_in answer.packet.now) found.now }
    requires moment { moment.time < 2 ^ 62 }
    ensures { TookRow O.acted S.cache (class_row (marks.refers (record_in (message_in answer.entry.packet.now) i).owner) (marks_found (message_in answer.entry.packet.now) found.now) (message_in answer.entry.packet.now) (accepted_of answer.entry)) moment.entry out.old query.old desk.old out.new query.new desk.new result }
{
    tell(query, desk, found, answer, moment, out);
    let message = said(answer.packet, &desk.table);
    refers(query, &message, &owner(&message, i))
}
