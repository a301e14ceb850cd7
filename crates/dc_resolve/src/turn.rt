//! Turns of a query.
ghost use Rattle.std.specs.Prelude.{◌≡◌, ◌<◌, ◌^◌, length, IsNone, IsSome, Some};
ghost use Rattle.dc_model.specs.Limits.{most_turns};
ghost use Rattle.dc_packet.specs.Question.{asked};
ghost use Rattle.dc_frames.specs.View.{query_of};
ghost use Rattle.dc_transmit.specs.Attempts.{occasion};
ghost use Rattle.dc_transmit.specs.Standing.{followed};
ghost use Rattle.dc_model.specs.Transmission.{Accepted};
ghost use Rattle.dc_machine.specs.Turn.{turn, at_begin, at_heard, at_failed};
ghost use Rattle.dc_machine.specs.Good.{IsGood};
ghost use Rattle.dc_desk.specs.View.{setting_at, setting_of, at};
ghost use Rattle.dc_desk.specs.Steps.{point_of};
ghost use Rattle.dc_resolve.specs.Steps.{TookStep};
ghost use Rattle.dc_resolve.specs.Turns.{TookTurned, turned_after, begins};

use crate::next::next;
use crate::rows::{alias, begin, down, fail, nxdomain, servfail};
use crate::short::hosts_fit;
use dc_desk::{Cause, Desk, Moment, Outcome, Point, Step};
use dc_engine::{Effects, Inbox};
use dc_frames::Query;
use dc_heard::{Answered, hear};
use dc_limits::MOST_ROWS;
use dc_look::look;
use dc_packet::Request;
use dc_store::Store;
use dc_transmit::{Progress, Transmit};

/// One row of the table.
#[tactic(auto, unfolding(dc_machine::specs::Turn::row), using(crate::proofs::TurnLemmas::took_step))]
fn step<S: Store, O: Effects>(
    query: &mut Query,
    sender: &mut Transmit,
    desk: &mut Desk<S>,
    point: Point,
    moment: Moment<'_>,
    out: &mut O,
) -> Step
    requires good { IsGood (point_of point) (query_of query.old) }
    requires idle { IsNone sender.old.attempt }
    requires links { desk.old.link < 2 ^ 60 }
    requires moment { moment.time < 2 ^ 62 }
    ensures { TookStep O.acted S.cache (point_of point) moment.entry out.old query.old desk.old out.new query.new desk.new sender.new result }
{
    match point {
        Point::Look => look(query, desk, moment, out),
        Point::Next => next(query, sender, desk, moment, out),
        Point::Down => down(query, desk, out),
        Point::Servfail => servfail(query, desk, out),
        Point::NxDomain => nxdomain(query, desk, out),
        Point::Alias(target, ttl) => alias(query, desk, target, ttl, out),
    }
}

/// Rows from a point on, until the query waits or ends.
fn go<S: Store, O: Effects>(
    query: &mut Query,
    sender: &mut Transmit,
    desk: &mut Desk<S>,
    from: Point,
    moment: Moment<'_>,
    out: &mut O,
) -> Outcome
    requires good { IsGood (point_of from) (query_of query.old) }
    requires idle { IsNone sender.old.attempt }
    requires links { desk.old.link < 2 ^ 60 }
    requires moment { moment.time < 2 ^ 62 }
    ensures turn { TookTurned O.acted out.old out.new (turn (setting_at desk.old moment.entry) (point_of from) (at S.cache query.old desk.old)) (at S.cache query.new desk.new) desk.new.reply sender.new result }
    ensures setting { setting_at desk.new moment.entry ≡ setting_at desk.old moment.entry }
    ensures counts { desk.new.counts ≡ desk.old.counts }
{
    let mut point = from;
    for i in 0..MOST_ROWS {
        match step(query, sender, desk, point, moment, out) {
            Step::Go(further) => point = further,
            Step::End(outcome) => return outcome,
        }
    }
    unreachable!()
}

/// A query begins: it takes the request, and has its first turn.
pub fn start<S: Store, O: Effects>(
    query: &mut Query,
    sender: &mut Transmit,
    request: &Request,
    desk: &mut Desk<S>,
    draws: &[u32; 17],
    now: u64,
    out: &mut O,
) -> Outcome
    requires idle { IsNone sender.old.attempt }
    requires links { desk.old.link < 2 ^ 60 }
    requires moment { now < 2 ^ 62 }
    ensures turn { TookTurned O.acted out.old out.new (turn (setting_of desk.old.zones desk.old.forward desk.old.counts now draws.now) at_begin (begins (asked request.now) S.cache desk.old)) (at S.cache query.new desk.new) desk.new.reply sender.new result }
    ensures setting { setting_of desk.new.zones desk.new.forward desk.new.counts now draws.now ≡ setting_of desk.old.zones desk.old.forward desk.old.counts now draws.now }
    ensures counts { desk.new.counts ≡ desk.old.counts }
{
    let moment = Moment { time: now, draws };
    query.take(request);
    match begin(query, desk, out) {
        Step::Go(point) => go(query, sender, desk, point, moment, out),
        Step::End(outcome) => outcome,
    }
}

/// The moment of the event in an inbox.
fn moment_of<'a>(inbox: &Inbox, draws: &'a [u32; 17]) -> Moment<'a>
    ensures time { result.time ≡ inbox.now.now }
    ensures draws { result.draws.now ≡ draws.now }
    ensures bound { result.time < 2 ^ 62 }
{
    Moment {
        time: inbox.event().now,
        draws,
    }
}

/// Goes on with the packet that the transmission has just accepted.
pub fn heard<S: Store, O: Effects>(
    query: &mut Query,
    sender: &mut Transmit,
    desk: &mut Desk<S>,
    inbox: &Inbox,
    draws: &[u32; 17],
    out: &mut O,
) -> Outcome
    requires frame { 0 < length (query_of query.old).frames }
    requires turns { (query_of query.old).turns < most_turns }
    requires packet { IsSome sender.old.accepted }
    requires idle { IsNone sender.old.attempt }
    requires links { desk.old.link < 2 ^ 60 }
    ensures turn { (p : Accepted) → sender.old.accepted ≡ Some p → TookTurned O.acted out.old out.new (turn (setting_of desk.old.zones desk.old.forward desk.old.counts inbox.now.now draws.now) (at_heard p) (at S.cache query.old desk.old)) (at S.cache query.new desk.new) desk.new.reply sender.new result }
    ensures setting { setting_of desk.new.zones desk.new.forward desk.new.counts inbox.now.now draws.now ≡ setting_of desk.old.zones desk.old.forward desk.old.counts inbox.now.now draws.now }
    ensures counts { desk.new.counts ≡ desk.old.counts }
{
    let moment = moment_of(inbox, draws);
    hosts_fit(query);
    let answer = Answered {
        packet: sender.packet(),
        server: sender.server(),
        place: sender.place(),
    };
    match hear(query, desk, answer, moment, out) {
        Step::Go(point) => go(query, sender, desk, point, moment, out),
        Step::End(outcome) => outcome,
    }
}

/// Goes on where the transmission has just failed.
pub fn failed<S: Store, O: Effects>(
    query: &mut Query,
    sender: &mut Transmit,
    desk: &mut Desk<S>,
    inbox: &Inbox,
    draws: &[u32; 17],
    out: &mut O,
) -> Outcome
    requires frame { 0 < length (query_of query.old).frames }
    requires turns { (query_of query.old).turns < most_turns }
    requires idle { IsNone sender.old.attempt }
    requires links { desk.old.link < 2 ^ 60 }
    ensures turn { TookTurned O.acted out.old out.new (turn (setting_of desk.old.zones desk.old.forward desk.old.counts inbox.now.now draws.now) at_failed (at S.cache query.old desk.old)) (at S.cache query.new desk.new) desk.new.reply sender.new result }
    ensures setting { setting_of desk.new.zones desk.new.forward desk.new.counts inbox.now.now draws.now ≡ setting_of desk.old.zones desk.old.forward desk.old.counts inbox.now.now draws.now }
    ensures counts { desk.new.counts ≡ desk.old.counts }
{
    let moment = moment_of(inbox, draws);
    hosts_fit(query);
    match fail(query, desk, out) {
        Step::Go(point) => go(query, sender, desk, point, moment, out),
        Step::End(outcome) => outcome,
    }
}

/// Gives an event to the query's transmission, and goes on where that has ended.
pub fn event<S: Store, O: Effects>(
    query: &mut Query,
    sender: &mut Transmit,
    desk: &mut Desk<S>,
    inbox: &Inbox,
    draws: &[u32; 17],
    out: &mut O,
) -> Outcome
    requires frame { 0 < length (query_of query.old).frames }
    requires turns { (query_of query.old).turns < most_turns }
    requires asking { IsSome sender.old.attempt }
    requires links { desk.old.link < 2 ^ 60 }
    ensures turn { TookTurned O.acted out.old out.new (turned_after (followed sender.old.attempt inbox.now (occasion inbox.now.now draws.now desk.old.link)) (setting_of desk.old.zones desk.old.forward desk.old.counts inbox.now.now draws.now) (at S.cache query.old desk.old)) (at S.cache query.new desk.new) desk.new.reply sender.new result }
    ensures setting { setting_of desk.new.zones desk.new.forward desk.new.counts inbox.now.now draws.now ≡ setting_of desk.old.zones desk.old.forward desk.old.counts inbox.now.now draws.now }
    ensures counts { desk.new.counts ≡ desk.old.counts }
{
    match sender.on_event(inbox, draws, &mut desk.link, out) {
        Progress::Waiting => Outcome::Waiting,
        Progress::Packet => heard(query, sender, desk, inbox, draws, out),
        Progress::Failed => failed(query, sender, desk, inbox, draws, out),
        Progress::NoPort => Outcome::Dropped(Cause::NoPort),
    }
}
