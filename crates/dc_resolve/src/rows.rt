//! The rules that ask nobody and look at nothing.
ghost use Rattle.std.specs.Prelude.{◌<◌, length};
ghost use Rattle.dc_frames.specs.View.{query_of};
ghost use Rattle.dc_machine.specs.Turn as machine;
ghost use Rattle.dc_desk.specs.Steps.{TookRow};
ghost use Rattle.dc_desk.specs.declared.moment.Moment.{Moment};

use dc_answer::{reply_failure, reply_missing};
use dc_desk::{Cause, Desk, Outcome, Point, Step};
use dc_engine::Effects;
use dc_frames::Query;
use dc_limits::MOST_ALIASES;
use dc_lines::{Line, line_servfail};
use dc_name::Name;
use dc_store::Store;
use dc_types::rtype;

/// The query begins: its lowest frame looks for the name that was asked for.
#[tactic(auto, unfolding(dc_machine::specs::Turn::begin_row))]
pub(crate) fn begin<S: Store, O: Effects>(
    query: &mut Query,
    desk: &mut Desk<S>,
    out: &mut O,
) -> Step
    ensures { (m : Moment) → TookRow O.acted S.cache (λ g s. machine.begin_row s) m out.old query.old desk.old out.new query.new desk.new result }
{
    let _ = &desk.link;
    let _ = &out;
    if query.request().qtype == rtype::AXFR {
        return Step::End(Outcome::Dropped(Cause::Axfr));
    }
    query.begin();
    Step::Go(Point::Look)
}

/// The frame on top is done with.
#[tactic(auto, unfolding(dc_machine::specs::Turn::down_row))]
pub(crate) fn down<S: Store, O: Effects>(query: &mut Query, desk: &mut Desk<S>, out: &mut O) -> Step
    requires { 0 < length (query_of query.old).frames }
    ensures { (m : Moment) → TookRow O.acted S.cache (λ g s. machine.down_row s) m out.old query.old desk.old out.new query.new desk.new result }
{
    let _ = &desk.link;
    let _ = &out;
    query.lower();
    Step::Go(Point::Next)
}

/// There is no answer: the client is told so, and above level 0 only a server's address is missing.
#[tactic(auto, unfolding(dc_machine::specs::Turn::servfail_row))]
pub(crate) fn servfail<S: Store, O: Effects>(
    query: &mut Query,
    desk: &mut Desk<S>,
    out: &mut O,
) -> Step
    requires { 0 < length (query_of query.old).frames }
    ensures { (m : Moment) → TookRow O.acted S.cache (λ g s. machine.servfail_row s) m out.old query.old desk.old out.new query.new desk.new result }
{
    let _ = &out;
    if !query.is_lowest() {
        return Step::Go(Point::Down);
    }
    Step::replied(reply_failure(query, &mut desk.reply))
}

/// The name doesn't exist: the client is told so, and above level 0 only a server's address is missing.
#[tactic(auto, unfolding(dc_machine::specs::Turn::nxdomain_row))]
pub(crate) fn nxdomain<S: Store, O: Effects>(
    query: &mut Query,
    desk: &mut Desk<S>,
    out: &mut O,
) -> Step
    requires { 0 < length (query_of query.old).frames }
    ensures { (m : Moment) → TookRow O.acted S.cache (λ g s. machine.nxdomain_row s) m out.old query.old desk.old out.new query.new desk.new result }
{
    let _ = &out;
    if !query.is_lowest() {
        return Step::Go(Point::Down);
    }
    Step::replied(reply_missing(query, &mut desk.reply))
}

/// An alias's target is looked at in place of the name. At level 0 the client is told of the alias, of sixteen at most.
pub(crate) fn alias<S: Store, O: Effects>(
    query: &mut Query,
    desk: &mut Desk<S>,
    target: Name,
    ttl: u32,
    out: &mut O,
) -> Step
    requires { 0 < length (query_of query.old).frames }
    ensures { (m : Moment) → TookRow O.acted S.cache (λ g s. machine.alias_row target ttl s) m out.old query.old desk.old out.new query.new desk.new result }
{
    let _ = &desk.link;
    let _ = &out;
    if !query.is_lowest() {
        query.rename(target);
        return Step::Go(Point::Look);
    }
    if query.aliases() >= MOST_ALIASES {
        return Step::End(Outcome::Dropped(Cause::Aliases));
    }
    query.push_alias(ttl);
    query.rename(target);
    Step::Go(Point::Look)
}

/// No server answered.
#[tactic(auto, unfolding(dc_machine::specs::Turn::failed_row))]
pub(crate) fn fail<S: Store, O: Effects>(query: &mut Query, desk: &mut Desk<S>, out: &mut O) -> Step
    requires { 0 < length (query_of query.old).frames }
    ensures { (m : Moment) → TookRow O.acted S.cache (λ g s. machine.failed_row s) m out.old query.old desk.old out.new query.new desk.new result }
{
    let _ = &desk.link;
    let mut line = Line::new();
    line_servfail(&mut line, query.name());
    out.line(line.text());
    Step::Go(Point::Servfail)
}
