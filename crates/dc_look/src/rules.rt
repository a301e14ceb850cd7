//! The rules of a look, in their order.
ghost use Rattle.std.specs.Prelude.{◌<◌, length};
ghost use Rattle.dc_model.specs.Limits.{most_turns};
ghost use Rattle.dc_frames.specs.View.{query_of};
ghost use Rattle.dc_machine.specs.Turn.{look_row, rules_row, loopback_row};
ghost use Rattle.dc_desk.specs.Steps.{TookRow};

use crate::built_in::{built_in, give_address, give_host, is_loopback};
use crate::cached::missing;
use dc_desk::{Cause, Desk, Key, Moment, Outcome, Step};
use dc_engine::Effects;
use dc_frames::Query;
use dc_store::Store;

/// A name is looked at: one turn is counted, the hundredth drops the query, and else the first rule that fits is followed.
pub fn look<S: Store, O: Effects>(
    query: &mut Query,
    desk: &mut Desk<S>,
    moment: Moment<'_>,
    out: &mut O,
) -> Step
    requires some { 0 < length (query_of query.old).frames }
    requires turns { (query_of query.old).turns < most_turns }
    ensures { TookRow O.acted S.cache look_row moment.entry out.old query.old desk.old out.new query.new desk.new result }
{
    query.count();
    if query.turns() >= 100 {
        let _ = &out;
        return Step::End(Outcome::Dropped(Cause::Turns));
    }
    first_rules(query, desk, moment, out)
}

/// What is built in comes first.
fn first_rules<S: Store, O: Effects>(
    query: &mut Query,
    desk: &mut Desk<S>,
    moment: Moment<'_>,
    out: &mut O,
) -> Step
    requires { 0 < length (query_of query.old).frames }
    ensures { TookRow O.acted S.cache rules_row moment.entry out.old query.old desk.old out.new query.new desk.new result }
{
    match built_in(query.name()) {
        Some(address) => give_address(query, desk, address, out),
        None => other_rules(query, desk, moment, out),
    }
}

/// The name of the loopback address comes next, and then the cache.
fn other_rules<S: Store, O: Effects>(
    query: &mut Query,
    desk: &mut Desk<S>,
    moment: Moment<'_>,
    out: &mut O,
) -> Step
    requires { 0 < length (query_of query.old).frames }
    ensures { TookRow O.acted S.cache loopback_row moment.entry out.old query.old desk.old out.new query.new desk.new result }
{
    if is_loopback(query.name()) {
        return give_host(query, desk, out);
    }
    let mut key = Key::new(query.name());
    missing(query, desk, &mut key, moment, out)
}
