//! The next server name is looked for, or the servers are asked.
ghost use Rattle.std.specs.Prelude.{◌<◌, ◌≡◌, ◌^◌, [], length, IsNone};
ghost use Rattle.dc_frames.specs.View.{query_of};
ghost use Rattle.dc_machine.specs.Query.{top_of};
ghost use Rattle.dc_machine.specs.Turn as machine;
ghost use Rattle.dc_machine.specs.Turn.{at_next};
ghost use Rattle.dc_resolve.specs.Steps.{TookStep};

use dc_desk::{Desk, Moment, Outcome, Point, Step};
use dc_draws::shuffle;
use dc_engine::Effects;
use dc_frames::Query;
use dc_limits::MOST_LEVELS;
use dc_lines::{Line, line_tx};
use dc_store::Store;
use dc_transmit::Transmit;

/// The next server name of the frame on top has a frame of its own, but at level 4 it is left out. When none is left, the servers
/// are asked, where an address is known.
#[tactic(auto, unfolding(dc_machine::specs::Turn::row, dc_machine::specs::Turn::next_row, dc_machine::specs::Turn::next_by, dc_machine::specs::Turn::state_after))]
pub(crate) fn next<S: Store, O: Effects>(
    query: &mut Query,
    sender: &mut Transmit,
    desk: &mut Desk<S>,
    moment: Moment<'_>,
    out: &mut O,
) -> Step
    requires some { 0 < length (query_of query.old).frames }
    requires idle { IsNone sender.old.attempt }
    requires links { desk.old.link < 2 ^ 60 }
    requires moment { moment.time < 2 ^ 62 }
    ensures { TookStep O.acted S.cache at_next moment.entry out.old query.old desk.old out.new query.new desk.new sender.new result }
{
    if let Some(host) = query.take_host() {
        if query.levels() >= MOST_LEVELS {
            return Step::Go(Point::Next);
        }
        query.raise(host);
        return Step::Go(Point::Look);
    }
    ask(query, sender, desk, moment, out)
}

/// The servers of the frame on top are asked, where an address is known, in an order by the random words.
#[tactic(auto, unfolding(dc_machine::specs::Turn::row, dc_machine::specs::Turn::next_row, dc_machine::specs::Turn::next_by, dc_machine::specs::Turn::ask_row, dc_machine::specs::Turn::state_after, dc_desk::specs::View::setting_of))]
fn ask<S: Store, O: Effects>(
    query: &mut Query,
    sender: &mut Transmit,
    desk: &mut Desk<S>,
    moment: Moment<'_>,
    out: &mut O,
) -> Step
    requires some { 0 < length (query_of query.old).frames }
    requires hosts { (top_of (query_of query.old)).hosts ≡ [] }
    requires idle { IsNone sender.old.attempt }
    requires links { desk.old.link < 2 ^ 60 }
    requires moment { moment.time < 2 ^ 62 }
    ensures { TookStep O.acted S.cache at_next moment.entry out.old query.old desk.old out.new query.new desk.new sender.new result }
{
    if query.none_placed() {
        return Step::Go(Point::Servfail);
    }
    let mut places = *query.places();
    shuffle(&mut places, moment.draws);
    query.set_places(&places);
    let mut line = Line::new();
    line_tx(
        &mut line,
        query.levels() - 1,
        query.wanted(),
        query.name(),
        query.control(),
        &places,
    );
    out.line(line.text());
    sender.start(
        &places,
        query.name(),
        query.wanted(),
        desk.forward,
        moment.draws,
        moment.time,
        &mut desk.link,
        out,
    );
    Step::End(Outcome::Waiting)
}
