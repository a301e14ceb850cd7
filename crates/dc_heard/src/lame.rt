//! A lame server.
ghost use Rattle.std.specs.Prelude.{◌≡◌, ◌<◌, ◌∷◌, [], length};
ghost use Rattle.dc_model.specs.Event.{Action};
ghost use Rattle.dc_model.specs.Line.{line_lame};
ghost use Rattle.dc_model.specs.Places.{emptied};
ghost use Rattle.dc_machine.specs.Query.{top_of, with_places};
ghost use Rattle.dc_frames.specs.View.{query_of};

use crate::Answered;
use dc_engine::Effects;
use dc_frames::Query;
use dc_lines::{Line, line_lame};
use dc_name::Name;

/// A server that refers to `zone`, which is no help, has its place emptied, so that it isn't asked again.
pub(crate) fn leave_out<O: Effects>(
    query: &mut Query,
    zone: &Name,
    answer: Answered<'_>,
    out: &mut O,
)
    requires some { 0 < length (query_of query.old).frames }
    requires place { answer.place < 16 }
    ensures query { query_of query.new ≡ with_places (query_of query.old) (emptied answer.entry.place (top_of (query_of query.old)).places) }
    ensures acts { O.acted out.old (Action.line (line_lame answer.entry.server (top_of (query_of query.old)).control zone.now) ∷ []) out.new }
{
    let mut line = Line::new();
    line_lame(&mut line, answer.server, query.control(), zone);
    out.line(line.text());
    let mut places = *query.places();
    places[answer.place] = [0; 4];
    query.set_places(&places);
}
