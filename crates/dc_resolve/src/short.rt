//! What the types of a query's parts bound.
ghost use Rattle.std.specs.Prelude.{◌≤◌, length};
ghost use Rattle.dc_frames.specs.View.{query_of};
ghost use Rattle.dc_machine.specs.Good.{AreShort};

use dc_frames::Query;

/// There are at most five frames, each with at most sixteen server names to do, for want of room for more.
#[tactic(auto, unfolding(dc_frames::specs::View::query_of, dc_frames::specs::View::frames_of), using(crate::proofs::ShortLemmas::shorts))]
pub(crate) fn hosts_fit(query: &Query)
    ensures short { AreShort (query_of query.now).frames }
    ensures most { length (query_of query.now).frames ≤ 5 }
{
    let _ = query.levels();
    for i in 0..query.frames.len {
        let _ = query.frames.slots[i].hosts.len();
    }
}
