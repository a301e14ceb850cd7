//! What follows one rule of a turn.
ghost use Rattle.std.specs.Prelude.{◌≡◌, List, true};
ghost use Rattle.dc_model.specs.Event.{Action};
ghost use Rattle.dc_model.specs.Reply.{Reply, fits};
ghost use Rattle.dc_reply.specs.Draft.{Draft, draft_of};
ghost use Rattle.dc_machine.specs.Turn.{State, reply_row};
ghost use Rattle.dc_desk.specs.Steps.{Follows};

use crate::{Cause, Outcome};
use dc_name::Name;

/// Where a turn goes on.
#[derive(Drop)]
pub enum Point {
    /// The name on top is looked at.
    Look,
    /// The next server name of the frame on top is looked for, or its servers are asked.
    Next,
    /// The frame on top is done with.
    Down,
    /// There is no answer.
    Servfail,
    /// The name on top doesn't exist.
    NxDomain,
    /// The name on top is an alias of another, which is known for so many seconds.
    Alias(Name, u32),
}

/// What follows a rule.
#[derive(Drop)]
pub enum Step {
    /// The turn goes on.
    Go(Point),
    /// The turn is over.
    End(Outcome),
}

impl Step {
    /// The turn is over, where a reply was made; where it doesn't fit, the query is given up.
    #[tactic(auto, unfolding(dc_machine::specs::Turn::reply_row))]
    pub fn replied(made: bool) -> Step
        ensures { (d : Draft) (r : Reply) (actions : List Action) (s : State) → made ≡ fits r → (made ≡ true → d ≡ draft_of r)
            → Follows result d (reply_row r actions s).following }
    {
        if made {
            Step::End(Outcome::Replied)
        } else {
            Step::End(Outcome::Dropped(Cause::TooLong))
        }
    }
}
