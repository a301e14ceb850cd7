//! Where a transmission stands in its plan.
ghost use Rattle.std.specs.Prelude.{◌≡◌, ◌<◌, IfSome};

use crate::places::{Servers, filled_place};
use crate::round::Round;

/// Where a transmission stands in its plan: a round, and the place of a server.
#[derive(Clone, Copy, Debug)]
pub(crate) struct Course {
    pub(crate) round: Round,
    pub(crate) place: usize,
    ghost in_range: { place < 16 },
}

impl Course {
    ghost use Rattle.dc_transmit.specs.Rounds.{is_stream, tries_from};
    ghost use Rattle.dc_transmit.specs.Course.{later_of, tries_of};

    /// The first attempt of a round, where a place isn't empty.
    pub(crate) fn first(round: Round, servers: &Servers) -> Option<Course>
        ensures tries { tries_of result servers.now ≡ tries_from round servers.now }
        ensures round { IfSome result (λ c. c.round ≡ round) }
    {
        match filled_place(servers, 0) {
            Some(place) => Some(Course { round, place }),
            None => None,
        }
    }

    /// The attempt that follows this one: at the next place, or at the first place of the next round.
    pub(crate) fn next(self, servers: &Servers) -> Option<Course>
        ensures tries { tries_of result servers.now ≡ later_of self servers.now }
        ensures transport { IfSome result (λ c. is_stream c.round ≡ is_stream self.round) }
    {
        match filled_place(servers, self.place + 1) {
            Some(place) => Some(Course {
                round: self.round,
                place,
            }),
            None => match self.round.next() {
                Some(round) => Course::first(round, servers),
                None => None,
            },
        }
    }
}
