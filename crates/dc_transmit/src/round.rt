//! Rounds of attempts.
ghost use Rattle.std.specs.Prelude.{◌≡◌, ◌≤◌, ◌∷◌, [], IfSome, MatchOption, false};
ghost use Rattle.dc_model.specs.Limits.{fourth_wait};
ghost use Rattle.dc_model.specs.Transmission.{waits_of};
ghost use Rattle.dc_transmit.specs.Rounds.{wait_of, waits_after, is_stream, is_patient_round};

use dc_limits::{FIRST_WAIT, FOURTH_WAIT, SECOND_WAIT, TCP_WAIT, THIRD_WAIT};

/// A round of attempts, one at each server.
#[derive(Clone, Copy, Debug)]
pub(crate) enum Round {
    /// Over UDP, with the shortest wait for each server.
    First,
    /// Over UDP, with a longer one.
    Second,
    /// Over UDP, with one that is longer still. Bad news is ignored in it.
    Third,
    /// Over UDP, with the longest.
    Fourth,
    /// Over TCP.
    Stream,
}

impl Round {
    /// The first round over UDP. Who wants recursion leaves out the shortest.
    pub(crate) fn opening(recursive: bool) -> Round
        ensures waits { waits_of recursive ≡ wait_of result ∷ waits_after result }
        ensures transport { is_stream result ≡ false }
    {
        if recursive {
            Round::Second
        } else {
            Round::First
        }
    }

    /// How many milliseconds a server is given.
    pub(crate) fn wait(self) -> u64
        ensures wait { result ≡ wait_of self }
        ensures most { result ≤ fourth_wait }
    {
        match self {
            Round::First => FIRST_WAIT,
            Round::Second => SECOND_WAIT,
            Round::Third => THIRD_WAIT,
            Round::Fourth => FOURTH_WAIT,
            Round::Stream => TCP_WAIT,
        }
    }

    /// Whether its attempts go over TCP.
    pub(crate) fn is_stream(self) -> bool
        ensures { result ≡ is_stream self }
    {
        matches!(self, Round::Stream)
    }

    /// Whether bad news is ignored in it.
    pub(crate) fn is_patient(self) -> bool
        ensures { result ≡ is_patient_round self }
    {
        matches!(self, Round::Third)
    }

    /// The round behind this one.
    pub(crate) fn next(self) -> Option<Round>
        ensures waits { MatchOption result (waits_after self ≡ []) (λ r. waits_after self ≡ wait_of r ∷ waits_after r) }
        ensures transport { IfSome result (λ r. is_stream r ≡ is_stream self) }
    {
        match self {
            Round::First => Some(Round::Second),
            Round::Second => Some(Round::Third),
            Round::Third => Some(Round::Fourth),
            Round::Fourth | Round::Stream => None,
        }
    }
}
