//! Laws on split machines and rounds.

ghost use Rattle.std.specs.Prelude.{ℕ, ◌≡◌, ◌+◌, ◌-◌, ◌*◌, ◌^◌, ◌<◌, ◌≤◌, List, length};
ghost use Rattle.dc_split.specs.Routing.{core_of_link, inner_link, outer_link};
ghost use Rattle.dc_model.specs.Event.{Event};
ghost use Rattle.dc_engine.specs.Automaton.{state_after, actions_of};
ghost use Rattle.dc_split.specs.Split.{split};
ghost use Rattle.dc_split.specs.Round.{round, states_of, hands_of, givens_from, played, AreApart, TickFirst};

use dc_engine::Engine;

/// Where the events of a round go to different cores, and no tick but the first event is among them, the split machine comes to the states
/// of the round, and does what its cores did, in the order in which the events were heard.
pub fn round_is_split<E: Engine>()
    ensures states { (words : ℕ → List ℕ) (n : ℕ) (ss : List E.State) (es : List Event) → AreApart (hands_of E.machine ss words n es) → TickFirst es
        → state_after (split E.machine) words n ss es ≡ states_of (round E.machine ss (givens_from 0 (hands_of E.machine ss words n es) ss)) }
    ensures actions { (words : ℕ → List ℕ) (n : ℕ) (ss : List E.State) (es : List Event) → AreApart (hands_of E.machine ss words n es) → TickFirst es
        → actions_of (split E.machine) words n ss es
        ≡ played (length ss) (round E.machine ss (givens_from 0 (hands_of E.machine ss words n es) ss)) (hands_of E.machine ss words n es) }
{}

/// A link comes back to the core that made it, with the number by which that core knows it.
pub fn links_come_back()
    ensures core { (cores core link : ℕ) → core < cores → cores ≤ 8 → 1 ≤ link → link ≤ 2 ^ 60 → core_of_link cores (outer_link cores core link) ≡ core }
    ensures link { (cores core link : ℕ) → core < cores → cores ≤ 8 → 1 ≤ link → link ≤ 2 ^ 60 → inner_link cores (outer_link cores core link) ≡ link }
    ensures exact { (cores core link : ℕ) → core < cores → cores ≤ 8 → link ≤ 2 ^ 60 → outer_link cores core link ≡ (link - 1) * cores + core + 1 }
{}
