//! What handles the events.
ghost use Rattle.std.specs.Prelude.{◌≡◌, ℕ, ◌+◌, ◌<◌, ◌^◌, List};
ghost use Rattle.dc_model.specs.Event.{Event};
ghost use Rattle.dc_engine.specs.Automaton.{Automaton};

use crate::{Effects, Inbox};

/// A machine over events.
///
/// It handles fewer than 2^60 events, one by each call of `step`.
pub trait Engine {
    /// The states of the machine. What the engine goes by, as its configuration, is part of the state.
    ghost State: { Type 0 };
    /// What each event makes of a state.
    ghost machine: { Automaton State };
    /// The state that an engine stands for.
    ghost state: { Self → State };

    /// Comes once in each call of `serve`, before that call's first event.
    fn launch<O: Effects>(&mut self, out: &mut O)
        ensures acted { O.acted out.old (machine.opening (state self.old)) out.new }
        ensures state { state self.new ≡ state self.old };

    /// Handles one event, with the random words that are its own.
    fn step<O: Effects>(&mut self, inbox: &Inbox, draws: &[u32; 17], out: &mut O)
        requires { machine.handled (state self.old) < 2 ^ 60 }
        ensures acted { O.acted out.old (machine.actions (state self.old) inbox.now draws.now) out.new }
        ensures state { state self.new ≡ machine.next (state self.old) inbox.now draws.now };

    /// The moment in milliseconds at which a Tick is wanted, if one is.
    fn wake(&self) -> Option<u64>
        ensures { result ≡ machine.wake (state self.now) };

    /// Whether no further event is wanted.
    fn finished(&self) -> bool
        ensures { result ≡ machine.finished (state self.now) };

    /// Each event counts.
    ghost counts: { (s : State) (e : Event) (words : List ℕ) → machine.handled (machine.next s e words) ≡ machine.handled s + 1 };
}
