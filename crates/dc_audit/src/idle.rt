//! An engine that does nothing.
ghost use Rattle.std.specs.Prelude.{◌≡◌, ℕ, refl};
ghost use Rattle.dc_audit.specs.Idle.{idle};

use dc_engine::{Effects, Engine, Inbox};

/// It counts the events that it is handed, and does nothing else.
#[derive(Drop)]
pub struct Idle {
    handled: u64,
}

impl Idle {
    /// It was handed none.
    pub fn new() -> Idle
        ensures { result.handled ≡ 0 }
    {
        Idle { handled: 0 }
    }
}

impl Engine for Idle {
    ghost State = { ℕ };

    ghost machine = { idle };

    ghost state = { λ i. i.handled };

    fn launch<O: Effects>(&mut self, out: &mut O) {
        let _ = &self.handled;
        let _ = out;
    }

    fn step<O: Effects>(&mut self, inbox: &Inbox, draws: &[u32; 17], out: &mut O) {
        let _ = inbox;
        let _ = draws;
        let _ = out;
        self.handled += 1;
    }

    fn wake(&self) -> Option<u64> {
        None
    }

    fn finished(&self) -> bool {
        false
    }

    ghost counts = { λ s e words. refl };
}
