//! An engine whose actions are compared with a recorded text.
ghost use Rattle.std.specs.Prelude.{◌≡◌, ℕ, ◌+◌, ◌<◌, ◌^◌, Some, is_some};
ghost use Rattle.dc_script.specs.Text.{text_of};
ghost use Rattle.dc_audit.specs.Judging.{compared_of, compare_next, at_last, first_number, Judged, judging, going};

use crate::Verdict;
use crate::matching::Matching;
use dc_engine::{Effects, Engine, Inbox};

/// An engine that does nothing outside: the text of each action is compared with what is left of a recorded text, and neither is kept.
#[derive(Drop)]
pub struct Judging<'a, E: Engine> {
    engine: E,
    text: Matching<'a>,
    handled: u64,
    /// The number of the first event whose actions differ, where one's do.
    first: u64,
    ghost counted: { handled ≡ E.machine.handled (E.state engine) },
}

/// The number of the first text that differs.
fn number_by(before: bool, after: bool, number: u64, first: u64) -> u64
    ensures { result ≡ first_number before after number first }
{
    if before && !after { number } else { first }
}

impl<'a, E: Engine> Judging<'a, E> {
    /// The engine is launched, and its opening is compared.
    pub fn new(mut engine: E, recorded: &'a [u8]) -> Judging<'a, E>
        requires { E.machine.handled (E.state engine) ≡ 0 }
        ensures engine { E.state result.engine ≡ E.state engine }
        ensures compared { compared_of result.text result.first ≡ compare_next 0 (text_of (E.machine.opening (E.state engine))) (going recorded.now) }
    {
        let mut text = Matching::new(recorded);
        engine.launch(&mut text);
        Judging {
            engine,
            text,
            handled: 0,
            first: 0,
        }
    }

    /// What the comparison comes to behind the events that were handled.
    pub fn verdict(&self) -> Verdict
        requires { E.machine.handled (E.state self.now.engine) < 2 ^ 60 }
        ensures { result ≡ at_last (E.machine.handled (E.state self.now.engine) + 1) (compared_of self.now.text self.now.first) }
    {
        match self.text.rest() {
            None => Verdict::Differs(self.first),
            Some([]) => Verdict::Same,
            Some(_) => Verdict::Differs(self.handled + 1),
        }
    }
}

impl<'a, E: Engine> Engine for Judging<'a, E> {
    ghost State = { Judged E.State };

    ghost machine = { judging E.machine };

    ghost state = { λ j. record { inner = E.state j.engine; compared = compared_of j.text j.first } };

    fn launch<O: Effects>(&mut self, out: &mut O) {
        let _ = &self.handled;
        let _ = out;
    }

    fn step<O: Effects>(&mut self, inbox: &Inbox, draws: &[u32; 17], out: &mut O) {
        let _ = out;
        let before = self.text.goes_on();
        self.engine.step(inbox, draws, &mut self.text);
        self.handled += 1;
        let after = self.text.goes_on();
        self.first = number_by(before, after, self.handled, self.first);
    }

    fn wake(&self) -> Option<u64> {
        self.engine.wake()
    }

    fn finished(&self) -> bool {
        self.engine.finished()
    }

    ghost counts = { λ s e words. E.counts s.inner e words };
}
