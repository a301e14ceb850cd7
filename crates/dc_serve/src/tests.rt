//! Serving through the bounds: an engine that answers each event with a line, and a world in memory that keeps what passes.
ghost use Rattle.std.specs.Prelude.{◌≡◌, ◌+◌, ◌<◌, ◌^◌, ℕ, List, [], ◌∷◌, slice_index, Some, IfOk, MatchOption, nat_le, refl};
ghost use Rattle.dc_model.specs.Event.{line};
ghost use Rattle.dc_event.specs.Kept.{IsWithin, IsSound};

use crate::{Served, serve};
use dc_draws::Draws;
use dc_event::{
    Action, Effects, Engine, FullEvent, Given, Heard, Inbox, Kind, MemoryWorld, Passed,
};
use std::alloc::{AllocError, Global};
use std::test::Fail;

/// Writes a line for each event, and is finished after so many.
#[derive(Drop)]
struct Lines {
    handled: u64,
    most: u64,
    last_draw: u32,
}

impl Engine for Lines {
    ghost State = { ℕ × ℕ × ℕ };

    ghost machine = { record {
      opening = λ s. line [] ∷ [];
      wake = λ s. Some s.0;
      finished = λ s. nat_le s.1 s.0;
      actions = λ s e words. line e.bytes ∷ [];
      next = λ s e words. (s.0 + 1, s.1, slice_index words 0);
      handled = λ s. s.0;
    } };

    ghost state = { λ engine. (engine.handled, engine.most, engine.last_draw) };

    fn launch<O: Effects>(&mut self, out: &mut O) {
        out.line(&[]);
    }

    fn step<O: Effects>(&mut self, inbox: &Inbox, draws: &[u32; 17], out: &mut O) {
        out.line(inbox.bytes());
        self.last_draw = draws[0];
        self.handled += 1;
    }

    fn wake(&self) -> Option<u64> {
        Some(self.handled)
    }

    fn finished(&self) -> bool {
        self.most <= self.handled
    }

    ghost counts = { λ s e words. refl };
}

/// A request of one byte.
fn request(alloc: Global, byte: u8) -> Result<FullEvent, AllocError>
    ensures { IfOk result (λ event. IsWithin event) }
{
    Ok(FullEvent {
        now: 5,
        kind: Kind::Request,
        id: 0,
        addr: [127, 0, 0, 1],
        port: 53,
        bytes: [byte].to_vec(alloc)?,
    })
}

/// What a world gives so that it answers this behind its events.
fn given(answer: Heard) -> Option<Given>
    ensures { MatchOption result (Unit {0}) (λ given. IsSound given) }
{
    match answer {
        Heard::Failed => Some(Given::Failed),
        Heard::Bad { line } => Some(Given::Bad { line }),
        _ => None,
    }
}

/// What passes at the opening and at so many events.
fn opening(alloc: Global, handled: u8) -> Result<Vec<Passed>, AllocError> {
    let mut passed = Vec::new(alloc);
    let text = Vec::new(alloc);
    passed.push(Passed::Did(Action::Line { text }))?;
    for byte in 0..handled {
        passed.push(Passed::Asked {
            wake: Some(u64::from(byte)),
            gave: Some(Given::Event(request(alloc, byte)?)),
        })?;
        let text = [byte].to_vec(alloc)?;
        passed.push(Passed::Did(Action::Line { text }))?;
    }
    Ok(passed)
}

/// Requests, what the world answers behind them, the greatest number of lines of the engine, turns, and then the answer, how many requests
/// were handled, and whether the world was asked once more. What passed is all of this, in order.
#[test]
fn serves(rt: HostRuntime) -> Result<(), Fail> {
    let bad = Heard::Bad { line: 7 };
    let cases = [
        (2, Heard::End, 9, 9, Served::Ended, 2, true),
        (2, Heard::Failed, 9, 9, Served::Failed, 2, true),
        (2, bad, 9, 9, Served::Bad { line: 7 }, 2, true),
        (5, Heard::End, 3, 9, Served::Finished, 3, false),
        (5, Heard::End, 9, 4, Served::Spent, 4, false),
        (5, Heard::End, 3, 3, Served::Finished, 3, false),
        (5, Heard::End, 9, 0, Served::Spent, 0, false),
    ];
    let alloc = rt.alloc();
    let mut inbox = Inbox::new(alloc)?;
    for (left, then, most, turns, answer, handled, asks) in cases {
        let mut engine = Lines {
            handled: 0,
            most,
            last_draw: 0,
        };
        let mut world = MemoryWorld::new(alloc, 20, true)?;
        for byte in 0..left {
            world.add(Given::Event(request(alloc, byte)?))?;
        }
        if let Some(given) = given(then) {
            world.add(given)?;
        }
        let mut draws = Draws::from_seed([7; 32]);
        assert!(rt; turns < 100);
        let served = serve(&mut world, &mut engine, &mut draws, &mut inbox, turns);
        assert_eq!(rt; served, answer);
        let mut wanted = opening(alloc, handled)?;
        if asks {
            wanted.push(Passed::Asked {
                wake: Some(u64::from(handled)),
                gave: given(then),
            })?;
        }
        assert_eq!(rt; world.held(), Some(&wanted[..]));
    }
    Ok(())
}
