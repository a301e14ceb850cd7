//! Two cores over a world in memory: their steps are made at once, and their actions come in the order of their events.
ghost use Rattle.std.specs.Prelude.{◌≡◌, ◌+◌, ◌^◌, ℕ, List, [], ◌∷◌, None, false, length, IfOk, refl};
ghost use Rattle.dc_model.specs.Event.{line};
ghost use Rattle.dc_event.specs.Kept.{IsWithin};
ghost use Rattle.dc_shard.specs.Bays.{states_of, outs_of, AreFree, MayStepEach};
ghost use Rattle.dc_shard.specs.Rounds.{AreBlank};
ghost use Rattle.dc_shard.specs.Taped.{blank};

use crate::{Bay, ShardServed, Shards, Tape, serve_shards};
use dc_draws::Draws;
use dc_event::{Action, Effects, Engine, FullEvent, Given, Inbox, Kind, MemoryWorld, Passed};
use std::alloc::{AllocError, Global};
use std::sync::atomic::{AtomicU64, Ordering};
use std::test::Fail;

/// Writes the bytes of each event as a line. At each step it says that it has come, and looks for a while whether another has.
#[derive(Drop)]
struct Meeting<'a> {
    handled: u64,
    come: &'a AtomicU64,
    met: &'a AtomicU64,
}

impl<'a> Engine for Meeting<'a> {
    ghost State = { ℕ };

    ghost machine = { record {
      opening = λ s. line [] ∷ [];
      wake = λ s. None;
      finished = λ s. false;
      actions = λ s e words. line e.bytes ∷ [];
      next = λ s e words. s + 1;
      handled = λ s. s;
    } };

    ghost state = { λ engine. engine.handled };

    fn launch<O: Effects>(&mut self, out: &mut O) {
        out.line(&[]);
    }

    fn step<O: Effects>(&mut self, inbox: &Inbox, _draws: &[u32; 17], out: &mut O) {
        out.line(inbox.bytes());
        self.handled += 1;
        self.come.fetch_add(1, Ordering::SeqCst);
        for _ in 0..50000000u32 {
            if self.come.load(Ordering::SeqCst) == 2 {
                self.met.fetch_add(1, Ordering::SeqCst);
                break;
            }
        }
    }

    fn wake(&self) -> Option<u64> {
        None
    }

    fn finished(&self) -> bool {
        false
    }

    ghost counts = { λ s e words. refl };
}

/// A core that has handled nothing, at its place.
fn bay<'a>(
    alloc: Global,
    come: &'a AtomicU64,
    met: &'a AtomicU64,
) -> Result<Bay<Meeting<'a>, Tape>, AllocError>
    ensures handled { IfOk result (λ b. b.core.handled ≡ 0) }
    ensures free { IfOk result (λ b. b.given ≡ false) }
    ensures blank { IfOk result (λ b. b.out ≡ blank) }
{
    Ok(Bay {
        core: Meeting {
            handled: 0,
            come,
            met,
        },
        inbox: Inbox::new(alloc)?,
        draws: [0; 17],
        given: false,
        out: Tape::new(alloc)?,
    })
}

/// The bytes of a connection.
fn event(alloc: Global, conn: u64, byte: u8) -> Result<FullEvent, AllocError>
    ensures { IfOk result (λ event. IsWithin event) }
{
    Ok(FullEvent {
        now: 5,
        kind: Kind::ConnBytes,
        id: conn,
        addr: [0; 4],
        port: 0,
        bytes: [byte].to_vec(alloc)?,
    })
}

/// A line of one byte, or none.
fn written(alloc: Global, bytes: &[u8]) -> Result<Passed, AllocError> {
    let text = bytes.to_vec(alloc)?;
    Ok(Passed::Did(Action::Line { text }))
}

/// What passes while two cores handle the bytes of connections 3 and 2, which are for the second core and for the first, and then those of
/// connection 4, which are for the first again.
fn wanted(alloc: Global) -> Result<Vec<Passed>, AllocError> {
    let mut passed = Vec::new(alloc);
    passed.push(written(alloc, &[])?)?;
    passed.push(Passed::Asked {
        wake: None,
        gave: Some(Given::Event(event(alloc, 3, 30)?)),
    })?;
    passed.push(Passed::Gathered(event(alloc, 2, 20)?))?;
    passed.push(Passed::Gathered(event(alloc, 4, 40)?))?;
    passed.push(written(alloc, &[30])?)?;
    passed.push(written(alloc, &[20])?)?;
    passed.push(written(alloc, &[40])?)?;
    passed.push(Passed::Asked {
        wake: None,
        gave: None,
    })?;
    Ok(passed)
}

#[test]
fn two_cores_step_at_once(rt: HostRuntime) -> Result<(), Fail> {
    let alloc = rt.alloc();
    let come = AtomicU64::new(0);
    let met = AtomicU64::new(0);
    let first = bay(alloc, &come, &met)?;
    let second = bay(alloc, &come, &met)?;
    let mut bays = Vec::new(alloc);
    bays.push(first)?;
    bays.push(second)?;
    let mut shards = Shards::new(bays);
    let mut world = MemoryWorld::new(alloc, 20, true)?;
    for (conn, byte) in [(3, 30), (2, 20), (4, 40)] {
        world.add(Given::Event(event(alloc, conn, byte)?))?;
    }
    let mut inbox = Inbox::new(alloc)?;
    let mut draws = Draws::from_seed([7; 32]);
    let served = serve_shards(&rt, &mut world, &mut shards, &mut inbox, &mut draws, 9);
    assert_eq!(rt; served, ShardServed::Ended);
    assert_eq!(rt;
        met.load(Ordering::SeqCst),
        2,
        "each of the two saw the other"
    );
    assert_eq!(rt; world.held(), Some(&wanted(alloc)?[..]));
    Ok(())
}

/// Writes a line at each step.
#[derive(Drop)]
struct Writing {
    handled: u64,
}

impl Engine for Writing {
    ghost State = { ℕ };

    ghost machine = { record {
      opening = λ s. [];
      wake = λ s. None;
      finished = λ s. false;
      actions = λ s e words. line e.bytes ∷ [];
      next = λ s e words. s + 1;
      handled = λ s. s;
    } };

    ghost state = { λ engine. engine.handled };

    fn launch<O: Effects>(&mut self, _out: &mut O) {}

    fn step<O: Effects>(&mut self, inbox: &Inbox, _draws: &[u32; 17], out: &mut O) {
        out.line(inbox.bytes());
        self.handled += 1;
    }

    fn wake(&self) -> Option<u64> {
        None
    }

    fn finished(&self) -> bool {
        false
    }

    ghost counts = { λ s e words. refl };
}

/// Counts its lines. At the first it says so, and looks for a while whether another out was given one.
#[derive(Drop)]
struct Signal<'a> {
    lines: u64,
    given: &'a AtomicU64,
    met: &'a AtomicU64,
}

impl<'a> Effects for Signal<'a> {
    ghost acted = { λ a actions b. Unit {0} };

    fn reply(&mut self, _addr: [u8; 4], _port: u16, _bytes: &[u8]) {}

    fn conn_reply(&mut self, _conn: u64, _bytes: &[u8]) {}

    fn conn_close(&mut self, _conn: u64) {}

    fn udp(&mut self, _link: u64, _local_port: u16, _server: [u8; 4], _query: &[u8]) {}

    fn tcp(&mut self, _link: u64, _local_port: u16, _server: [u8; 4]) {}

    fn link_write(&mut self, _link: u64, _bytes: &[u8]) {}

    fn link_close(&mut self, _link: u64) {}

    fn line(&mut self, _text: &[u8]) {
        self.lines = self.lines.saturating_add(1);
        if self.lines > 1 {
            return;
        }
        self.given.fetch_add(1, Ordering::SeqCst);
        for _ in 0..50000000u32 {
            if self.given.load(Ordering::SeqCst) == 2 {
                self.met.fetch_add(1, Ordering::SeqCst);
                break;
            }
        }
    }

    ghost acted_none = { λ a. tt };

    ghost acted_both = { λ a b c xs ys first second. tt };
}

/// A bay whose core has handled nothing and is given an event, and whose out has had no line.
fn given_bay<'a>(
    alloc: Global,
    given: &'a AtomicU64,
    met: &'a AtomicU64,
) -> Result<Bay<Writing, Signal<'a>>, AllocError>
    ensures handled { IfOk result (λ b. b.core.handled ≡ 0) }
{
    Ok(Bay {
        core: Writing { handled: 0 },
        inbox: Inbox::new(alloc)?,
        draws: [0; 17],
        given: true,
        out: Signal {
            lines: 0,
            given,
            met,
        },
    })
}

/// Two cores that are given an event make their steps at once: each one's out has its line while the other's waits for it.
#[test]
fn outs_meet(rt: HostRuntime) -> Result<(), Fail> {
    let alloc = rt.alloc();
    let given = AtomicU64::new(0);
    let met = AtomicU64::new(0);
    let first = given_bay(alloc, &given, &met)?;
    let second = given_bay(alloc, &given, &met)?;
    let mut bays = Vec::new(alloc);
    bays.push(first)?;
    bays.push(second)?;
    let mut shards = Shards { bays };
    shards.step_all(&rt);
    assert_eq!(rt; met.load(Ordering::SeqCst), 2);
    Ok(())
}
