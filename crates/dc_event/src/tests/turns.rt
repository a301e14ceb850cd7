//! An engine and a world through their bounds.
ghost use Rattle.std.specs.Prelude.{◌≡◌, ◌+◌, ◌<◌, ◌^◌, ℕ, List, [], ◌∷◌, Some, None, false, IfOk, refl};
ghost use Rattle.dc_model.specs.Event.{Action as ModelAction, Event as ModelEvent, reply};
ghost use Rattle.dc_event.specs.History.{Exchange, asked, answer_by, done_all, wakes_in};
ghost use Rattle.dc_event.specs.Kept.{IsWithin};

use crate::{
    Action, BatchWorld, Effects, Engine, FullEvent, Given, Heard, Inbox, Kind, MemoryWorld, Passed,
    World, WorldFailed,
};
use std::alloc::{AllocError, Global};
use std::test::Fail;

/// Sends each event's bytes back, and wants a tick at the moment that is the number of events handled.
#[derive(Drop)]
struct Echo {
    handled: u64,
}

impl Engine for Echo {
    ghost State = { ℕ };

    ghost machine = { record {
      opening = λ s. [];
      wake = λ s. Some s;
      finished = λ s. false;
      actions = λ s e words. reply e.addr e.port e.bytes ∷ [];
      next = λ s e words. s + 1;
      handled = λ s. s;
    } };

    ghost state = { λ engine. engine.handled };

    fn launch<O: Effects>(&mut self, _out: &mut O) {}

    fn step<O: Effects>(&mut self, inbox: &Inbox, _draws: &[u32; 17], out: &mut O) {
        let event = inbox.event();
        out.reply(event.addr, event.port, inbox.bytes());
        self.handled += 1;
    }

    fn wake(&self) -> Option<u64> {
        Some(self.handled)
    }

    fn finished(&self) -> bool {
        false
    }

    ghost counts = { λ s e words. refl };
}

/// Hears once, and gathers one more event where one has come.
fn gather<W: BatchWorld>(world: &mut W, inbox: &mut Inbox) -> Heard
    ensures { (e : ModelEvent) × (more : List Exchange) × W.history world.old (asked None (answer_by result e) ∷ more) world.new × (wakes_in more ≡ []) }
{
    let heard = world.next(None, inbox);
    if let Heard::Event = heard {
        let _ = world.more(inbox);
    }
    heard
}

/// Hears once, and hands the event to the engine.
fn turn<W: World, E: Engine>(world: &mut W, engine: &mut E, inbox: &mut Inbox) -> Heard
    requires { E.machine.handled (E.state engine.old) < 2 ^ 60 }
    ensures { (xs : List ModelAction) × W.history world.old (asked (E.machine.wake (E.state engine.old)) (answer_by result inbox.new) ∷ done_all xs) world.new }
{
    let heard = world.next(engine.wake(), inbox);
    if let Heard::Event = heard {
        engine.step(inbox, &[0; 17], world);
    }
    heard
}

/// A request of one byte.
fn request(alloc: Global, byte: u8) -> Result<FullEvent, AllocError>
    ensures { IfOk result (λ event. IsWithin event) }
{
    Ok(FullEvent {
        now: 5,
        kind: Kind::Request,
        id: 0,
        addr: [127, 0, 0, 1],
        port: 9,
        bytes: [byte].to_vec(alloc)?,
    })
}

/// Each exchange of turns and of a bare `more`, in order.
#[test]
fn turns(rt: HostRuntime) -> Result<(), Fail> {
    let alloc = rt.alloc();
    let mut inbox = Inbox::new(alloc)?;
    let mut engine = Echo { handled: 7 };
    let mut world = MemoryWorld::new(alloc, 9, true)?;
    for byte in [1, 2] {
        world.add(Given::Event(request(alloc, byte)?))?;
    }
    engine.launch(&mut world);
    assert_eq!(rt; world.listen([10, 0, 0, 1], [10, 0, 0, 2]), Ok(()));
    assert_eq!(rt; turn(&mut world, &mut engine, &mut inbox), Heard::Event);
    assert!(rt; engine.handled < 1000 && world.more(&mut inbox) && !engine.finished());
    engine.step(&inbox, &[0; 17], &mut world);
    assert!(rt; engine.handled < 1000);
    assert_eq!(rt; turn(&mut world, &mut engine, &mut inbox), Heard::End);
    let did = |byte: u8| -> Result<Passed, AllocError> {
        Ok(Passed::Did(Action::Reply {
            addr: [127, 0, 0, 1],
            port: 9,
            bytes: [byte].to_vec(alloc)?,
        }))
    };
    let wanted = [
        Passed::Listened {
            addr: [10, 0, 0, 1],
            send_from: [10, 0, 0, 2],
            well: true,
        },
        Passed::Asked {
            wake: Some(7),
            gave: Some(Given::Event(request(alloc, 1)?)),
        },
        did(1)?,
        Passed::Gathered(request(alloc, 2)?),
        did(2)?,
        Passed::Asked {
            wake: Some(9),
            gave: None,
        },
    ];
    assert_eq!(rt; world.held(), Some(&wanted[..]));
    assert_eq!(rt; World::faults(&world), 0);
    Ok(())
}

/// Only an event is gathered. Failures are counted, and behind its room the world goes on and no longer tells.
#[test]
fn faulty(rt: HostRuntime) -> Result<(), Fail> {
    let alloc = rt.alloc();
    let mut inbox = Inbox::new(alloc)?;
    let mut world = MemoryWorld::new(alloc, 5, false)?;
    world.add(Given::Event(request(alloc, 1)?))?;
    world.add(Given::Failed)?;
    world.add(Given::Bad { line: 3 })?;
    assert_eq!(rt; world.listen([1; 4], [2; 4]), Err(WorldFailed));
    let rows = [
        (Heard::Event, 1, true),
        (Heard::Failed, 2, true),
        (Heard::Bad { line: 3 }, 2, true),
        (Heard::End, 2, true),
        (Heard::End, 2, false),
    ];
    for (answer, faults, told) in rows {
        assert_eq!(rt; gather(&mut world, &mut inbox), answer);
        assert_eq!(rt; World::faults(&world), faults);
        assert_eq!(rt; (world.held().is_some(), inbox.bytes()), (told, &[1u8][..]));
    }
    Ok(())
}

/// Each action is kept as it is.
#[test]
fn actions(rt: HostRuntime) -> Result<(), Fail> {
    let alloc = rt.alloc();
    let mut world = MemoryWorld::new(alloc, 7, true)?;
    world.conn_reply(1, b"a");
    world.conn_close(2);
    world.udp(3, 4, [5; 4], b"b");
    world.tcp(6, 7, [8; 4]);
    world.link_write(9, b"c");
    world.link_close(10);
    world.line(b"d");
    let wanted = [
        Action::ConnReply {
            conn: 1,
            bytes: b"a".to_vec(alloc)?,
        },
        Action::ConnClose { conn: 2 },
        Action::Udp {
            link: 3,
            local_port: 4,
            server: [5; 4],
            query: b"b".to_vec(alloc)?,
        },
        Action::Tcp {
            link: 6,
            local_port: 7,
            server: [8; 4],
        },
        Action::LinkWrite {
            link: 9,
            bytes: b"c".to_vec(alloc)?,
        },
        Action::LinkClose { link: 10 },
        Action::Line {
            text: b"d".to_vec(alloc)?,
        },
    ]
    .map(Passed::Did);
    assert_eq!(rt; world.held(), Some(&wanted[..]));
    Ok(())
}
