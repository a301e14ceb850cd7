//! A recorded world of which given calls fail.
ghost use Rattle.std.specs.Prelude.{◌≡◌, ℕ, ◌+◌, ◌-◌, ◌^◌, List, [], ◌∷◌, min, cond, Option};
ghost use Rattle.dc_model.specs.Event.{IsEvent};
ghost use Rattle.dc_event.specs.Answers.{IfMore};
ghost use Rattle.dc_event.specs.Causes.{counted};
ghost use Rattle.dc_event.specs.History.{gathered_by};
ghost use Rattle.dc_event.specs.Bytes.{Moved, Moved-none, Moved-both};
ghost use Rattle.dc_event.specs.Quiet.{Filled, Filled-none, Filled-both};
ghost use Rattle.dc_script.specs.Faulty.{Faulty, faults_of, is_named, with_wake, FaultyPassed, FaultyActed, FaultyPassed-none, FaultyPassed-both, FaultyActed-none, FaultyActed-both, FaultyActed-passed, FaultyActed-faults};
ghost use Rattle.dc_script.specs.Further.{HandsFurther};
ghost use Rattle.dc_script.specs.World.{Acted-none, Acted-both, Acted-faults, Acted-passed, Passed-none, Passed-both};

use crate::ScriptWorld;
use arrayvec::ArrayVec;
use dc_event::{BatchWorld, Effects, Heard, Inbox, QuietSink, QuietSource, World, WorldFailed};
use std::marker::Model;

/// The recorded world inside.
type Inner = ScriptWorld<QuietSource, QuietSink>;

/// How many wakes are kept.
const MOST_WAKES: usize = 64;

/// A recorded world of which given calls fail: the calls of `listen` and `next` are counted together, from 1, and those whose number is
/// named answer their fault and don't reach the recorded world. It keeps the wakes of the first 64 calls of `next`, those that fail among
/// them.
#[derive(Drop)]
pub struct FaultWorld {
    world: Inner,
    fails: Vec<u64>,
    calls: u64,
    missed: u64,
    wakes: ArrayVec<Option<u64>, MOST_WAKES>,
}

impl Model for FaultWorld {
    ghost use Rattle.dc_event.specs.Bytes.{Tape};
    ghost use Rattle.dc_event.specs.Quiet.{Quiet};
    ghost use Rattle.dc_script.specs.Faulty.{Faulty};
    ghost use Rattle.dc_script.specs.World.{Recorded};

    ghost Value = { Faulty (Recorded Tape Quiet) };

    ghost view = { λ a. record { world = a.world; fails = a.fails.items; calls = a.calls; missed = a.missed; wakes = a.wakes.items } };
}

impl FaultWorld {
    /// A world over this one, of which the calls with these numbers fail.
    pub fn new(world: Inner, fails: Vec<u64>) -> FaultWorld
        ensures { result ≡ record { world = world; fails = fails.items; calls = 0; missed = 0; wakes = [] } }
    {
        FaultWorld {
            world,
            fails,
            calls: 0,
            missed: 0,
            wakes: ArrayVec::new(),
        }
    }

    /// The recorded world.
    pub fn world(&self) -> &ScriptWorld<QuietSource, QuietSink>
        ensures { result.now ≡ self.now.world }
    {
        &self.world
    }

    /// The wakes of the first 64 calls of `next`, the first one first.
    pub fn wakes(&self) -> &[Option<u64>]
        ensures { result.now ≡ self.now.wakes }
    {
        &self.wakes
    }

    /// Counts a call, and says whether it is to fail.
    fn call(&mut self) -> bool
        ensures answer { result ≡ is_named self.old.fails (counted self.old.calls) }
        ensures counts { self.new ≡ record self.old { calls = counted self.old.calls; missed = cond result (counted self.old.missed) self.old.missed } }
    {
        self.calls = self.calls.saturating_add(1);
        let number = self.calls;
        let fails = self.fails.iter().any(|named| *named == number);
        if fails {
            self.missed = self.missed.saturating_add(1);
        }
        fails
    }

    /// Keeps a wake, where fewer than 64 are kept.
    fn keep(&mut self, wake: Option<u64>)
        ensures { self.new ≡ record self.old { wakes = with_wake self.old.wakes wake } }
    {
        push_first(&mut self.wakes, wake);
    }
}

/// Puts this behind the others, where fewer than 64 are there.
fn push_first(wakes: &mut ArrayVec<Option<u64>, MOST_WAKES>, wake: Option<u64>)
    ensures { wakes.new.items ≡ with_wake wakes.old.items wake }
{
    if !wakes.is_full() {
        wakes.push(wake);
    }
}

impl Effects for FaultWorld {
    ghost acted = { FaultyActed ⟦<Inner as Effects>⟧.acted };

    fn reply(&mut self, addr: [u8; 4], port: u16, bytes: &[u8]) {
        self.world.reply(addr, port, bytes);
    }

    fn conn_reply(&mut self, conn: u64, bytes: &[u8]) {
        self.world.conn_reply(conn, bytes);
    }

    fn conn_close(&mut self, conn: u64) {
        self.world.conn_close(conn);
    }

    fn udp(&mut self, link: u64, local_port: u16, server: [u8; 4], query: &[u8]) {
        self.world.udp(link, local_port, server, query);
    }

    fn tcp(&mut self, link: u64, local_port: u16, server: [u8; 4]) {
        self.world.tcp(link, local_port, server);
    }

    fn link_write(&mut self, link: u64, bytes: &[u8]) {
        self.world.link_write(link, bytes);
    }

    fn link_close(&mut self, link: u64) {
        self.world.link_close(link);
    }

    fn line(&mut self, text: &[u8]) {
        self.world.line(text);
    }

    ghost acted_none = { FaultyActed-none ⟦<Inner as Effects>⟧.acted (Acted-none Filled Filled-none Filled-both _ _) };

    ghost acted_both = { FaultyActed-both ⟦<Inner as Effects>⟧.acted (Acted-both Filled Filled-none Filled-both _ _) };
}

impl World for FaultWorld {
    ghost history = { FaultyPassed ⟦<Inner as World>⟧.history };

    ghost faults = { faults_of ⟦<Inner as World>⟧.faults };

    ghost used_up = { λ w. ⟦<Inner as World>⟧.used_up w.world };

    ghost broken = { λ w number. ⟦<Inner as World>⟧.broken w.world number };

    fn listen(&mut self, addr: [u8; 4], send_from: [u8; 4]) -> Result<(), WorldFailed> {
        if self.call() {
            return Err(WorldFailed);
        }
        self.world.listen(addr, send_from)
    }

    fn next(&mut self, wake: Option<u64>, inbox: &mut Inbox) -> Heard {
        self.keep(wake);
        if self.call() {
            return Heard::Failed;
        }
        self.world.next(wake, inbox)
    }

    fn faults(&self) -> u64 {
        self.world.faults().saturating_add(self.missed)
    }

    ghost history_none = { FaultyPassed-none ⟦<Inner as World>⟧.history (Passed-none Moved Moved-none Moved-both _ _ Filled Filled-none Filled-both _ _) };

    ghost history_both = { FaultyPassed-both ⟦<Inner as World>⟧.history (Passed-both Moved Moved-none Moved-both _ _ Filled Filled-none Filled-both _ _) };

    ghost acted_history = { FaultyActed-passed ⟦<Inner as Effects>⟧.acted ⟦<Inner as World>⟧.history (Acted-passed Moved Moved-none Moved-both _ _ Filled Filled-none Filled-both _ _) };

    ghost acted_faults = { FaultyActed-faults ⟦<Inner as Effects>⟧.acted ⟦<Inner as World>⟧.faults (Acted-faults _ _ _) };
}

impl BatchWorld for FaultWorld {
    /// Gives what the recorded world gives. It is no call that is counted, so none is to fail.
    fn more(&mut self, inbox: &mut Inbox) -> bool
        ensures history { FaultyPassed ⟦<Inner as World>⟧.history self.old (gathered_by result inbox.new) self.new }
        ensures count { faults_of ⟦<Inner as World>⟧.faults self.new ≡ faults_of ⟦<Inner as World>⟧.faults self.old }
        ensures bounds { IfMore result (IsEvent inbox.new) }
        ensures further { HandsFurther result inbox.old inbox.new self.old.world self.new.world }
        ensures same { self.new ≡ record self.old { world = self.new.world } }
    {
        self.world.more(inbox)
    }
}
