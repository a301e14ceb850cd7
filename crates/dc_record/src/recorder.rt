//! A world that writes down the events that it hands out.
ghost use Rattle.std.specs.Prelude.{◌≡◌, ℕ, Bool, true, false, not, List, [], ◌∷◌, ◌++◌};
ghost use Rattle.dc_model.specs.Event.{Action as ModelAction};
ghost use Rattle.dc_event.specs.Answers.{count_heard, Warrants};
ghost use Rattle.dc_event.specs.Causes.{counted};
ghost use Rattle.dc_event.specs.History.{Exchange, asked, answer_by};
ghost use Rattle.dc_record.specs.Recorded.{Recorder, Wrote, Acted, Acted-none, Acted-both, Acted-faults, Acted-passed, Passed, Passed-none, Passed-both};

use dc_event::{Effects, Heard, Inbox, Put, Sink, World, WorldFailed};
use dc_script::write_event;
use std::marker::Model;

/// A world over another world and a sink. It hands out what the other gives, and writes the line of each event before it answers.
///
/// Once a write has failed, that call of `next` and every later one answer `Failed`, the other world is asked for nothing more, and the failed
/// call is the sink's last.
#[derive(Drop)]
pub struct RecordWorld<W: World, K: Sink> {
    world: W,
    sink: K,
    failed: bool,
    faults: u64,
}

impl<W: World, K: Sink> Model for RecordWorld<W, K> {
    ghost use Rattle.dc_record.specs.Recorded.{Recorder};

    ghost Value = { Recorder W K };

    ghost view = { λ a. record { world = a.world; sink = a.sink; failed = a.failed; faults = a.faults } };
}

impl<W: World, K: Sink> RecordWorld<W, K> {
    /// A world of which nothing was recorded.
    pub fn new(world: W, sink: K) -> RecordWorld<W, K>
        ensures { result ≡ record { world = world; sink = sink; failed = false; faults = 0 } }
    {
        RecordWorld {
            world,
            sink,
            failed: false,
            faults: 0,
        }
    }

    /// Whether no write has failed.
    pub fn wrote_all(&self) -> bool
        ensures { result ≡ not self.now.failed }
    {
        !self.failed
    }

    /// Gives the world and the sink back.
    pub fn into_parts(self) -> (W, K)
        ensures world { result.0 ≡ self.world }
        ensures sink { result.1 ≡ self.sink }
    {
        (self.world, self.sink)
    }

    /// Counts a fault.
    fn fail(&mut self)
        ensures { self.new ≡ record self.old { faults = counted self.old.faults } }
    {
        self.faults = self.faults.saturating_add(1);
    }

    /// Writes the line of an event that was given, and answers it, or that this failed.
    fn write(&mut self, inbox: &Inbox) -> Heard
        requires { self.old.failed ≡ false }
        ensures { Wrote K.gained K.refused K.faults result inbox.now self.old self.new }
    {
        match write_event(&mut self.sink, inbox.event(), inbox.bytes()) {
            Put::Taken(_) => Heard::Event,
            Put::Failed => {
                self.failed = true;
                Heard::Failed
            }
        }
    }

    /// The next event, where no write has failed.
    fn hear(&mut self, wake: Option<u64>, inbox: &mut Inbox) -> Heard
        requires { self.old.failed ≡ false }
        ensures history { Passed W.history W.faults K.gained K.refused K.faults self.old (asked wake (answer_by result inbox.new) ∷ []) self.new }
        ensures faults { self.new.faults ≡ self.old.faults }
        ensures warrant { Warrants result inbox.new (W.used_up self.new.world) (W.broken self.new.world) }
    {
        match self.world.next(wake, inbox) {
            Heard::Event => self.write(inbox),
            answer => answer,
        }
    }
}

impl<W: World, K: Sink> Effects for RecordWorld<W, K> {
    ghost acted = { Acted W.acted };

    fn reply(&mut self, addr: [u8; 4], port: u16, bytes: &[u8]) {
        self.world.reply(addr, port, bytes);
    }

    fn conn_reply(&mut self, conn: u64, bytes: &[u8]) {
        self.world.conn_reply(conn, bytes);
    }

    fn conn_close(&mut self, conn: u64) {
        self.world.conn_close(conn);
    }

    fn udp(&mut self, link: u64, local_port: u16, server: [u8; 4], query: &[u8]) {
        self.world.udp(link, local_port, server, query);
    }

    fn tcp(&mut self, link: u64, local_port: u16, server: [u8; 4]) {
        self.world.tcp(link, local_port, server);
    }

    fn link_write(&mut self, link: u64, bytes: &[u8]) {
        self.world.link_write(link, bytes);
    }

    fn link_close(&mut self, link: u64) {
        self.world.link_close(link);
    }

    fn line(&mut self, text: &[u8]) {
        self.world.line(text);
    }

    ghost acted_none = { Acted-none W.acted W.acted_none };

    ghost acted_both = { Acted-both W.acted W.acted_both };
}

impl<W: World, K: Sink> World for RecordWorld<W, K> {
    ghost history = { Passed W.history W.faults K.gained K.refused K.faults };

    ghost faults = { λ w. w.faults };

    ghost used_up = { λ w. W.used_up w.world };

    ghost broken = { λ w number. W.broken w.world number };

    fn listen(&mut self, addr: [u8; 4], send_from: [u8; 4]) -> Result<(), WorldFailed> {
        let answer = self.world.listen(addr, send_from);
        if answer.is_err() {
            self.fail();
        }
        answer
    }

    fn next(&mut self, wake: Option<u64>, inbox: &mut Inbox) -> Heard {
        if self.failed {
            self.fail();
            return Heard::Failed;
        }
        let answer = self.hear(wake, inbox);
        if let Heard::Failed = answer {
            self.fail();
        }
        answer
    }

    fn faults(&self) -> u64 {
        self.faults
    }

    ghost history_none = { Passed-none W.history W.faults W.history_none K.gained K.gained_none K.refused K.faults };

    ghost history_both = { Passed-both W.history W.faults W.history_both K.gained K.gained_both K.refused K.faults };

    ghost acted_history = { Acted-passed W.acted W.history W.acted_history W.faults W.acted_faults K.gained K.gained_none K.refused K.faults };

    ghost acted_faults = { Acted-faults W.acted };
}
