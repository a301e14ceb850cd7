//! The recorded world: events from a script, actions to a text.
ghost use Rattle.std.specs.Prelude.{◌≡◌, ◌+◌, ◌≤◌, ◌<◌, ◌^◌, ℕ, Bool, true, false, not, List, [], ◌∷◌, ◌++◌, ◌⊎◌, length, IfOk, Some, None, refl};
ghost use Rattle.std.specs.declared.option.Option.{Option};
ghost use Rattle.std.specs.Io.KnownBytes.{IsAtEnd};
ghost use Rattle.std.proofs.Common.{ap};
ghost use Rattle.dc_model.specs.Event.{Action as ModelAction, Event, IsEvent};
ghost use Rattle.dc_event.specs.Answers.{heard_by, count_heard, IfMore, Warrants};
ghost use Rattle.dc_event.specs.Causes.{counted};
ghost use Rattle.dc_event.specs.History.{asked, answer_by, gathered_by};
ghost use Rattle.dc_script.specs.Further.{moment_by, HandsFurther};
ghost use Rattle.dc_script.specs.View.{action_of};
ghost use Rattle.dc_script.specs.World.{Recorded, opened, Acted, HandedOut, Passed, IsOver, Breaks, Acted-none, Acted-both, Acted-faults, Acted-passed, Passed-none, Passed-both, Answered, SaysNoMore, IfFailed};

use crate::action::Action;
use crate::lines::LineRest;
use crate::reader::{EventBuffer, Reader};
use crate::writer::Writer;
use dc_event::{BatchWorld, Effects, Heard, Inbox, Sink, Source, World, WorldFailed};
use std::alloc::{AllocError, Global};
use std::marker::Model;

/// A world over a source and a sink. It reads the events of a script line by line, and writes the text of each action at once.
///
/// After a write that failed nothing more is written, and every later call of `next` fails. Where a read failed, that call of `next` and
/// every later one fail.
#[derive(Drop)]
pub struct ScriptWorld<S: Source, K: Sink> {
    reader: Reader<S>,
    writer: Writer<K>,
    faults: u64,
    last: Option<Heard>,
    kept: Option<([u8; 4], [u8; 4])>,
    /// The moment of the event that was handed out last.
    moment: Option<u64>,
}

impl<S: Source, K: Sink> Model for ScriptWorld<S, K> {
    ghost use Rattle.dc_script.specs.Read.{unread};
    ghost use Rattle.dc_script.specs.View.{action_of};
    ghost use Rattle.dc_script.specs.World.{Recorded};

    ghost Value = { Recorded S K };

    ghost view = { λ a. record {
      source = a.reader.source;
      unread = unread a.reader.ended a.reader.found a.reader.rest.line a.reader.rest.rest;
      lines = a.reader.lines;
      source_start = a.reader.start;
      read_failed = a.reader.failed;
      sink = a.writer.sink;
      sink_start = a.writer.start;
      write_failed = a.writer.failed;
      faults = a.faults;
      last = a.last;
      kept = a.kept;
      moment = a.moment;
    } };

    ghost use Rattle.std.specs.Prelude.{◌≡◌, ◌<◌, ◌⊎◌, true};

    /// The world fails only where a read or a write has failed.
    ghost invariant = { λ a. 0 < a.faults → (a.reader.failed ≡ true) ⊎ (a.writer.failed ≡ true) };
}

impl<S: Source, K: Sink> ScriptWorld<S, K> {
    /// A world of the script that goes on with these bytes and then the source's, behind so many lines. It takes all memory that it needs.
    pub fn new(
        alloc: Global,
        rest: LineRest,
        lines: u64,
        source: S,
        sink: K,
    ) -> Result<ScriptWorld<S, K>, AllocError>
    where
        S: Drop,
        K: Drop,
        ensures { IfOk result (λ world. world ≡ opened S.faults K.faults rest.rest lines source sink) }
    {
        let buffer = EventBuffer::new(alloc)?;
        Ok(ScriptWorld::in_buffer(buffer, rest, lines, source, sink))
    }

    /// The same in memory that was taken before. It can't fail, so a source and a sink that are lent come back by `into_parts`.
    pub fn in_buffer(
        buffer: EventBuffer,
        rest: LineRest,
        lines: u64,
        source: S,
        sink: K,
    ) -> ScriptWorld<S, K>
        ensures { result ≡ opened S.faults K.faults rest.rest lines source sink }
    {
        ScriptWorld {
            reader: Reader::new(buffer, rest, lines, source),
            writer: Writer::new(sink),
            faults: 0,
            last: None,
            kept: None,
            moment: None,
        }
    }

    /// Gives source and sink back.
    pub fn into_parts(self) -> (S, K)
        ensures source { result.0 ≡ self.source }
        ensures sink { result.1 ≡ self.sink }
        ensures read { self.read_failed ≡ true → S.faults self.source ≡ counted self.source_start }
        ensures write { self.write_failed ≡ true → K.faults self.sink ≡ counted self.sink_start }
        ensures read_all { self.read_failed ≡ false → S.faults self.source ≡ self.source_start }
        ensures wrote_all { self.write_failed ≡ false → K.faults self.sink ≡ self.sink_start }
    {
        (self.reader.into_source(), self.writer.into_sink())
    }

    /// How often the source has failed. It is one more than when the world was made where a read has failed, and else what it was.
    pub fn source_faults(&self) -> u64
        ensures value { result ≡ S.faults self.now.source }
        ensures cause { self.now.read_failed ≡ true → result ≡ counted self.now.source_start }
        ensures stays { self.now.read_failed ≡ false → result ≡ self.now.source_start }
    {
        self.reader.source.faults()
    }

    /// How often the sink has failed. It is one more than when the world was made where a write has failed, and else what it was.
    pub fn sink_faults(&self) -> u64
        ensures value { result ≡ K.faults self.now.sink }
        ensures cause { self.now.write_failed ≡ true → result ≡ counted self.now.sink_start }
        ensures stays { self.now.write_failed ≡ false → result ≡ self.now.sink_start }
    {
        self.writer.sink.faults()
    }

    /// Whether no write has failed. Then the world has failed only where a read has.
    pub fn wrote_all(&self) -> bool
        ensures value { result ≡ not self.now.write_failed }
        ensures cause { result ≡ true → 0 < self.now.faults → self.now.read_failed ≡ true }
    {
        let _ = &self.faults;
        !self.writer.failed
    }

    /// The sink.
    pub fn sink(&self) -> &K
        ensures { result.now ≡ self.now.sink }
    {
        &self.writer.sink
    }

    /// The next event, where neither a read nor a write has failed.
    fn hear(&mut self, inbox: &mut Inbox) -> Heard
        ensures heard { HandedOut S.took S.refused S.faults self.old (heard_by result inbox.new) self.new }
        ensures same { self.new ≡ record self.old { source = self.new.source; unread = self.new.unread; lines = self.new.lines; read_failed = self.new.read_failed; moment = self.new.moment } }
        ensures moment { self.new.moment ≡ moment_by result inbox.new self.old.moment }
        ensures answer { Answered result inbox.new (IsAtEnd (S.left self.new.source) × IsOver self.new.unread × (self.new.write_failed ≡ false))
            (λ number. Breaks (S.left self.new.source) self.new.unread self.new.lines number × (self.new.write_failed ≡ false))
            ((S.faults self.new.source ≡ counted self.new.source_start) ⊎ (K.faults self.new.sink ≡ counted self.new.sink_start)) }
        ensures stopped { self.old.read_failed ≡ false → self.new.read_failed ≡ true → SaysNoMore self.new.unread }
        ensures calm { IfFailed result (Unit {0}) (self.new.read_failed ≡ self.old.read_failed) }
        ensures stays { self.old.read_failed ≡ true → self.new ≡ self.old }
        ensures unread { self.old.write_failed ≡ true → self.new.read_failed ≡ self.old.read_failed }
        ensures read { self.old.read_failed ≡ true → result ≡ Heard.Failed }
        ensures write { self.old.write_failed ≡ true → result ≡ Heard.Failed }
        ensures marked { result ≡ Heard.Failed → (self.new.read_failed ≡ true) ⊎ (self.new.write_failed ≡ true) }
    {
        if self.writer.failed {
            return Heard::Failed;
        }
        if self.reader.failed {
            return Heard::Failed;
        }
        let heard = self.reader.hear(inbox);
        self.moment = moment_behind(heard, inbox, self.moment);
        heard
    }

    /// Writes an action.
    fn act(&mut self, action: Action<'_>)
        ensures { Acted K.gained K.refused K.faults self.old (action_of action.entry ∷ []) self.new }
    {
        self.writer.write(action);
    }

    /// Keeps an answer, and counts it where it is a fault.
    fn note(&mut self, answer: Heard)
        requires { answer ≡ Heard.Failed → (self.old.read_failed ≡ true) ⊎ (self.old.write_failed ≡ true) }
        ensures note { self.new ≡ record self.old { faults = count_heard answer self.old.faults; last = Some answer } }
    {
        if let Heard::Failed = answer {
            self.faults = self.faults.saturating_add(1);
        }
        self.last = Some(answer);
    }
}

/// The moment of the event that was handed out last, behind this answer.
fn moment_behind(heard: Heard, inbox: &Inbox, before: Option<u64>) -> Option<u64>
    ensures { result ≡ moment_by heard inbox.now before }
{
    match heard {
        Heard::Event => Some(inbox.event().now),
        Heard::End | Heard::Failed | Heard::Bad { .. } => before,
    }
}

impl<S: Source, K: Sink> Effects for ScriptWorld<S, K> {
    ghost acted = { Acted K.gained K.refused K.faults };

    fn reply(&mut self, addr: [u8; 4], port: u16, bytes: &[u8]) {
        self.act(Action::Reply { addr, port, bytes });
    }

    fn conn_reply(&mut self, conn: u64, bytes: &[u8]) {
        self.act(Action::ConnReply { conn, bytes });
    }

    fn conn_close(&mut self, conn: u64) {
        self.act(Action::ConnClose { conn });
    }

    fn udp(&mut self, link: u64, local_port: u16, server: [u8; 4], query: &[u8]) {
        self.act(Action::Udp {
            link,
            local_port,
            server,
            query,
        });
    }

    fn tcp(&mut self, link: u64, local_port: u16, server: [u8; 4]) {
        self.act(Action::Tcp {
            link,
            local_port,
            server,
        });
    }

    fn link_write(&mut self, link: u64, bytes: &[u8]) {
        self.act(Action::LinkWrite { link, bytes });
    }

    fn link_close(&mut self, link: u64) {
        self.act(Action::LinkClose { link });
    }

    fn line(&mut self, text: &[u8]) {
        self.act(Action::Line { text });
    }

    ghost acted_none = { Acted-none K.gained K.gained_none K.gained_both K.refused K.faults };

    ghost acted_both = { Acted-both K.gained K.gained_none K.gained_both K.refused K.faults };
}

impl<S: Source, K: Sink> World for ScriptWorld<S, K> {
    ghost history = { Passed S.took S.refused S.faults K.gained K.refused K.faults };

    ghost faults = { λ w. w.faults };

    ghost used_up = { λ w. IsAtEnd (S.left w.source) × IsOver w.unread × (w.write_failed ≡ false) };

    ghost broken = { λ w number. Breaks (S.left w.source) w.unread w.lines number × (w.write_failed ≡ false) };

    fn listen(&mut self, addr: [u8; 4], send_from: [u8; 4]) -> Result<(), WorldFailed> {
        self.kept = Some((addr, send_from));
        Ok(())
    }

    fn next(&mut self, wake: Option<u64>, inbox: &mut Inbox) -> Heard
        ensures history { Passed S.took S.refused S.faults K.gained K.refused K.faults self.old (asked wake (answer_by result inbox.new) ∷ []) self.new }
        ensures count { self.new.faults ≡ count_heard result self.old.faults }
        ensures warrant { Warrants result inbox.new (IsAtEnd (S.left self.new.source) × IsOver self.new.unread × (self.new.write_failed ≡ false))
            (λ number. Breaks (S.left self.new.source) self.new.unread self.new.lines number × (self.new.write_failed ≡ false)) }
        ensures same { self.new ≡ record self.old {
          source = self.new.source;
          unread = self.new.unread;
          lines = self.new.lines;
          read_failed = self.new.read_failed;
          faults = count_heard result self.old.faults;
          last = Some result;
          moment = self.new.moment;
        } }
        ensures moment { self.new.moment ≡ moment_by result inbox.new self.old.moment }
        ensures cause { result ≡ Heard.Failed → (S.faults self.new.source ≡ counted self.new.source_start) ⊎ (K.faults self.new.sink ≡ counted self.new.sink_start) }
        ensures stopped { self.old.read_failed ≡ false → self.new.read_failed ≡ true → SaysNoMore self.new.unread }
        ensures read { self.old.read_failed ≡ true → result ≡ Heard.Failed }
        ensures write { self.old.write_failed ≡ true → result ≡ Heard.Failed }
    {
        let _ = wake;
        let answer = self.hear(inbox);
        self.note(answer);
        answer
    }

    fn faults(&self) -> u64 {
        self.faults
    }

    ghost history_none = { Passed-none S.took S.took_none S.took_both S.refused S.faults K.gained K.gained_none K.gained_both K.refused K.faults };

    ghost history_both = { Passed-both S.took S.took_none S.took_both S.refused S.faults K.gained K.gained_none K.gained_both K.refused K.faults };

    ghost acted_history = { Acted-passed S.took S.took_none S.took_both S.refused S.faults K.gained K.gained_none K.gained_both K.refused K.faults };

    ghost acted_faults = { Acted-faults K.gained K.refused K.faults };
}

impl<S: Source, K: Sink> BatchWorld for ScriptWorld<S, K> {
    /// Gives the next event where its moment is that of the event handed out last, and its line was taken whole off the source already.
    fn more(&mut self, inbox: &mut Inbox) -> bool
        ensures history { Passed S.took S.refused S.faults K.gained K.refused K.faults self.old (gathered_by result inbox.new) self.new }
        ensures count { self.new.faults ≡ self.old.faults }
        ensures bounds { IfMore result (IsEvent inbox.new) }
        ensures further { HandsFurther result inbox.old inbox.new self.old self.new }
    {
        if self.reader.failed || self.writer.failed {
            return false;
        }
        match self.moment {
            Some(now) => self.reader.further(now, inbox),
            None => false,
        }
    }
}
