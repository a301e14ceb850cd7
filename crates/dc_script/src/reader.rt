//! The events of a script, read off a source line by line.
ghost use Rattle.std.specs.Prelude.{◌≡◌, ◌≢◌, ◌+◌, ◌*◌, ◌≤◌, ◌<◌, ◌^◌, ℕ, Bool, true, false, not, List, [], ◌∷◌, ◌++◌, length, IfOk, Some, if◌then◌else◌, bytes_eq, codes};
ghost use Rattle.std.specs.Io.KnownBytes.{IsAtEnd};
ghost use Rattle.dc_event.specs.Answers.{heard_by, Warrants, well_heard};
ghost use Rattle.dc_event.specs.Causes.{counted, Fares};
ghost use Rattle.dc_script.specs.Lines.{IsOneLine, Finds, well_line};
ghost use Rattle.dc_model.specs.Event.{IsEvent};
ghost use Rattle.dc_script.specs.Further.{HasNoLine, Gives, event_if};
ghost use Rattle.dc_script.specs.Read.{unread, ReadOff};
ghost use Rattle.dc_script.specs.Script.{AreDigits};
ghost use Rattle.dc_script.specs.View.{line_says};
ghost use Rattle.dc_script.specs.World.{IsOver, Breaks, Peeked, NoEvent, Answered, SaysNoMore, IfFailed, IfStopped};

use crate::digits::decode;
use crate::events::{EventLine, event_line};
use crate::lines::{LineRest, NextLine};
use dc_event::{Heard, Inbox, Source};
use std::alloc::{AllocError, Global};

/// The most bytes of an event.
const MOST_BYTES: usize = 65535;

/// Reads events off a source.
#[derive(Drop)]
pub(crate) struct Reader<S: Source> {
    pub(crate) source: S,
    pub(crate) rest: LineRest,
    /// Where the bytes of an event are put together.
    pub(crate) bytes: Vec<u8>,
    /// How many lines were handed out.
    pub(crate) lines: u64,
    /// Whether the line `end` was read.
    pub(crate) ended: bool,
    /// Whether the last line that was found isn't handed out yet.
    pub(crate) found: bool,
    pub(crate) start: u64,
    pub(crate) failed: bool,
    pub(crate) ghost room: { length bytes.items ≡ 65535 },
    pub(crate) ghost line: { found ≡ true → IsOneLine rest.line },
    pub(crate) ghost short: { found ≡ true → length rest.line ≤ 131200 },
    /// Where a read has failed, the source's count is one higher, since nothing more was read.
    pub(crate) ghost caused: { failed ≡ true → S.faults source ≡ counted start },
    /// Where no read has failed, the count is what it was.
    pub(crate) ghost unfailed: { failed ≡ false → S.faults source ≡ start },
}

/// So many zero bytes.
fn zeros(alloc: Global, count: usize) -> Result<Vec<u8>, AllocError>
    ensures { IfOk result (λ bytes. length bytes.items ≡ count) }
{
    vec![in alloc; 0u8; count]
}

/// Memory in which the bytes of one event are put together.
#[derive(Drop)]
pub struct EventBuffer {
    bytes: Vec<u8>,
    pub(crate) ghost room: { length bytes.items ≡ 65535 },
}

impl EventBuffer {
    /// Memory for any event.
    pub fn new(alloc: Global) -> Result<EventBuffer, AllocError> {
        Ok(EventBuffer {
            bytes: zeros(alloc, MOST_BYTES)?,
        })
    }
}

impl<S: Source> Reader<S> {
    /// A reader of what was taken already and of a source, behind so many lines.
    #[tactic(auto, unfolding(crate::specs::Read::unread))]
    pub(crate) fn new(buffer: EventBuffer, rest: LineRest, lines: u64, source: S) -> Reader<S>
        ensures source { result.source ≡ source }
        ensures unread { unread result.ended result.found result.rest.line result.rest.rest ≡ rest.rest }
        ensures lines { result.lines ≡ lines }
        ensures start { result.start ≡ S.faults source }
        ensures failed { result.failed ≡ false }
    {
        let start = source.faults();
        Reader {
            source,
            rest,
            bytes: buffer.bytes,
            lines,
            ended: false,
            found: false,
            start,
            failed: false,
        }
    }

    /// Gives the source back.
    pub(crate) fn into_source(self) -> S
        ensures source { result ≡ self.source }
        ensures cause { self.failed ≡ true → S.faults self.source ≡ counted self.start }
        ensures stays { self.failed ≡ false → S.faults self.source ≡ self.start }
    {
        self.source
    }

    /// Finds the next line, where none is found yet.
    fn peek(&mut self) -> NextLine
        requires { self.old.failed ≡ false }
        ensures heard { ReadOff S.took self.old.source (unread self.old.ended self.old.found self.old.rest.line self.old.rest.rest) self.old.lines []
            self.new.source (unread self.new.ended self.new.found self.new.rest.line self.new.rest.rest) self.new.lines }
        ensures found { Peeked result self.new.found self.new.rest.rest (S.left self.new.source) }
        ensures ended { self.new.ended ≡ self.old.ended }
        ensures start { self.new.start ≡ self.old.start }
        ensures fares { Fares S.took S.refused S.faults (well_line result) self.old.source self.new.source }
        ensures marked { self.new.failed ≡ not (well_line result) }
        ensures stopped { IfStopped result (SaysNoMore (unread self.new.ended self.new.found self.new.rest.line self.new.rest.rest)) (self.new.failed ≡ self.old.failed) }
    {
        if self.found {
            return NextLine::Found;
        }
        let next = self.rest.next_line(&mut self.source);
        match next {
            NextLine::Found => self.found = true,
            NextLine::Failed => self.failed = true,
            NextLine::TooLong => {}
            NextLine::Ended => {}
        }
        next
    }

    /// The number of the line that stands so far behind the next one.
    fn number(&self, ahead: u64) -> u64
        ensures { self.now.lines + 1 + ahead < 2 ^ 64 → result ≡ self.now.lines + 1 + ahead }
    {
        self.lines.saturating_add(1).saturating_add(ahead)
    }

    /// What comes behind the line `end`: nothing, or else a bad line.
    fn behind_end(&mut self) -> Heard
        requires ended { self.old.ended ≡ true }
        requires unfailed { self.old.failed ≡ false }
        ensures heard { ReadOff S.took self.old.source (unread self.old.ended self.old.found self.old.rest.line self.old.rest.rest) self.old.lines []
            self.new.source (unread self.new.ended self.new.found self.new.rest.line self.new.rest.rest) self.new.lines }
        ensures answer { NoEvent result (IsAtEnd (S.left self.new.source) × IsOver (unread self.new.ended self.new.found self.new.rest.line self.new.rest.rest))
            (Breaks (S.left self.new.source) (unread self.new.ended self.new.found self.new.rest.line self.new.rest.rest) self.new.lines)
            (self.new.failed ≡ true) }
        ensures start { self.new.start ≡ self.old.start }
        ensures fares { Fares S.took S.refused S.faults (well_heard result) self.old.source self.new.source }
        ensures marked { self.new.failed ≡ not (well_heard result) }
        ensures stopped { IfFailed result (SaysNoMore (unread self.new.ended self.new.found self.new.rest.line self.new.rest.rest)) (self.new.failed ≡ self.old.failed) }
    {
        match self.peek() {
            NextLine::Failed => Heard::Failed,
            NextLine::Found => Heard::Bad {
                line: self.number(1),
            },
            NextLine::TooLong => Heard::Bad {
                line: self.number(1),
            },
            NextLine::Ended => {
                if self.rest.is_empty() {
                    Heard::End
                } else {
                    Heard::Bad {
                        line: self.number(1),
                    }
                }
            }
        }
    }
}

impl<S: Source> Reader<S> {
    /// What the line says that was found: an event, which is put into the inbox, or that the script is at its end.
    fn line_found(&mut self, inbox: &mut Inbox) -> Heard
        requires ended { self.old.ended ≡ false }
        requires found { self.old.found ≡ true }
        requires unfailed { self.old.failed ≡ false }
        ensures heard { ReadOff S.took self.old.source (unread self.old.ended self.old.found self.old.rest.line self.old.rest.rest) self.old.lines (heard_by result inbox.new)
            self.new.source (unread self.new.ended self.new.found self.new.rest.line self.new.rest.rest) self.new.lines }
        ensures answer { Answered result inbox.new (IsAtEnd (S.left self.new.source) × IsOver (unread self.new.ended self.new.found self.new.rest.line self.new.rest.rest))
            (Breaks (S.left self.new.source) (unread self.new.ended self.new.found self.new.rest.line self.new.rest.rest) self.new.lines)
            (self.new.failed ≡ true) }
        ensures start { self.new.start ≡ self.old.start }
        ensures fares { Fares S.took S.refused S.faults (well_heard result) self.old.source self.new.source }
        ensures marked { self.new.failed ≡ not (well_heard result) }
        ensures stopped { IfFailed result (SaysNoMore (unread self.new.ended self.new.found self.new.rest.line self.new.rest.rest)) (self.new.failed ≡ self.old.failed) }
    {
        if is_end(self.rest.line()) {
            self.found = false;
            self.ended = true;
            return self.behind_end();
        }
        let line = match event_line(self.rest.line()) {
            Some(line) => line,
            None => {
                return Heard::Bad {
                    line: self.number(0),
                };
            }
        };
        put_event(line, &mut self.bytes, inbox);
        self.found = false;
        self.lines = self.lines.saturating_add(1);
        Heard::Event
    }

    /// What the next line says, where the line `end` wasn't read.
    fn before_end(&mut self, inbox: &mut Inbox) -> Heard
        requires ended { self.old.ended ≡ false }
        requires unfailed { self.old.failed ≡ false }
        ensures heard { ReadOff S.took self.old.source (unread self.old.ended self.old.found self.old.rest.line self.old.rest.rest) self.old.lines (heard_by result inbox.new)
            self.new.source (unread self.new.ended self.new.found self.new.rest.line self.new.rest.rest) self.new.lines }
        ensures answer { Answered result inbox.new (IsAtEnd (S.left self.new.source) × IsOver (unread self.new.ended self.new.found self.new.rest.line self.new.rest.rest))
            (Breaks (S.left self.new.source) (unread self.new.ended self.new.found self.new.rest.line self.new.rest.rest) self.new.lines)
            (self.new.failed ≡ true) }
        ensures start { self.new.start ≡ self.old.start }
        ensures fares { Fares S.took S.refused S.faults (well_heard result) self.old.source self.new.source }
        ensures marked { self.new.failed ≡ not (well_heard result) }
        ensures stopped { IfFailed result (SaysNoMore (unread self.new.ended self.new.found self.new.rest.line self.new.rest.rest)) (self.new.failed ≡ self.old.failed) }
    {
        match self.peek() {
            NextLine::Failed => Heard::Failed,
            NextLine::TooLong => Heard::Bad {
                line: self.number(0),
            },
            NextLine::Ended => Heard::Bad {
                line: self.number(0),
            },
            NextLine::Found => self.line_found(inbox),
        }
    }

    /// What the script says next.
    pub(crate) fn hear(&mut self, inbox: &mut Inbox) -> Heard
        requires { self.old.failed ≡ false }
        ensures heard { ReadOff S.took self.old.source (unread self.old.ended self.old.found self.old.rest.line self.old.rest.rest) self.old.lines (heard_by result inbox.new)
            self.new.source (unread self.new.ended self.new.found self.new.rest.line self.new.rest.rest) self.new.lines }
        ensures answer { Answered result inbox.new (IsAtEnd (S.left self.new.source) × IsOver (unread self.new.ended self.new.found self.new.rest.line self.new.rest.rest))
            (Breaks (S.left self.new.source) (unread self.new.ended self.new.found self.new.rest.line self.new.rest.rest) self.new.lines)
            (self.new.failed ≡ true) }
        ensures start { self.new.start ≡ self.old.start }
        ensures fares { Fares S.took S.refused S.faults (well_heard result) self.old.source self.new.source }
        ensures marked { self.new.failed ≡ not (well_heard result) }
        ensures stopped { IfFailed result (SaysNoMore (unread self.new.ended self.new.found self.new.rest.line self.new.rest.rest)) (self.new.failed ≡ self.old.failed) }
    {
        if self.ended {
            self.behind_end()
        } else {
            self.before_end(inbox)
        }
    }
}

impl<S: Source> Reader<S> {
    /// Finds the next line among the bytes that were taken, where none is found yet, and answers whether there is a whole one.
    fn hold(&mut self) -> bool
        ensures found { self.new.found ≡ result }
        ensures unread { unread self.new.ended self.new.found self.new.rest.line self.new.rest.rest ≡ unread self.old.ended self.old.found self.old.rest.line self.old.rest.rest }
        ensures none { result ≡ false → HasNoLine self.new.rest.rest }
        ensures ended { self.new.ended ≡ self.old.ended }
        ensures lines { self.new.lines ≡ self.old.lines }
        ensures source { self.new.source ≡ self.old.source }
        ensures start { self.new.start ≡ self.old.start }
        ensures failed { self.new.failed ≡ self.old.failed }
    {
        if self.found {
            return true;
        }
        let whole = self.rest.held_line();
        self.found = whole;
        whole
    }

    /// The event of the line that was found, if its moment is this one. It is put into the inbox.
    fn event_at(&mut self, now: u64, inbox: &mut Inbox) -> bool
        requires ended { self.old.ended ≡ false }
        requires found { self.old.found ≡ true }
        ensures gives { Gives result now (unread self.old.ended self.old.found self.old.rest.line self.old.rest.rest) inbox.old inbox.new }
        ensures heard { ReadOff S.took self.old.source (unread self.old.ended self.old.found self.old.rest.line self.old.rest.rest) self.old.lines (event_if result inbox.new)
            self.new.source (unread self.new.ended self.new.found self.new.rest.line self.new.rest.rest) self.new.lines }
        ensures stays { result ≡ false → (unread self.new.ended self.new.found self.new.rest.line self.new.rest.rest ≡ unread self.old.ended self.old.found self.old.rest.line self.old.rest.rest) × (self.new.lines ≡ self.old.lines) }
        ensures source { self.new.source ≡ self.old.source }
        ensures start { self.new.start ≡ self.old.start }
        ensures failed { self.new.failed ≡ self.old.failed }
    {
        let line = match event_line(self.rest.line()) {
            Some(line) => line,
            None => return false,
        };
        if line.event.now != now {
            return false;
        }
        put_event(line, &mut self.bytes, inbox);
        self.found = false;
        self.lines = self.lines.saturating_add(1);
        true
    }

    /// The next event, where its line was taken already and its moment is this one. No byte is taken off the source.
    pub(crate) fn further(&mut self, now: u64, inbox: &mut Inbox) -> bool
        ensures gives { Gives result now (unread self.old.ended self.old.found self.old.rest.line self.old.rest.rest) inbox.old inbox.new }
        ensures heard { ReadOff S.took self.old.source (unread self.old.ended self.old.found self.old.rest.line self.old.rest.rest) self.old.lines (event_if result inbox.new)
            self.new.source (unread self.new.ended self.new.found self.new.rest.line self.new.rest.rest) self.new.lines }
        ensures stays { result ≡ false → (unread self.new.ended self.new.found self.new.rest.line self.new.rest.rest ≡ unread self.old.ended self.old.found self.old.rest.line self.old.rest.rest) × (self.new.lines ≡ self.old.lines) }
        ensures source { self.new.source ≡ self.old.source }
        ensures start { self.new.start ≡ self.old.start }
        ensures failed { self.new.failed ≡ self.old.failed }
    {
        if self.ended {
            return false;
        }
        if !self.hold() {
            return false;
        }
        self.event_at(now, inbox)
    }
}

/// Puts an event into the inbox, by way of a buffer for its bytes.
fn put_event(line: EventLine<'_>, buffer: &mut [u8], inbox: &mut Inbox)
    requires digits { AreDigits line.digits.now }
    requires len { 2 * line.event.len ≡ length line.digits.now }
    requires moment { line.event.now < 2 ^ 62 }
    requires room { length buffer.old ≡ 65535 }
    ensures event { inbox.new ≡ line_says line.entry }
    ensures bounds { IsEvent inbox.new }
    ensures len { length buffer.new ≡ length buffer.old }
{
    let bytes = &mut buffer[..line.event.len];
    decode(line.digits, bytes);
    inbox.set(line.event, bytes);
}

/// Whether a line is the script's last.
fn is_end(line: &[u8]) -> bool
    ensures value { result ≡ bytes_eq line.now (codes "end") }
    ensures same { result ≡ true → line.now ≡ codes "end" }
{
    line == b"end".as_slice()
}
