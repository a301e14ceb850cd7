//! Lines, taken from a source in whatever pieces it gives.
ghost use Rattle.std.specs.Prelude.{◌≡◌, ◌≢◌, ℕ, List, ◌+◌, ◌-◌, ◌<◌, ◌≤◌, [], ◌∷◌, ◌++◌, length, take, drop, slice_index, IfOk, MatchOption, MatchBool, Some, None, ◌⊎◌};
ghost use Rattle.std.specs.Io.KnownBytes.{IsAtEnd};
ghost use Rattle.dc_event.specs.Answers.{taken_by, count_taken, IfTakeFailed};
ghost use Rattle.dc_event.specs.Causes.{Fares};
ghost use Rattle.dc_script.specs.Further.{Holds};
ghost use Rattle.dc_script.specs.Lines.{IsOneLine, Finds, FindsNext, count_of, well_line};

use dc_event::{Source, Taken};
use memchr::memchr;
use std::alloc::{AllocError, Global};
use std::marker::Model;

/// The most bytes of a line, without its line feed.
const MOST_LINE: usize = 131_200;

/// How many bytes are held, at most: a whole line with its line feed, and more.
const ROOM: usize = 262_144;

/// What was found.
#[derive(Clone, Copy, PartialEq, Eq)]
pub enum NextLine {
    /// A whole line.
    Found,
    /// The next line has more than 131200 bytes.
    TooLong,
    /// The source is at its end, and no whole line is left.
    Ended,
    /// The source failed.
    Failed,
}

/// Bytes that were taken and aren't read yet, and the last line that was found in them.
#[derive(Drop)]
pub struct LineRest {
    buffer: Vec<u8>,
    line: usize,
    line_len: usize,
    start: usize,
    end: usize,
}

impl Model for LineRest {
    ghost use Rattle.std.specs.Prelude.{◌≡◌, ◌+◌, ◌-◌, ◌≤◌, take, drop, length};
    ghost use Rattle.dc_script.specs.Lines.{Held};

    ghost Value = { Held };

    ghost view = { λ a. record {
      line = take a.line_len (drop a.line a.buffer.items);
      rest = take (a.end - a.start) (drop a.start a.buffer.items);
    } };

    ghost invariant = { λ a. record {
      room : length a.buffer.items ≡ 262144;
      line : a.line + a.line_len ≤ 262144;
      start : a.start ≤ a.end;
      end : a.end ≤ 262144;
    } };
}

impl LineRest {
    /// No bytes.
    pub fn new(alloc: Global) -> Result<LineRest, AllocError>
        ensures { IfOk result (λ lines. lines ≡ record { line = []; rest = [] }) }
    {
        let buffer = vec![in alloc; 0u8; ROOM]?;
        Ok(LineRest {
            buffer,
            line: 0,
            line_len: 0,
            start: 0,
            end: 0,
        })
    }

    /// The last line that was found, without its line feed.
    pub fn line(&self) -> &[u8]
        ensures { result.now ≡ self.now.line }
    {
        &self.buffer[self.line..self.line + self.line_len]
    }

    /// Whether all bytes are read.
    pub fn is_empty(&self) -> bool
        ensures { MatchBool result (length self.now.rest ≡ 0) (0 < length self.now.rest) }
    {
        self.rest_len() == 0
    }

    /// How many bytes aren't read yet.
    fn rest_len(&self) -> usize
        ensures { result ≡ length self.now.rest }
    {
        self.end - self.start
    }

    /// The place of the first line feed, where there is none before `from`.
    fn feed_from(&self, from: usize) -> Option<usize>
        requires from { from ≤ length self.now.rest }
        requires none { IsOneLine (take from self.now.rest) }
        ensures { MatchOption result (IsOneLine self.now.rest)
            (λ at. (at < length self.now.rest) × IsOneLine (take at self.now.rest) × (slice_index self.now.rest at ≡ 10)) }
    {
        feed_in(&self.buffer[self.start..self.end], from)
    }

    /// Takes a line of so many bytes off the rest, with the line feed behind it.
    fn take_off(&mut self, len: usize)
        requires { len < length self.old.rest }
        ensures line { self.new.line ≡ take len self.old.rest }
        ensures rest { self.new.rest ≡ drop (len + 1) self.old.rest }
    {
        self.line = self.start;
        self.line_len = len;
        self.start += len + 1;
    }
}

/// The place of the first line feed in these bytes, where there is none before `from`.
fn feed_in(bytes: &[u8], from: usize) -> Option<usize>
    requires from { from ≤ length bytes.now }
    requires none { IsOneLine (take from bytes.now) }
    ensures { MatchOption result (IsOneLine bytes.now)
        (λ at. (at < length bytes.now) × IsOneLine (take at bytes.now) × (slice_index bytes.now at ≡ 10)) }
{
    match memchr(b'\n', &bytes[from..]) {
        Some(at) => Some(from + at),
        None => None,
    }
}

impl LineRest {
    /// Takes further bytes behind the rest, as many as the source gives at once, and forgets the line.
    fn fill<S: Source>(&mut self, source: &mut S) -> Taken
        requires { length self.old.rest < 262144 }
        ensures took { (more : List ℕ) × S.took source.old more source.new × (self.new.rest ≡ self.old.rest ++ more)
            × (length more ≡ count_of result) }
        ensures line { self.new.line ≡ [] }
        ensures room { length self.new.rest ≤ 262144 }
        ensures end { result ≡ Taken.Bytes 0 → IsAtEnd (S.left source.new) }
        ensures count { S.faults source.new ≡ count_taken result (S.faults source.old) }
        ensures failed { IfTakeFailed result (S.refused source.old source.new) }
    {
        let held = self.end - self.start;
        self.buffer.copy_within(self.start..self.end, 0);
        let taken = take_behind(source, &mut self.buffer, held);
        self.line = 0;
        self.line_len = 0;
        self.start = 0;
        self.end = held + count_taken(taken);
        taken
    }
}

impl LineRest {
    /// What a line feed at this place of the rest ends: a line, which is taken off, or one that is too long.
    fn found(&mut self, len: usize) -> NextLine
        requires within { len < length self.old.rest }
        requires first { IsOneLine (take len self.old.rest) }
        requires feed { slice_index self.old.rest len ≡ 10 }
        ensures finds { Finds result self.old.rest self.new None }
        ensures answer { (result ≡ NextLine.Found) ⊎ (result ≡ NextLine.TooLong) }
    {
        if len > MOST_LINE {
            return NextLine::TooLong;
        }
        self.take_off(len);
        NextLine::Found
    }

    /// Finds the next line among the bytes that are held, and answers whether there is a whole one. None are taken.
    pub(crate) fn held_line(&mut self) -> bool
        ensures { Holds result self.old.rest self.new }
    {
        match self.feed_from(0) {
            Some(len) => matches!(self.found(len), NextLine::Found),
            None => false,
        }
    }

    /// Finds the next line. Further bytes are taken only where no whole line is held.
    pub fn next_line<S: Source>(&mut self, source: &mut S) -> NextLine
        ensures found { FindsNext S.took S.left result self.old source.old self.new source.new }
        ensures fares { Fares S.took S.refused S.faults (well_line result) source.old source.new }
    {
        let mut searched: usize = 0;
        loop {
            if let Some(len) = self.feed_from(searched) {
                return self.found(len);
            }
            searched = self.rest_len();
            if searched > MOST_LINE {
                return NextLine::TooLong;
            }
            match self.fill(source) {
                Taken::Bytes(0) => return NextLine::Ended,
                Taken::Bytes(_) => {}
                Taken::Failed => return NextLine::Failed,
            }
        }
    }
}

/// How many bytes were taken.
fn count_taken(taken: Taken) -> usize
    ensures { result ≡ count_of taken }
{
    match taken {
        Taken::Bytes(count) => count,
        Taken::Failed => 0,
    }
}

/// Takes bytes from a source to a place of a buffer.
fn take_behind<S: Source>(source: &mut S, buffer: &mut [u8], end: usize) -> Taken
    requires { end < length buffer.old }
    ensures took { S.took source.old (taken_by result (drop end buffer.new)) source.new }
    ensures bound { end + count_of result ≤ length buffer.new }
    ensures front { take end buffer.new ≡ take end buffer.old }
    ensures end { result ≡ Taken.Bytes 0 → IsAtEnd (S.left source.new) }
    ensures count { S.faults source.new ≡ count_taken result (S.faults source.old) }
    ensures failed { IfTakeFailed result (S.refused source.old source.new) }
{
    source.take(&mut buffer[end..])
}
