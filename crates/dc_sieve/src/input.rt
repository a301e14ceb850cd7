//! Lines of an input.
ghost use Rattle.std.specs.Prelude.{◌≡◌, ℕ, List, ◌++◌, ◌≤◌, ◌^◌, [], IfOk, true, false};
ghost use Rattle.std.specs.Io.KnownBytes.{IsAtEnd};
ghost use Rattle.std.specs.declared.option.Option.{Option};
ghost use Rattle.dc_event.specs.Causes.{Fares};
ghost use Rattle.dc_script.specs.Lines.{IsOneLine};
ghost use Rattle.dc_sieve.specs.Input.{Held, Counts, Reads, well_read};

use dc_event::{QuietSource, Source};
use dc_filter::MOST_LINE;
use dc_script::{LineRest, NextLine};
use std::alloc::{AllocError, Global};
use std::marker::Model;

/// The most lines of an input.
const MOST_LINES: u64 = 1 << 60;

/// What was read.
#[derive(Clone, Copy, PartialEq, Eq, Debug)]
pub enum Read {
    /// A line.
    Line,
    /// Nothing, since no line is left.
    End,
    /// Nothing, since this line has more than 4096 bytes, or comes behind 2^60 others.
    Long(u64),
    /// Nothing, since the input failed.
    Failed,
}

/// The lines of an input. What follows the last line feed is a line where it isn't empty.
#[derive(Drop)]
pub struct Input {
    lines: LineRest,
    /// A line feed for a last line that has none.
    feed: QuietSource,
    count: u64,
    ended: bool,
}

impl Model for Input {
    ghost use Rattle.std.specs.Prelude.{◌≡◌, ◌≤◌, ◌^◌, ◌∷◌, [], true, false};
    ghost use Rattle.dc_event.specs.Bytes.{Tape};
    ghost use Rattle.dc_sieve.specs.Input.{Held};

    ghost Value = { Held };

    ghost view = { λ a. record { count = a.count; ended = a.ended; line = a.lines.line; rest = a.lines.rest } };

    ghost invariant = { λ a. (a.count ≤ 2 ^ 60) × (a.ended ≡ false → a.feed ≡ record { taken = []; left = 10 ∷ [] }) };
}

impl Input {
    /// An input of which nothing was read. It takes all memory that it needs.
    pub fn new(alloc: Global) -> Result<Input, AllocError>
        ensures { IfOk result (λ input. input ≡ record { count = 0; ended = false; line = []; rest = [] }) }
    {
        Ok(Input {
            lines: LineRest::new(alloc)?,
            feed: QuietSource::new(b"\n".to_vec(alloc)?),
            count: 0,
            ended: false,
        })
    }

    /// The last line that was read, without its line feed.
    pub fn line(&self) -> &[u8]
        ensures { result.now ≡ self.now.line }
    {
        self.lines.line()
    }
}

impl Input {
    /// A line was found: it is read, unless it is too long or comes behind too many.
    fn found(&mut self) -> Read
        ensures counts { Counts result self.old self.new }
        ensures ended { self.new.ended ≡ self.old.ended }
        ensures few { self.new.count ≤ 2 ^ 60 }
        ensures well { well_read result ≡ true }
    {
        if self.count == MOST_LINES || self.lines.line().len() > MOST_LINE {
            return Read::Long(self.count + 1);
        }
        self.count += 1;
        Read::Line
    }

    /// Reads the last line, which has no line feed, where there is one.
    fn last(&mut self) -> Read
        requires going { self.old.ended ≡ false }
        requires line { IsOneLine self.old.rest }
        ensures reads { (left : Option (List ℕ)) → IsAtEnd left → Reads result self.old self.old.rest self.new left }
        ensures few { self.new.count ≤ 2 ^ 60 }
        ensures well { well_read result ≡ true }
    {
        self.ended = true;
        if self.lines.is_empty() {
            return Read::End;
        }
        match self.lines.next_line(&mut self.feed) {
            NextLine::Found => self.found(),
            NextLine::TooLong => Read::Long(self.count + 1),
            NextLine::Ended => unreachable!(),
            NextLine::Failed => unreachable!(),
        }
    }

    /// Reads the next line. Behind the end the source isn't asked again.
    pub fn next<S: Source>(&mut self, source: &mut S) -> Read
        requires end { self.old.ended ≡ true → (self.old.rest ≡ []) × IsAtEnd (S.left source.old) }
        ensures reads { (more : List ℕ) × S.took source.old more source.new × Reads result self.old (self.old.rest ++ more) self.new (S.left source.new) }
        ensures few { self.new.count ≤ 2 ^ 60 }
        ensures fares { Fares S.took S.refused S.faults (well_read result) source.old source.new }
    {
        if self.ended {
            return Read::End;
        }
        match self.lines.next_line(source) {
            NextLine::Found => self.found(),
            NextLine::Ended => self.last(),
            NextLine::TooLong => Read::Long(self.count + 1),
            NextLine::Failed => Read::Failed,
        }
    }
}
