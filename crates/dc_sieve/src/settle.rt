//! Lines are read and written as long as either can be done.
ghost use Rattle.std.specs.Prelude.{◌≡◌, ℕ, List, ◌++◌, ◌<◌, ◌≤◌, ◌^◌, [], length, true, false};
ghost use Rattle.std.specs.Io.KnownBytes.{IsAtEnd};
ghost use Rattle.dc_event.specs.Answers.{PutsWhole, well_put};
ghost use Rattle.dc_event.specs.Causes.{Fares};
ghost use Rattle.dc_event.specs.Told.{GainedFront};
ghost use Rattle.dc_lookup.specs.Filter.{flushed};
ghost use Rattle.dc_sieve.specs.Flushing.{FlushesSo};
ghost use Rattle.dc_sieve.specs.Going.{IsWithin, IsLater, SettlesSo, well_taken, well_put as well_written};

use crate::input::{Input, Read};
use dc_event::{Put, Sink, Source, put_all};
use dc_filter::FilterEngine;

/// How settling ended.
#[derive(Clone, Copy, PartialEq, Eq, Debug)]
pub enum Settled {
    /// Nothing more can be read or written now.
    Quiet,
    /// The input failed.
    ReadFault,
    /// The output failed.
    WriteFault,
    /// This line is too long, or comes behind too many.
    LongLine(u64),
}

/// Writes the lines that are done, from the front on.
fn flush<K: Sink>(engine: &mut FilterEngine, sink: &mut K) -> Put
    ensures flushed { FlushesSo K.gained result engine.old sink.old engine.new sink.new }
    ensures fares { Fares K.gained K.refused K.faults (well_put result) sink.old sink.new }
{
    'lines: loop {
        let Some(text) = engine.front() else {
            return Put::Taken(0);
        };
        match put_all(sink, text) {
            Put::Taken(_) => {}
            Put::Failed => return Put::Failed,
        }
        engine.drop_front();
    }
}

/// Reads and writes lines as long as either can be done.
#[tactic(none)]
pub fn settle<S: Source, K: Sink>(
    engine: &mut FilterEngine,
    input: &mut Input,
    source: &mut S,
    sink: &mut K,
) -> Settled
    requires within { IsWithin engine.old }
    requires few { input.old.count ≤ 2 ^ 60 }
    requires end { input.old.ended ≡ true → (input.old.rest ≡ []) × IsAtEnd (S.left source.old) }
    ensures settled { (more text : List ℕ) × S.took source.old more source.new × K.gained sink.old text sink.new
        × IsLater input.old more input.new × SettlesSo result engine.old input.old (input.old.rest ++ more) engine.new input.new text }
    ensures few { input.new.count ≤ 2 ^ 60 }
    ensures end { input.new.ended ≡ true → IsAtEnd (S.left source.new) }
    ensures source { Fares S.took S.refused S.faults (well_taken result) source.old source.new }
    ensures sink { Fares K.gained K.refused K.faults (well_written result) sink.old sink.new }
{
    'settling: loop {
        match flush(engine, sink) {
            Put::Taken(_) => {}
            Put::Failed => return Settled::WriteFault,
        }
        if !engine.room() {
            return Settled::Quiet;
        }
        match input.next(source) {
            Read::Line => engine.add(input.line()),
            Read::End => return Settled::Quiet,
            Read::Long(number) => return Settled::LongLine(number),
            Read::Failed => return Settled::ReadFault,
        }
    }
}
