//! Sources and sinks over a reader or a writer of std.
ghost use Rattle.std.specs.Prelude.{◌≡◌, ℕ, List, [], ◌++◌};
ghost use Rattle.dc_event.specs.Causes.{counted};
ghost use Rattle.std.specs.Io.KnownBytes.{Consumes, Appends};
ghost use Rattle.dc_event.specs.Known.{Consumes-none, Consumes-both, Appends-none, Appends-both};

use crate::stream::{Sink, Source};
use crate::{Put, Taken};
use std::io::{Read, Write};
use std::marker::Model;

/// A source over any reader. Each `take` makes one read, and counts it where it fails. It tells what its reader tells, which is nothing for
/// a file, a pipe or a terminal.
#[derive(Drop)]
pub struct ReaderSource<R> {
    reader: R,
    faults: u64,
}

impl<R> Model for ReaderSource<R> {
    ghost use Rattle.dc_event.specs.Host.{Over};

    ghost Value = { Over R };

    ghost view = { λ a. record { inner = a.reader; faults = a.faults } };
}

impl<R> ReaderSource<R> {
    /// A source over this reader.
    pub fn new(reader: R) -> ReaderSource<R>
        ensures { result ≡ record { inner = reader; faults = 0 } }
    {
        ReaderSource { reader, faults: 0 }
    }
}

impl<R: Read> Source for ReaderSource<R> {
    ghost took = { λ a xs b. Consumes (R.remaining a.inner) (R.remaining b.inner) xs };

    ghost left = { λ s. R.remaining s.inner };

    ghost faults = { λ s. s.faults };

    ghost refused = { λ a b. b.faults ≡ counted a.faults };

    fn take(&mut self, into: &mut [u8]) -> Taken {
        match self.reader.read(into) {
            Ok(count) => Taken::Bytes(count),
            Err(_) => {
                self.faults = self.faults.saturating_add(1);
                Taken::Failed
            }
        }
    }

    fn faults(&self) -> u64 {
        self.faults
    }

    ghost took_none = { λ a. Consumes-none (R.remaining a.inner) };

    ghost took_both = { λ a b c. Consumes-both (R.remaining a.inner) (R.remaining b.inner) (R.remaining c.inner) };

    ghost took_left = { λ a b xs m. m };
}

/// A sink over any writer. Each `put` makes one write, and counts it where it fails or takes nothing. It tells what its writer tells, which
/// is nothing for a file, a pipe or a terminal.
#[derive(Drop)]
pub struct WriterSink<W> {
    writer: W,
    faults: u64,
}

impl<W> Model for WriterSink<W> {
    ghost use Rattle.dc_event.specs.Host.{Over};

    ghost Value = { Over W };

    ghost view = { λ a. record { inner = a.writer; faults = a.faults } };
}

impl<W> WriterSink<W> {
    /// A sink over this writer.
    pub fn new(writer: W) -> WriterSink<W>
        ensures { result ≡ record { inner = writer; faults = 0 } }
    {
        WriterSink { writer, faults: 0 }
    }
}

impl<W: Write> Sink for WriterSink<W> {
    ghost gained = { λ a xs b. Appends (W.contents a.inner) (W.contents b.inner) xs };

    ghost faults = { λ s. s.faults };

    ghost refused = { λ a b. b.faults ≡ counted a.faults };

    fn put(&mut self, bytes: &[u8]) -> Put {
        match self.writer.write(bytes) {
            Ok(count) if count > 0 => Put::Taken(count),
            _ => {
                self.faults = self.faults.saturating_add(1);
                Put::Failed
            }
        }
    }

    fn faults(&self) -> u64 {
        self.faults
    }

    ghost gained_none = { λ a. Appends-none (W.contents a.inner) };

    ghost gained_both = { λ a b c. Appends-both (W.contents a.inner) (W.contents b.inner) (W.contents c.inner) };
}
