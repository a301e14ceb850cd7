//! A writer: it gathers pieces of text, and puts them into a sink.
ghost use Rattle.std.specs.Prelude.{◌≡◌, ℕ, ◌+◌, ◌-◌, ◌^◌, ◌≤◌, [], ◌++◌, min, length, decimal, true, false, not};
ghost use Rattle.dc_event.specs.Answers.{well_put};
ghost use Rattle.dc_model.specs.Address.{address_text};
ghost use Rattle.dc_writer.specs.Fated.{Fated};
ghost use Rattle.dc_writer.specs.Written.{Written, unwritten, counted, Passes, Wrote, Flushes};

use crate::words::{Words, push_address};
use arrayvec::ArrayVec;
use dc_event::{Put, Sink, put_all};
use itoa::Buffer as Digits;
use std::marker::Model;

/// How many bytes are gathered before they are put, at most.
const ROOM: usize = 4096;

/// Pieces of text on their way to a sink. Once the sink has failed, nothing more is put.
///
/// Contracts see the bytes that are held, how many bytes were written, as far as a `usize` can say, and whether the sink has failed.
#[derive(Drop)]
pub struct Writer {
    bytes: ArrayVec<u8, ROOM>,
    count: usize,
    failed: bool,
}

impl Model for Writer {
    ghost use Rattle.dc_writer.specs.Written.{Written};

    ghost Value = { Written };

    ghost view = { λ w. record { held = w.bytes.items; count = w.count; failed = w.failed } };
}

impl Writer {
    /// A writer of nothing.
    pub fn new() -> Writer
        ensures { result ≡ unwritten }
    {
        Writer {
            bytes: ArrayVec::new(),
            count: 0,
            failed: false,
        }
    }

    /// Writes bytes as they are.
    pub fn put<K: Sink>(&mut self, sink: &mut K, bytes: &[u8])
        ensures wrote { Wrote K.gained K.faults self.old sink.old bytes.now self.new sink.new }
        ensures fared { Fated K.gained K.refused K.faults self.old.failed self.new.failed sink.old sink.new }
    {
        self.count = self.count.saturating_add(bytes.len());
        if !self.failed {
            self.gather(sink, bytes);
        }
    }

    /// Writes a number in decimal.
    pub fn number<K: Sink>(&mut self, sink: &mut K, number: u64)
        ensures wrote { Wrote K.gained K.faults self.old sink.old (decimal number) self.new sink.new }
        ensures fared { Fated K.gained K.refused K.faults self.old.failed self.new.failed sink.old sink.new }
    {
        let mut digits = Digits::new();
        self.put(sink, digits.format(number).as_bytes());
    }

    /// Writes four bytes as an address: numbers joined by dots.
    pub fn address<K: Sink>(&mut self, sink: &mut K, addr: &[u8])
        requires { length addr.now ≡ 4 }
        ensures wrote { Wrote K.gained K.faults self.old sink.old (address_text addr.now) self.new sink.new }
        ensures fared { Fated K.gained K.refused K.faults self.old.failed self.new.failed sink.old sink.new }
    {
        let mut text = Words::new();
        push_address(&mut text, [addr[0], addr[1], addr[2], addr[3]]);
        self.put(sink, text.as_slice());
    }

    /// Puts all that is held, and answers how many bytes were written.
    pub fn finish<K: Sink>(&mut self, sink: &mut K) -> Put
        ensures flushed { Flushes K.gained K.faults self.old.failed result self.old.count sink.old self.old.held sink.new }
        ensures fared { Fated K.gained K.refused K.faults self.old.failed (not (well_put result)) sink.old sink.new }
    {
        if self.failed {
            return Put::Failed;
        }
        self.flush(sink);
        if self.failed {
            Put::Failed
        } else {
            Put::Taken(self.told())
        }
    }

    /// How many bytes were written, as far as a `usize` can say.
    fn told(&self) -> usize
        ensures { result ≡ counted self.now.count }
    {
        self.count
    }

    /// Holds bytes, or puts them where there is no room.
    fn gather<K: Sink>(&mut self, sink: &mut K, bytes: &[u8])
        requires well { self.old.failed ≡ false }
        ensures passed { Passes K.gained K.faults false self.new.failed sink.old self.old.held bytes.now sink.new self.new.held }
        ensures fared { Fated K.gained K.refused K.faults false self.new.failed sink.old sink.new }
        ensures count { self.new.count ≡ self.old.count }
    {
        if bytes.len() <= self.bytes.remaining_capacity() {
            self.keep(bytes);
            return;
        }
        self.flush(sink);
        if !self.failed {
            self.hold(sink, bytes);
        }
    }

    /// Holds bytes, of which none are held, or puts them where they are too many.
    fn hold<K: Sink>(&mut self, sink: &mut K, bytes: &[u8])
        requires well { self.old.failed ≡ false }
        requires empty { self.old.held ≡ [] }
        ensures passed { Passes K.gained K.faults false self.new.failed sink.old [] bytes.now sink.new self.new.held }
        ensures fared { Fated K.gained K.refused K.faults false self.new.failed sink.old sink.new }
        ensures count { self.new.count ≡ self.old.count }
    {
        if bytes.len() <= ROOM {
            self.keep(bytes);
        } else {
            self.send(sink, bytes);
        }
    }

    /// Holds bytes for which there is room.
    fn keep(&mut self, bytes: &[u8])
        requires { length self.old.held + length bytes.now ≤ ROOM }
        ensures { self.new ≡ record { held = self.old.held ++ bytes.now; count = self.old.count; failed = self.old.failed } }
    {
        let Ok(()) = self.bytes.try_extend_from_slice(bytes) else {
            unreachable!();
        };
    }

    /// Puts bytes, where none are held.
    fn send<K: Sink>(&mut self, sink: &mut K, bytes: &[u8])
        requires well { self.old.failed ≡ false }
        requires empty { self.old.held ≡ [] }
        ensures passed { Passes K.gained K.faults false self.new.failed sink.old [] bytes.now sink.new [] }
        ensures fared { Fated K.gained K.refused K.faults false self.new.failed sink.old sink.new }
        ensures empty { self.new.held ≡ [] }
        ensures count { self.new.count ≡ self.old.count }
    {
        match put_all(sink, bytes) {
            Put::Taken(_) => {}
            Put::Failed => self.failed = true,
        }
    }

    /// Puts what is held.
    fn flush<K: Sink>(&mut self, sink: &mut K)
        requires well { self.old.failed ≡ false }
        ensures passed { Passes K.gained K.faults false self.new.failed sink.old [] self.old.held sink.new [] }
        ensures fared { Fated K.gained K.refused K.faults false self.new.failed sink.old sink.new }
        ensures empty { self.new.held ≡ [] }
        ensures count { self.new.count ≡ self.old.count }
    {
        match put_all(sink, self.bytes.as_slice()) {
            Put::Taken(_) => {}
            Put::Failed => self.failed = true,
        }
        self.bytes.clear();
    }
}

impl Default for Writer {
    ghost is_default = { λ writer. writer ≡ unwritten };

    fn default() -> Writer {
        Writer::new()
    }
}
