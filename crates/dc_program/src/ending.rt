//! How the program ends: what it says, and its exit status.
ghost use Rattle.std.specs.Prelude.{◌≡◌};
ghost use Rattle.std.specs.Process.{exit_status};
ghost use Rattle.dc_event.specs.Causes.{Fares};
ghost use Rattle.dc_program.specs.Exit.{exit_of};
ghost use Rattle.dc_program.specs.Texts.{fatal, text_of, Puts};

use dc_event::{Put, Sink, put_all};
use dc_status::Status;
use itoa::Buffer;
use std::process::ExitCode;

/// Puts a text, and tells whether all of it was put.
fn put<K: Sink>(sink: &mut K, text: &[u8]) -> bool
    ensures puts { Puts K.gained result sink.old text.now sink.new }
    ensures fares { Fares K.gained K.refused K.faults result sink.old sink.new }
{
    match put_all(sink, text) {
        Put::Taken(_) => true,
        Put::Failed => false,
    }
}

/// Puts the line of a refusal.
fn put_fatal<K: Sink>(sink: &mut K, words: &[u8], about: &[u8]) -> bool
    ensures puts { Puts K.gained result sink.old (fatal words.now about.now) sink.new }
    ensures fares { Fares K.gained K.refused K.faults result sink.old sink.new }
{
    if !put(sink, b"dnscache: fatal: ") {
        return false;
    }
    if !put(sink, words) {
        return false;
    }
    if !put(sink, about) {
        return false;
    }
    put(sink, b"\n")
}

/// Puts why the program ended, unless it ended well or has written what isn't as recorded, and tells whether all of it was put. It takes no memory.
pub fn report<K: Sink>(sink: &mut K, status: &Status) -> bool
    ensures puts { Puts K.gained result sink.old (text_of status.now) sink.new }
    ensures fares { Fares K.gained K.refused K.faults result sink.old sink.new }
{
    match status {
        Status::Done | Status::Spent | Status::Unequal => true,
        Status::Usage => {
            put_fatal(
                sink,
                b"usage: dnscache [replay | simulate SEED EVENTS | audit FILE ..]",
                b"",
            )
        }
        Status::BadVariable(variable) => {
            put_fatal(sink, b"unable to read $", variable.name().as_bytes())
        }
        Status::NoRoot => put_fatal(sink, b"no root servers", b""),
        Status::BadZone(file) => put_fatal(sink, b"bad server file ", file.text().as_bytes()),
        Status::BadPermit(file) => put_fatal(sink, b"bad permission file ", file.text().as_bytes()),
        Status::FilesFault => put_fatal(sink, b"unable to read files", b""),
        Status::SeedShort => put_fatal(sink, b"seed too short", b""),
        Status::ReadFault => put_fatal(sink, b"unable to read input", b""),
        Status::WriteFault => put_fatal(sink, b"unable to write output", b""),
        Status::BadScript(line) => {
            let mut digits = Buffer::new();
            put_fatal(sink, b"bad script line ", digits.format(*line).as_bytes())
        }
        Status::BadImage => put_fatal(sink, b"bad cache image", b""),
        Status::WorldFault => put_fatal(sink, b"network or log fault", b""),
        Status::NoMemory => put_fatal(sink, b"out of memory", b""),
    }
}

/// The exit status: 0 where the program ended well, 1 where a recorded run isn't as recorded, 100 for unknown words, and else 111.
pub fn exit_code(status: &Status) -> ExitCode
    ensures { exit_status result ≡ exit_of status.now }
{
    ExitCode::from(match status {
        Status::Done | Status::Spent => 0,
        Status::Unequal => 1,
        Status::Usage => 100,
        _ => 111,
    })
}
