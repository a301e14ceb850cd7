//! Whole texts.
ghost use Rattle.std.specs.Prelude.{◌≡◌, ℕ, List, [], ◌++◌, length};
ghost use Rattle.dc_event.specs.Answers.{PutsWhole, well_put};
ghost use Rattle.dc_event.specs.Causes.{Fares};

use crate::{Put, Sink};

/// Puts all of these bytes, by as many calls as it takes. Where a call fails, a front of them was put, and that call is the last.
pub fn put_all<K: Sink>(sink: &mut K, bytes: &[u8]) -> Put
    ensures whole { PutsWhole K.gained result sink.old bytes.now sink.new }
    ensures fares { Fares K.gained K.refused K.faults (well_put result) sink.old sink.new }
{
    let mut at: usize = 0;
    'bytes: while at < bytes.len() {
        match sink.put(&bytes[at..]) {
            Put::Taken(count) => at += count,
            Put::Failed => return Put::Failed,
        }
    }
    Put::Taken(bytes.len())
}
