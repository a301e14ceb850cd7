//! A script is run, and the text of its actions compared with a recorded one.
ghost use Rattle.std.specs.Prelude.{◌≡◌, ◌+◌, ◌<◌, ◌≤◌, ◌^◌, ◌++◌, length, IfOk};
ghost use Rattle.dc_script.specs.Read.{says};
ghost use Rattle.dc_script.specs.Script.{pieces_of};
ghost use Rattle.dc_audit.specs.Verdict.{verdict_of, verdict_or, compared, texts_of};

use crate::hearing::{Events, Places, first_bad};
use crate::idle::Idle;
use crate::judging::Judging;
use crate::reading::Reading;
use crate::{NoMemory, Verdict};
use dc_core::Core;
use dc_ring::ArenaStore;
use dc_rules::Config;
use dc_script::{ScriptError, read_head};
use std::alloc::{AllocError, Global};

/// A script is shorter than so many bytes, which no memory holds.
const MOST_BYTES: usize = 1 << 60;

/// A cache over so many bytes is too large to be judged.
const MOST_SIZE: u32 = 10_000_000;

/// The verdict on a script whose cache is too large. Its events are read and not run.
fn too_large(places: Places, seed: [u8; 32], events: Events<'_>) -> Verdict
    requires head { events.lines < 2 ^ 32 }
    requires few { length (pieces_of (events.rest.rest ++ events.source)) ≤ 2 ^ 60 }
    ensures { result ≡ verdict_or Verdict.Large (says (events.entry.lines + 1) (events.entry.rest.rest ++ events.entry.source)).bad }
{
    match first_bad(places, &mut Idle::new(), seed, events) {
        Some(line) => Verdict::Bad(line),
        None => Verdict::Large,
    }
}

/// The verdict on another script, behind its head. The core's memory is taken first.
fn compared_run(
    alloc: Global,
    places: Places,
    config: Config,
    seed: [u8; 32],
    events: Events<'_>,
    recorded: &[u8],
) -> Result<Verdict, NoMemory>
    requires head { events.lines < 2 ^ 32 }
    requires few { length (pieces_of (events.rest.rest ++ events.source)) ≤ 2 ^ 60 }
    ensures { IfOk result (λ v. v
        ≡ verdict_or (compared 0 (texts_of config seed (says (events.entry.lines + 1) (events.entry.rest.rest ++ events.entry.source)).events) recorded.now)
        (says (events.entry.lines + 1) (events.entry.rest.rest ++ events.entry.source)).bad) }
{
    let store = ArenaStore::new(alloc, config.size)?;
    let core = Core::new(alloc, config, store)?;
    let mut judging = Judging::new(core, recorded);
    match first_bad(places, &mut judging, seed, events) {
        Some(line) => Ok(Verdict::Bad(line)),
        None => Ok(judging.verdict()),
    }
}

/// The verdict on a script and a text that was recorded of its run.
///
/// Each text is compared with what is left of the recorded one as it comes, and neither is kept, so the memory taken doesn't grow with the
/// number of events. NoMemory comes where memory is refused, and for a script of 2^60 bytes and more.
pub fn verdict(alloc: Global, script: &[u8], recorded: &[u8]) -> Result<Verdict, NoMemory>
    ensures { IfOk result (λ v. v ≡ verdict_of script.now recorded.now) }
{
    if script.len() >= MOST_BYTES {
        return Err(AllocError);
    }
    let mut source = Reading::new(script);
    let head = match read_head(alloc, &mut source) {
        Ok(head) => head,
        Err(ScriptError::Bad { line }) => return Ok(Verdict::Bad(line)),
        Err(ScriptError::ReadFault | ScriptError::NoMemory) => return Err(AllocError),
    };
    let places = Places::new(alloc)?;
    let events = Events {
        lines: head.lines,
        rest: head.rest,
        source,
    };
    if head.config.size > MOST_SIZE {
        return Ok(too_large(places, head.seed, events));
    }
    compared_run(alloc, places, head.config, head.seed, events, recorded)
}
