//! The words of a tool are gone over.
ghost use Rattle.std.specs.Prelude.{◌≡◌, ◌≢◌, ◌+◌, ◌<◌, ◌≤◌, ◌^◌, ℕ, List, length, map, true, false};
ghost use Rattle.dc_model.specs.Draws.{draws_of};
ghost use Rattle.dc_model.specs.Places.{all_empty};
ghost use Rattle.dc_event.specs.Causes.{counted, Fares};
ghost use Rattle.dc_lookup.specs.Lookup.{opened};
ghost use Rattle.dc_stub.specs.Faults.{output_well};
ghost use Rattle.dc_stub.specs.Look.{Looked, job_of};

use crate::status::ToolStatus;
use crate::word::{Session, Shows, ask_word};
use dc_event::{Put, Sink, World};
use dc_name::Name;
use std::alloc::Global;

/// What a word comes to.
#[derive(Drop)]
pub enum Job {
    /// The text of an address, at once.
    Says([u8; 4]),
    /// A question.
    Asks(Name, u16),
}

/// Whether a word has its text.
fn is_done(status: ToolStatus) -> bool
    ensures done { result ≡ true → status ≡ ToolStatus.Done }
    ensures other { result ≡ false → status ≢ ToolStatus.Done }
{
    matches!(status, ToolStatus::Done)
}

/// Goes over the words of a tool: each is asked for, where it must be, and its text is written when its answer has come.
pub fn look_up<T: Shows, K: Sink, W: World>(
    alloc: Global,
    servers: &[[u8; 4]; 16],
    jobs: &[Job],
    session: &mut Session,
    sink: &mut K,
    world: &mut W,
) -> ToolStatus
    requires place { all_empty servers.now ≡ false }
    requires fresh { session.old.draws.given ≡ 0 }
    requires left { session.old.left ≤ 2 ^ 60 }
    ensures looked { Looked W.history W.used_up W.broken K.gained world.old world.new sink.old sink.new
        T.tool (opened servers.now (map job_of jobs.now)) (draws_of session.old.draws.seed) session.old.left result }
    ensures sink_fares { Fares K.gained K.refused K.faults (output_well result) sink.old sink.new }
    ensures world_fault { result ≡ ToolStatus.WorldFault → W.faults world.new ≡ counted (W.faults world.old) }
    ensures world_stays { result ≢ ToolStatus.WorldFault → W.faults world.new ≡ W.faults world.old }
{
    let mut at: usize = 0;
    'jobs: while at < jobs.len() {
        match &jobs[at] {
            Job::Says(addr) => match T::say(*addr, sink) {
                Put::Taken(_) => at += 1,
                Put::Failed => return ToolStatus::WriteFault,
            },
            Job::Asks(name, kind) => {
                let status = ask_word::<T, K, W>(alloc, servers, name, *kind, session, sink, world);
                if is_done(status) {
                    at += 1;
                } else {
                    return status;
                }
            }
        }
    }
    ToolStatus::Done
}
