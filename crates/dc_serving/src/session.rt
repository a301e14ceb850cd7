//! How serving ends.
ghost use Rattle.std.specs.Prelude.{◌≡◌, None};
ghost use Rattle.dc_serving.specs.Serving.{status_from};

use dc_core::Core;
use dc_ring::ArenaStore;
use dc_serve::Served;
use dc_status::Status;

/// How serving ended, and the core behind it, exactly where events were served.
#[derive(Drop)]
pub struct Session {
    /// How it ended.
    pub status: Status,
    /// The core behind the last event.
    pub core: Option<Core<ArenaStore>>,
}

impl Session {
    /// Nothing was served.
    pub fn refused(status: Status) -> Session
        ensures status { result.status ≡ status }
        ensures core { result.core ≡ None }
    {
        Session { status, core: None }
    }
}

/// The status behind the loop.
pub fn status_of(ended: Served) -> Status
    ensures status { result ≡ status_from ended }
{
    match ended {
        Served::Finished | Served::Ended => Status::Done,
        Served::Spent => Status::Spent,
        Served::Failed => Status::WorldFault,
        Served::Bad { line } => Status::BadScript(line),
    }
}
