//! How serving over several cores ends.
ghost use Rattle.std.specs.Prelude.{◌≡◌, None, option_map};
ghost use Rattle.dc_shard.specs.Bays.{states_of};
ghost use Rattle.dc_shards.specs.Serving.{status_behind, left_behind};

use dc_core::Core;
use dc_ring::ArenaStore;
use dc_shard::{ShardServed, Shards, Tape};
use dc_status::Status;

/// How serving over several cores ended, and the cores behind it, exactly where events were served and memory was never wanting.
#[derive(Drop)]
pub struct ShardSession {
    /// How it ended.
    pub status: Status,
    /// The cores behind the last event.
    pub shards: Option<Shards<Core<ArenaStore>, Tape>>,
}

impl ShardSession {
    /// Nothing was served.
    pub(crate) fn refused(status: Status) -> ShardSession
        ensures status { result.status ≡ status }
        ensures shards { result.shards ≡ None }
        ensures cores { option_map (λ s. states_of (λ r. r) s.bays.items) result.shards ≡ None }
    {
        ShardSession {
            status,
            shards: None,
        }
    }

    /// The session behind the loop.
    pub(crate) fn behind(ended: ShardServed, shards: Shards<Core<ArenaStore>, Tape>) -> ShardSession
        ensures status { result.status ≡ status_behind ended }
        ensures cores { option_map (λ s. states_of (λ r. r) s.bays.items) result.shards ≡ left_behind ended (states_of (λ r. r) shards.bays.items) }
    {
        let status = match ended {
            ShardServed::Ended => Status::Done,
            ShardServed::Spent => Status::Spent,
            ShardServed::Failed => Status::WorldFault,
            ShardServed::Bad { line } => Status::BadScript(line),
            ShardServed::NoMemory => return ShardSession::refused(Status::NoMemory),
        };
        ShardSession {
            status,
            shards: Some(shards),
        }
    }
}
