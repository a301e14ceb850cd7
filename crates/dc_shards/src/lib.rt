//! The resolver over several cores that share the events.
#![tactic(auto)]

mod asked;
mod command;
pub mod laws;
mod memory;
mod session;

pub use command::shards_command;
pub use memory::memory_of;
pub use session::ShardSession;
