//! Several cores that share the events of a world: each event goes to one of them, and those that are given an event make their steps at
//! once.
//!
//! A core is any engine. What all of them do together is said of one machine, `split` of `dc_split`, whatever the threads do.
#![tactic(auto)]

mod acting;
mod bay;
mod due;
mod outward;
mod rounds;
mod routing;
mod serve;
mod served;
mod shards;
mod step;
mod tape;
mod tapes;
#[cfg(test)]
mod tests;

pub use bay::Bay;
pub use serve::serve_shards;
pub use served::ShardServed;
pub use shards::Shards;
pub use tape::Tape;
