//! Serving clients: the seed and the memory that are taken first, and the session that follows.
#![tactic(auto)]

pub mod laws;
mod memory;
mod seed;
mod serving;
mod session;
mod setup;

pub use memory::{core_of, memory_of, store_of};
pub use seed::{SEED, Seed, take_seed};
pub use serving::{serve_command, serve_from};
pub use session::{Session, status_of};
pub use setup::{Basis, set_up};
