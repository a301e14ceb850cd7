//! A service that keeps its cache: what it begins with, what it leaves, and serving clients in between.
#![tactic(auto)]

mod first;
mod keep;
pub mod laws;
mod save;

pub use first::first_store;
pub use keep::keep_command;
pub use save::save_where_ended;
