//! The active queries, in the order of their serial numbers. All memory is taken at the start.
//!
//! Contracts see them as the machine does, and beside them the number of spare works.
#![tactic(auto)]

mod actives;
mod client;
mod entry;
#[cfg(test)]
mod tests;
mod work;

pub use actives::Actives;
pub use client::Client;
pub use work::{Taken, Work};
