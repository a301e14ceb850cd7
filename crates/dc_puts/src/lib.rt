//! What a message leaves in the cache, and the lines that tell of it.
#![tactic(auto)]

mod gathered;
mod group;
mod index;
mod order;
mod record;
#[cfg(test)]
mod tests;
mod told;
mod walk;

pub use walk::puts;
