//! What a query makes of the packet that a server sent (after djbdns' query.c; RFC 1034, 5.3.3; RFC 2308).
#![tactic(auto)]

mod answers;
mod follow;
mod heard;
mod lame;
mod missing;
mod record;
mod refers;
mod says;
#[cfg(test)]
mod tests;
mod told;

pub use heard::{Answered, hear};
