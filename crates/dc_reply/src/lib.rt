//! Replies to clients, built once and in place (RFC 1035, 4.1; djbdns' response.c).
#![tactic(auto)]

mod body;
pub mod laws;
mod message;
mod reply;
mod suffixes;
mod writer;

pub use body::Body;
pub use reply::Reply;

#[cfg(test)]
mod tests;
