//! Clients' open TCP connections: the bytes that came of each, and its deadline (RFC 1035, 4.2.2; after djbdns' dnscache.c).
//!
//! Contracts see them as the connections of `dc_machine`, in the order of opening.
#![tactic(auto)]

mod connections;
mod entry;
mod stream;
#[cfg(test)]
mod tests;

pub use connections::Connections;
