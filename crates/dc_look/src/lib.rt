//! A look at a name: what is built in, what the cache knows, and which servers to ask (after djbdns' query.c; RFC 1034, 5.3.3).
#![tactic(auto)]

mod built_in;
mod cached;
mod kinds;
mod rules;
mod servers;
mod wanted;
mod zone;

pub use rules::look;

#[cfg(test)]
mod tests;
