//! Numbers and addresses in text, and the parts of a text.
#![tactic(auto)]

pub mod numbers;
pub mod parts;

pub use numbers::{address, number, octet, octets};
pub use parts::Parts;

#[cfg(test)]
mod tests;
