//! Names of the domain name system, kept as the bytes that they have in a message (RFC 1035, 3.1).
#![tactic(auto)]

mod error;
mod name;
mod number;
mod suffix;
#[cfg(test)]
mod tests;
mod text;
mod wire;

pub use error::NameError;
pub use name::Name;
pub use suffix::Suffix;
