//! What a query looks for: its frames and aliases, and with them what a message says of the name on top.
#![tactic(auto)]

mod frame;
mod frames;
mod place;
mod query;
#[cfg(test)]
mod tests;
mod top;

pub use dc_marks::{Class, Found, class_of, classify, found};
pub use dc_puts::puts;
pub use frame::{Frame, Renamed};
pub use frames::Frames;
pub use query::Query;
pub use std::alloc::AllocError as NoMemory;
