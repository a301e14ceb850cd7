//! The turns of a query: what it does between two waits (after djbdns' query.c; RFC 1034, 5.3.3).
#![tactic(auto)]

mod next;
mod rows;
mod short;
#[cfg(test)]
mod tests;
mod turn;

pub use dc_desk::{Cause, Counts, Desk, Outcome};
pub use turn::{event, failed, heard, start};
