//! The reply to a query: its question, the aliases that were followed, and what was found.
#![tactic(auto)]

mod begin;
mod heard;
mod items;
mod lent;
mod one;

pub use heard::reply_heard;
pub use items::reply_items;
pub use one::{reply_failure, reply_missing, reply_nothing, reply_one};

#[cfg(test)]
mod tests;
