//! Bodies of cached entries, item by item (after djbdns' query.c).
//!
//! A body may have any bytes and any length. Nothing of it is copied but names.
#![tactic(auto)]

mod addresses;
mod alias;
mod item;
mod items;
mod plain;
#[cfg(test)]
mod tests;

pub use addresses::Addresses;
pub use alias::target;
pub use items::Items;
