//! What a resolver is configured by: zones with servers of their own, who may ask, and sizes and addresses.
#![tactic(auto)]

mod config;
mod error;
mod permit;
mod servers;
#[cfg(test)]
mod tests;
mod zones;

pub use config::Config;
pub use error::{PermitError, ZoneError};
pub use permit::Permit;
pub use servers::{address_in, if_filled, read_servers};
pub use std::alloc::AllocError as NoMemory;
pub use zones::{Rule, Zone, Zones};
