//! What a resolver is configured by.
ghost use Rattle.std.specs.Prelude.{◌≡◌, IfOk};

use crate::{NoMemory, Permit, Zones};
use std::alloc::Global;

/// What a resolver is configured by.
#[derive(Drop)]
pub struct Config {
    /// How many bytes the cache has.
    pub size: u32,
    /// Whether all questions go to the configured servers, with recursion wanted.
    pub forward: bool,
    /// The address on which clients are served.
    pub ip: [u8; 4],
    /// The address from which questions are sent.
    pub ipsend: [u8; 4],
    /// The zones with servers of their own, and the rule.
    pub zones: Zones,
    /// Who may ask.
    pub permit: Permit,
}

impl Config {
    /// The same configuration.
    pub fn copy(&self, alloc: Global) -> Result<Config, NoMemory>
        ensures { IfOk result (λ c. c ≡ self.now) }
    {
        Ok(Config {
            size: self.size,
            forward: self.forward,
            ip: self.ip,
            ipsend: self.ipsend,
            zones: self.zones.copy(alloc)?,
            permit: self.permit.copy(alloc)?,
        })
    }
}
