//! Who may ask.
ghost use Rattle.std.specs.List.{AllByRecursion};
ghost use Rattle.std.specs.Prelude.{◌≡◌, ◌≤◌, [], length, map, IfOk, OnErr, MatchResult};
ghost use Rattle.dc_model.specs.Limits.{most_permissions};
ghost use Rattle.dc_model.specs.Rules.{add_permit, permitted};
ghost use Rattle.dc_rules.specs.Refusals.{permit_refusal};

use crate::{NoMemory, PermitError};
use arrayvec::ArrayVec;
use dc_limits::MOST_PERMISSIONS;
use dc_text::octets;
use std::alloc::Global;
use std::marker::Model;

/// Up to 4096 addresses and beginnings of addresses that may ask (after djbdns' okclient.c). It takes its memory in
/// `new`.
///
/// Contracts see their octets in the order in which they were added.
#[derive(Drop)]
pub struct Permit {
    places: Vec<ArrayVec<u8, 4>>,
}

impl Model for Permit {
    ghost use Rattle.dc_model.specs.Rules.{Permits};

    ghost Value = { Permits };

    ghost use Rattle.dc_rules.specs.Allowed.{permits_of, HasPlaces};

    ghost view = { permits_of };

    ghost invariant = { HasPlaces };
}

impl Permit {
    /// Nobody.
    pub fn new(alloc: Global) -> Result<Permit, NoMemory>
        ensures { IfOk result (λ p. p ≡ []) }
    {
        Ok(Permit {
            places: Vec::with_capacity(alloc, MOST_PERMISSIONS)?,
        })
    }

    /// Permits the addresses that begin with the one to four octets of the text, as `192.0.2`. Each takes a place, also
    /// one that was added before. `BadName` comes exactly where the text isn't such octets joined by dots, then `Full`
    /// exactly where all 4096 places are taken.
    pub fn add(&mut self, text: &[u8]) -> Result<(), PermitError>
        ensures added { MatchResult result (λ _. add_permit text.now self.old ≡ Ok self.new) (λ why. add_permit text.now self.old ≡ Err (permit_refusal why)) }
        ensures refused { OnErr result (self.new ≡ self.old) }
    {
        let Some(found) = octets(text) else {
            return Err(PermitError::BadName);
        };
        if self.places.len() >= MOST_PERMISSIONS {
            return Err(PermitError::Full);
        }
        self.places.push(found).unwrap();
        Ok(())
    }

    /// The octets of each permission, one to four, in the order in which they were added.
    pub fn as_slice(&self) -> &[ArrayVec<u8, 4>]
        ensures octets { map (λ p. p.items) result.now ≡ self.now }
        ensures each { AllByRecursion (λ o. (1 ≤ length o) × (length o ≤ 4)) self.now }
        ensures most { length result.now ≤ most_permissions }
    {
        &self.places
    }

    /// Whether the address or its first three, two or one octets were added.
    pub fn allows(&self, addr: [u8; 4]) -> bool
        ensures { result ≡ permitted self.now addr }
    {
        for octets in &self.places {
            if addr.starts_with(octets.as_slice()) {
                return true;
            }
        }
        false
    }

    /// The same permissions, with as many places taken.
    pub fn copy(&self, alloc: Global) -> Result<Permit, NoMemory>
        ensures { IfOk result (λ p. p ≡ self.now) }
    {
        let mut places = Vec::with_capacity(alloc, MOST_PERMISSIONS)?;
        for octets in &self.places {
            let mut copied = ArrayVec::new();
            let _ = copied.try_extend_from_slice(octets.as_slice());
            places.push(copied).unwrap();
        }
        Ok(Permit { places })
    }
}
