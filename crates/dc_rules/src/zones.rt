//! Zones with servers of their own.
ghost use Rattle.std.specs.List.{AllByRecursion};
ghost use Rattle.std.specs.Prelude.{length};
ghost use Rattle.dc_model.specs.Rules.{Zone as ZoneModel};
ghost use Rattle.std.specs.Prelude.{◌≡◌, ◌++◌, ◌≤◌, [], option_map, IfOk, OnErr, MatchResult, MatchOption};
ghost use Rattle.std.specs.Option.{option_copied};
ghost use Rattle.std.specs.List.{find};
ghost use Rattle.dc_model.specs.Name as model;
ghost use Rattle.dc_model.specs.Rules.{no_zones, add_zone, is_named, is_zone, servers, nearest, same_zone, in_zone};
ghost use Rattle.dc_rules.specs.Leading.{led, root_first, LedBy};
ghost use Rattle.dc_rules.specs.Refusals.{zone_refusal, rule_of};
ghost use Rattle.dc_rules.specs.Table.{zone_at, table_of, IsEnd};

use crate::{NoMemory, ZoneError};
use dc_limits::MOST_ZONES;
use dc_name::{Name, Suffix};
use std::alloc::Global;
use std::marker::Model;

/// How negative answers live, and whether SOA records are kept.
#[derive(Clone, Copy, Debug, PartialEq, Eq)]
pub enum Rule {
    /// SOA records aren't kept, and their MINIMUM doesn't count.
    One,
    /// SOA records are kept, and their MINIMUM counts for how long a negative answer is kept (RFC 2308, 4).
    Two,
}

/// A zone and the addresses of its servers.
#[derive(Drop)]
pub struct Zone {
    name: Name,
    servers: [[u8; 4]; 16],
}

impl Zone {
    /// Its name, as it was added.
    pub fn name(&self) -> &Name
        ensures name { result.now ≡ self.now.name }
    {
        &self.name
    }

    /// The places of its servers, where 0.0.0.0 stands in an empty one.
    pub fn servers(&self) -> &[[u8; 4]; 16]
        ensures servers { result.now ≡ self.now.servers }
    {
        &self.servers
    }
}

/// Up to 256 zones that have servers of their own, and the rule (after djbdns' roots.c). It takes its memory in `new`.
///
/// Contracts see the zones in the order in which they were added, their names in lower case.
#[derive(Drop)]
pub struct Zones {
    zones: Vec<Zone>,
    rule: Rule,
}

impl Model for Zones {
    ghost use Rattle.dc_model.specs.Rules.{Zones as Configured};

    ghost Value = { Configured };

    ghost use Rattle.dc_rules.specs.Held.{zones_of, HasRoom};

    ghost view = { zones_of };

    ghost invariant = { HasRoom };
}

/// The first zone of this name, case aside.
fn find_zone<'a>(zones: &'a [Zone], name: &Suffix<'_>) -> Option<&'a Zone>
    ensures { option_map zone_at result ≡ find (is_named name.now) (table_of zones.now) }
{
    for zone in zones {
        if zone.name.suffix().same(name) {
            return Some(zone);
        }
    }
    None
}

/// The number of the first zone that is the root, counted from 0. `None` comes exactly where no zone is.
fn root_at(zones: &[Zone]) -> Option<usize>
    ensures { MatchOption result (led [] (table_of zones.now) ≡ table_of zones.now) (λ at. LedBy at (table_of zones.now)) }
{
    for (at, zone) in zones.iter().enumerate() {
        if zone.name.suffix().is_root() {
            return Some(at);
        }
    }
    None
}

impl Zones {
    /// No zones, under rule Two.
    pub fn new(alloc: Global) -> Result<Zones, NoMemory>
        ensures { IfOk result (λ zs. zs ≡ no_zones) }
    {
        Ok(Zones {
            zones: Vec::with_capacity(alloc, MOST_ZONES)?,
            rule: Rule::Two,
        })
    }

    /// Adds a zone with the addresses of its servers, where 0.0.0.0 is an empty place. `Duplicate` comes exactly where a
    /// zone of the same name is there, then `Full` exactly where there are 256.
    pub fn add(&mut self, name: &Name, servers: &[[u8; 4]; 16]) -> Result<(), ZoneError>
        ensures added { MatchResult result (λ _. add_zone name.now servers.now self.old ≡ Ok self.new) (λ why. add_zone name.now servers.now self.old ≡ Err (zone_refusal why)) }
        ensures refused { OnErr result (self.new ≡ self.old) }
    {
        if self.is_zone(&name.suffix()) {
            return Err(ZoneError::Duplicate);
        }
        if self.zones.len() >= MOST_ZONES {
            return Err(ZoneError::Full);
        }
        let zone = Zone {
            name: name.copy(),
            servers: *servers,
        };
        self.zones.push(zone).unwrap();
        Ok(())
    }

    /// Each zone has sixteen places of four octets.
    pub fn have_places(&self)
        ensures { AllByRecursion (λ (z : ZoneModel). length z.places ≡ 16) self.now.configured }
    {
        let _ = &self.zones;
    }

    /// Whether a zone is configured.
    pub fn is_zone(&self, name: &Suffix<'_>) -> bool
        ensures { result ≡ is_zone self.now name.now }
    {
        find_zone(&self.zones, name).is_some()
    }

    /// The servers of a configured zone. `None` comes exactly where the zone isn't configured.
    pub fn servers(&self, name: &Name) -> Option<[[u8; 4]; 16]>
        ensures { result ≡ servers self.now name.now }
    {
        self.servers_at(&name.suffix()).copied()
    }

    /// The servers of a configured zone, lent. `None` comes exactly where the zone isn't configured.
    pub fn servers_at(&self, name: &Suffix<'_>) -> Option<&[[u8; 4]; 16]>
        ensures { option_copied result ≡ servers self.now name.now }
    {
        let zone = find_zone(&self.zones, name)?;
        Some(&zone.servers)
    }

    /// The longest configured zone that the name is under, in lower case, or the root.
    pub fn nearest(&self, name: &Name) -> Name
        ensures { result ≡ nearest self.now name.now }
    {
        self.nearest_in(name.suffix()).to_name().lower()
    }

    /// The end of the name that is the longest configured zone it is under, or the root. No byte is copied.
    pub fn nearest_in<'a>(&self, name: Suffix<'a>) -> Suffix<'a>
        ensures zone { model.lower result ≡ nearest self.now name.entry }
        ensures end { IsEnd name.entry result }
    {
        let mut end = name;
        loop {
            if self.is_zone(&end) {
                return end;
            }
            match end.parent() {
                Some(above) => end = above,
                None => return end,
            }
        }
    }

    /// Whether two names have the same nearest zone.
    pub fn same_zone(&self, a: &Name, b: &Name) -> bool
        ensures { result ≡ same_zone self.now a.now b.now }
    {
        self.nearest_in(a.suffix())
            .same(&self.nearest_in(b.suffix()))
    }

    /// Whether the name is under the zone, with no configured zone between the two.
    pub fn in_zone(&self, zone: &Name, name: &Name) -> bool
        ensures { result ≡ in_zone self.now zone.now name.now }
    {
        name.under(zone) && self.same_zone(name, zone)
    }

    /// The zones, in the order in which they were added.
    pub fn as_slice(&self) -> &[Zone]
        ensures zones { table_of result.now ≡ self.now.configured }
        ensures most { length result.now ≤ 256 }
    {
        &self.zones
    }

    /// Puts the first zone that is the root before all others, which keep their order. Each name has the servers that it had.
    pub fn put_root_first(&mut self)
        ensures first { self.new ≡ root_first self.old }
        ensures servers { (n : model.Name) → servers self.new n ≡ servers self.old n }
    {
        if let Some(at) = root_at(&self.zones) {
            let zone = self.zones.remove(at);
            self.zones.insert(0, zone).unwrap();
        }
    }

    /// Sets the rule. The zones stay.
    pub fn set_rule(&mut self, rule: Rule)
        ensures { self.new ≡ record self.old { rule = rule_of rule } }
    {
        self.rule = rule;
    }

    /// The rule.
    pub fn rule(&self) -> Rule
        ensures { rule_of result ≡ self.now.rule }
    {
        self.rule
    }

    /// The same zones under the same rule.
    pub fn copy(&self, alloc: Global) -> Result<Zones, NoMemory>
        ensures { IfOk result (λ zs. zs ≡ self.now) }
    {
        let mut zones = Vec::with_capacity(alloc, MOST_ZONES)?;
        for zone in &self.zones {
            zones
                .push(Zone {
                    name: zone.name.copy(),
                    servers: zone.servers,
                })
                .unwrap();
        }
        Ok(Zones {
            zones,
            rule: self.rule,
        })
    }
}
