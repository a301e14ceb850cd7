//! What holds of a configuration by the types of its parts.
ghost use Rattle.std.specs.Prelude.{◌<◌};
ghost use Rattle.std.specs.List.{AllByRecursion};
ghost use Rattle.dc_rules.specs.Table.{zone_of, table_of};
ghost use Rattle.dc_script.specs.Text.{IsAddress};
ghost use Rattle.dc_record.specs.HeadOf.{IsZone, IsPermit, AreParts};

use dc_rules::{Config, Permit, Zone};

/// Bytes are below 256.
pub(crate) fn are_bytes(bytes: &[u8])
    ensures { AllByRecursion (λ b. b < 256) bytes.now }
{
    let _ = bytes;
}

/// An address has four octets.
fn is_address(addr: &[u8; 4])
    ensures { IsAddress addr.now }
{
    are_bytes(addr);
}

/// So each of these.
fn are_addresses(addrs: &[[u8; 4]])
    ensures { AllByRecursion IsAddress addrs.now }
{
    for addr in addrs {
        is_address(addr);
    }
}

/// A zone's name is one, and it has sixteen places.
fn is_zone(zone: &Zone)
    ensures { IsZone (zone_of zone.now) }
{
    let name = zone.name().lower();
    let _ = name.wire();
    are_addresses(zone.servers());
}

/// So each of these.
fn are_zones(zones: &[Zone])
    ensures { AllByRecursion IsZone (table_of zones.now) }
{
    for zone in zones {
        is_zone(zone);
    }
}

/// The octets of permissions are octets.
fn are_octets(permit: &Permit)
    ensures { AllByRecursion (AllByRecursion (λ b. b < 256)) permit.now }
{
    for place in permit.as_slice() {
        are_bytes(place.as_slice());
    }
}

/// What a head rests on.
pub(crate) fn are_parts(config: &Config)
    ensures { AreParts config.now }
{
    let _size = config.size;
    are_zones(config.zones.as_slice());
    are_octets(&config.permit);
    let _ = config.permit.as_slice();
}
