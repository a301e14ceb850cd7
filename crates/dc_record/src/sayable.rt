//! Whether a configuration has a head.
ghost use Rattle.std.specs.Prelude.{◌≡◌, ◌≤◌, length, take, drop};
ghost use Rattle.std.specs.List.{list_all, list_any};
ghost use Rattle.dc_model.specs.Places as model;
ghost use Rattle.dc_model.specs.Rules.{is_named};
ghost use Rattle.dc_rules.specs.Table.{zone_of, table_of};
ghost use Rattle.dc_record.specs.HeadOf as said;
ghost use Rattle.dc_record.specs.HeadOf.{is_said_byte, head_refusal};

use dc_name::Name;
use dc_rules::{Zone, Zones};

/// Why a configuration has no head.
#[derive(Clone, Copy, Debug, PartialEq, Eq)]
pub enum HeadError {
    /// The first zone isn't the root's, or has no server, or one that stands behind an empty place.
    Rootless,
    /// A zone behind it can't be said: a label of its name has a dot, a space or a line feed, since names in scripts have no escapes; or it is
    /// the root's, or has the name of a zone before it; or a server stands behind an empty place.
    Unsaid,
}

/// Whether no byte of a label is a dot, a space or a line feed.
fn is_said_label(label: &[u8]) -> bool
    ensures { result ≡ list_all is_said_byte label.now }
{
    for byte in label {
        if matches!(*byte, b'.' | b' ' | b'\n') {
            return false;
        }
    }
    true
}

/// The same of each label of a name.
fn is_said_name(name: &Name) -> bool
    ensures { result ≡ said.is_said_name name.now }
{
    let mut rest = name.suffix();
    while let Some(above) = rest.parent() {
        if !is_said_label(rest.label()) {
            return false;
        }
        rest = above;
    }
    true
}

/// Whether each place is empty.
fn all_empty(places: &[[u8; 4]]) -> bool
    ensures { result ≡ model.all_empty places.now }
{
    for place in places {
        if *place != [0; 4] {
            return false;
        }
    }
    true
}

/// Whether places are filled from the first on.
fn is_packed(places: &[[u8; 4]]) -> bool
    ensures { result ≡ said.is_packed places.now }
{
    for (at, place) in places.iter().enumerate() {
        if *place == [0; 4] {
            return all_empty(&places[at + 1..]);
        }
    }
    true
}

/// Whether a zone can be said as the root's.
fn is_said_root(zone: &Zone) -> bool
    ensures { result ≡ said.is_said_root (zone_of zone.now) }
{
    zone.name().suffix().is_root() && !all_empty(zone.servers()) && is_packed(zone.servers())
}

/// Whether it can be said as another.
fn is_said_zone(zone: &Zone) -> bool
    ensures { result ≡ said.is_said_zone (zone_of zone.now) }
{
    !zone.name().suffix().is_root()
        && is_said_name(&zone.name().lower())
        && is_packed(zone.servers())
}

/// Whether one of these zones has this one's name.
fn has_name(zones: &[Zone], zone: &Zone) -> bool
    ensures { result ≡ list_any (is_named (zone_of zone.now).name) (table_of zones.now) }
{
    for other in zones {
        if other.name().same(zone.name()) {
            return true;
        }
    }
    false
}

/// Whether all zones from this number on can be said.
fn are_said(zones: &[Zone], from: usize) -> bool
    requires { from ≤ length zones.now }
    ensures { result ≡ said.are_said (table_of (take from zones.now)) (table_of (drop from zones.now)) }
{
    for at in from..zones.len() {
        if !is_said_zone(&zones[at]) || has_name(&zones[..at], &zones[at]) {
            return false;
        }
    }
    true
}

/// Why these zones have no head. `None` comes exactly where they have one.
pub fn head_error(zones: &Zones) -> Option<HeadError>
    ensures { result ≡ head_refusal zones.now.configured }
{
    let zones = zones.as_slice();
    let [first, ..] = zones else {
        return Some(HeadError::Rootless);
    };
    if !is_said_root(first) {
        return Some(HeadError::Rootless);
    }
    if are_said(zones, 1) {
        None
    } else {
        Some(HeadError::Unsaid)
    }
}
