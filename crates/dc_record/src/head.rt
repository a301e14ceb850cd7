//! The head of a configuration and a seed.
ghost use Rattle.std.specs.Prelude.{◌≡◌, ◌≤◌, ◌++◌, [], ◌∷◌, None, decimal, length, flat_map, IfOk, OnOk};
ghost use Rattle.dc_model.specs.Address.{address_text};
ghost use Rattle.dc_rules.specs.Refusals.{rule_of};
ghost use Rattle.dc_rules.specs.Table.{zone_of, table_of};
ghost use Rattle.dc_script.specs.HeadText.{IsTold, head_text, yes_text};
ghost use Rattle.dc_record.specs.HeadOf as said;
ghost use Rattle.dc_record.specs.HeadOf.{head_refusal, told_of, dotted_text};
ghost use Rattle.dc_record.specs.HeadLines.{line_text, front_text, allow_line, root_line, zone_line, zones_text, last_text, server_text, octet_text, label_text};

use crate::typed::{are_bytes, are_parts};
use dc_name::Name;
use dc_rules::{Config, NoMemory, Permit, Rule, Zone};
use itoa::Buffer as Digits;
use std::alloc::Global;

/// Adds a line of two words.
fn push_pair(text: &mut Vec<u8>, word: &[u8], value: &[u8]) -> Result<(), NoMemory>
    ensures { OnOk result (text.new.items ≡ text.old.items ++ line_text (word.now ∷ value.now ∷ [])) }
{
    text.extend_from_slice(word)?;
    text.extend_from_slice(b" ")?;
    text.extend_from_slice(value)?;
    text.extend_from_slice(b"\n")?;
    Ok(())
}

/// Adds a line of a word and a number in decimal.
fn push_count(text: &mut Vec<u8>, word: &[u8], number: u64) -> Result<(), NoMemory>
    ensures { OnOk result (text.new.items ≡ text.old.items ++ line_text (word.now ∷ decimal number ∷ [])) }
{
    let mut digits = Digits::new();
    push_pair(text, word, digits.format(number).as_bytes())
}

/// Adds a number in decimal.
fn push_number(text: &mut Vec<u8>, number: u64) -> Result<(), NoMemory>
    ensures { OnOk result (text.new.items ≡ text.old.items ++ decimal number) }
{
    let mut digits = Digits::new();
    text.extend_from_slice(digits.format(number).as_bytes())?;
    Ok(())
}

/// Adds an octet behind a dot.
fn push_octet(text: &mut Vec<u8>, octet: u8) -> Result<(), NoMemory>
    ensures { OnOk result (text.new.items ≡ text.old.items ++ octet_text octet) }
{
    text.extend_from_slice(b".")?;
    push_number(text, octet.into())
}

/// Adds octets, of which there is one at least, joined by dots.
fn push_octets(text: &mut Vec<u8>, octets: &[u8]) -> Result<(), NoMemory>
    requires { 1 ≤ length octets.now }
    ensures { OnOk result (text.new.items ≡ text.old.items ++ address_text octets.now) }
{
    push_number(text, octets[0].into())?;
    for octet in &octets[1..] {
        push_octet(text, *octet)?;
    }
    Ok(())
}

/// Adds the octets of a place behind a space, where it isn't empty.
fn push_server(text: &mut Vec<u8>, server: [u8; 4]) -> Result<(), NoMemory>
    ensures { OnOk result (text.new.items ≡ text.old.items ++ server_text server) }
{
    if server == [0; 4] {
        return Ok(());
    }
    text.extend_from_slice(b" ")?;
    push_octets(text, &server)
}

/// Adds the addresses in places, with a space before each.
fn push_servers(text: &mut Vec<u8>, servers: &[[u8; 4]; 16]) -> Result<(), NoMemory>
    ensures { OnOk result (text.new.items ≡ text.old.items ++ flat_map server_text servers.now) }
{
    for server in servers {
        push_server(text, *server)?;
    }
    Ok(())
}

/// Adds a label and a dot.
fn push_label(text: &mut Vec<u8>, label: &[u8]) -> Result<(), NoMemory>
    ensures { OnOk result (text.new.items ≡ text.old.items ++ label_text label.now) }
{
    text.extend_from_slice(label)?;
    text.extend_from_slice(b".")?;
    Ok(())
}

/// Adds a name in dotted text.
fn push_name(text: &mut Vec<u8>, name: &Name) -> Result<(), NoMemory>
    ensures { OnOk result (text.new.items ≡ text.old.items ++ dotted_text name.now) }
{
    let mut rest = name.suffix();
    while let Some(above) = rest.parent() {
        push_label(text, rest.label())?;
        rest = above;
    }
    Ok(())
}

/// Adds the line of the root's zone.
fn push_root(text: &mut Vec<u8>, zone: &Zone) -> Result<(), NoMemory>
    ensures { OnOk result (text.new.items ≡ text.old.items ++ root_line (zone_of zone.now)) }
{
    text.extend_from_slice(b"zone @")?;
    push_servers(text, zone.servers())?;
    text.extend_from_slice(b"\n")?;
    Ok(())
}

/// Adds the line of another zone.
fn push_zone(text: &mut Vec<u8>, zone: &Zone) -> Result<(), NoMemory>
    ensures { OnOk result (text.new.items ≡ text.old.items ++ zone_line (zone_of zone.now)) }
{
    text.extend_from_slice(b"zone ")?;
    push_name(text, &zone.name().lower())?;
    push_servers(text, zone.servers())?;
    text.extend_from_slice(b"\n")?;
    Ok(())
}

/// Adds the lines of zones that aren't the root's.
fn push_others(text: &mut Vec<u8>, zones: &[Zone]) -> Result<(), NoMemory>
    ensures { OnOk result (text.new.items ≡ text.old.items ++ flat_map zone_line (table_of zones.now)) }
{
    for zone in zones {
        push_zone(text, zone)?;
    }
    Ok(())
}

/// Adds the lines of zones, of which the first is the root's.
fn push_zones(text: &mut Vec<u8>, zones: &[Zone]) -> Result<(), NoMemory>
    ensures { OnOk result (text.new.items ≡ text.old.items ++ zones_text (table_of zones.now)) }
{
    let [first, others @ ..] = zones else {
        return Ok(());
    };
    push_root(text, first)?;
    push_others(text, others)
}

/// Adds the line of a permission.
fn push_allow(text: &mut Vec<u8>, octets: &[u8]) -> Result<(), NoMemory>
    requires { 1 ≤ length octets.now }
    ensures { OnOk result (text.new.items ≡ text.old.items ++ allow_line octets.now) }
{
    text.extend_from_slice(b"allow ")?;
    push_octets(text, octets)?;
    text.extend_from_slice(b"\n")?;
    Ok(())
}

/// Adds the lines of permissions.
fn push_allows(text: &mut Vec<u8>, permit: &Permit) -> Result<(), NoMemory>
    ensures { OnOk result (text.new.items ≡ text.old.items ++ flat_map allow_line permit.now) }
{
    for place in permit.as_slice() {
        push_allow(text, place.as_slice())?;
    }
    Ok(())
}

/// The version under which a rule is said.
fn version_of(rule: Rule) -> u64
    ensures { result ≡ said.version_of (rule_of rule) }
{
    match rule {
        Rule::One => 1,
        Rule::Two => 2,
    }
}

/// Whether questions are forwarded, as a word.
fn yes_of(forward: bool) -> &'static [u8]
    ensures { result.now ≡ yes_text forward }
{
    if forward { b"yes" } else { b"no" }
}

/// Adds the first three lines.
fn push_front(text: &mut Vec<u8>, config: &Config) -> Result<(), NoMemory>
    ensures { OnOk result (text.new.items ≡ text.old.items ++ front_text config.now) }
{
    push_count(text, b"dnscache-script", version_of(config.zones.rule()))?;
    push_count(text, b"cachesize", config.size.into())?;
    push_pair(text, b"forwardonly", yes_of(config.forward))
}

/// Adds the last two lines.
fn push_last(text: &mut Vec<u8>, seed: &[u8; 32]) -> Result<(), NoMemory>
    ensures { OnOk result (text.new.items ≡ text.old.items ++ last_text seed.now) }
{
    let mut digits = [0u8; 64];
    let Ok(()) = hex::encode_to_slice(seed, &mut digits) else {
        unreachable!();
    };
    push_pair(text, b"seed", &digits)?;
    text.extend_from_slice(b"begin\n")?;
    Ok(())
}

/// The lines of the head of a configuration and a seed: the permissions and the zones in the order in which they were added.
pub fn head_of(alloc: Global, config: &Config, seed: &[u8; 32]) -> Result<Vec<u8>, NoMemory>
    requires said { head_refusal config.now.zones.configured ≡ None }
    ensures lines { IfOk result (λ text. text.items ≡ head_text (told_of config.now seed.now) []) }
    ensures told { IfOk result (λ _. IsTold (told_of config.now seed.now) config.now.permit config.now.zones) }
{
    are_parts(config);
    are_bytes(seed);
    let mut text = Vec::new(alloc);
    push_front(&mut text, config)?;
    push_allows(&mut text, &config.permit)?;
    push_zones(&mut text, config.zones.as_slice())?;
    push_last(&mut text, seed)?;
    Ok(text)
}
