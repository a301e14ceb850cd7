//! One item of a cached body.
ghost use Rattle.std.specs.Prelude.{◌≡◌, ◌≤◌, ◌+◌, length, option_map, option_and_then, None, if◌then◌else◌};
ghost use Rattle.dc_model.specs.Message.{has_bytes, u16_at};
ghost use Rattle.dc_model.specs.Bodies as model;
ghost use Rattle.dc_items.specs.Read.{item_read};
ghost use Rattle.dc_rules.specs.Refusals.{rule_of};

use crate::plain::plain_name;
use dc_packet::{Data, u16_at};
use dc_rules::Rule;
use dc_types::rtype;

/// An item, and the place behind it.
#[derive(Drop)]
pub(crate) struct Item<'a> {
    pub(crate) data: Data<'a>,
    pub(crate) after: usize,
}

/// The number of bytes that an address takes.
const ADDRESS: usize = 4;

/// The number of bytes that the five numbers of an SOA take.
const SOA_NUMBERS: usize = 20;

/// The item of a type at a place. `None` where no whole item stands there.
#[tactic(auto, unfolding(dc_model::specs::Bodies::item_at))]
pub(crate) fn item_at<'a>(rule: Rule, kind: u16, body: &'a [u8], at: usize) -> Option<Item<'a>>
    requires { at ≤ length body.now }
    ensures { option_map item_read result ≡ model.item_at (rule_of rule) kind body.now at }
{
    if kind == rtype::NS || kind == rtype::PTR {
        host_at(body, at)
    } else if kind == rtype::MX {
        mx_at(body, at)
    } else if kind == rtype::A {
        bytes_at(body, at, ADDRESS)
    } else if kind == rtype::SOA && rule == Rule::Two {
        soa_at(body, at)
    } else {
        framed_at(body, at)
    }
}

/// So many bytes.
fn bytes_at(body: &[u8], at: usize, len: usize) -> Option<Item<'_>>
    requires { at ≤ length body.now }
    ensures { option_map item_read result ≡ model.bytes_item body.now at len }
{
    if len > body.len() - at {
        return None;
    }
    Some(Item {
        data: Data::Bytes(&body[at..at + len]),
        after: at + len,
    })
}

/// A name.
fn host_at(body: &[u8], at: usize) -> Option<Item<'_>>
    ensures { option_map item_read result ≡ option_map model.host_item (model.plain_name_at body.now at) }
{
    let read = plain_name(body, at)?;
    Some(Item {
        data: Data::Host(read.name),
        after: read.after,
    })
}

/// A preference and a name.
fn mx_at(body: &[u8], at: usize) -> Option<Item<'_>>
    requires { at ≤ length body.now }
    ensures { option_map item_read result ≡ (if has_bytes body.now at 2 then option_map (model.mx_item (u16_at body.now at)) (model.plain_name_at body.now (at + 2)) else None) }
{
    if body.len() - at < 2 {
        return None;
    }
    let read = plain_name(body, at + 2)?;
    Some(Item {
        data: Data::Mx(u16_at(body, at), read.name),
        after: read.after,
    })
}

/// Two names and five numbers.
fn soa_at(body: &[u8], at: usize) -> Option<Item<'_>>
    ensures { option_map item_read result ≡ option_and_then (λ r. option_and_then (model.soa_item body.now r.name) (model.plain_name_at body.now r.after)) (model.plain_name_at body.now at) }
{
    let primary = plain_name(body, at)?;
    let mailbox = plain_name(body, primary.after)?;
    let numbers = mailbox.after;
    if SOA_NUMBERS > body.len() - numbers {
        return None;
    }
    Some(Item {
        data: Data::Soa(
            primary.name,
            mailbox.name,
            &body[numbers..numbers + SOA_NUMBERS],
        ),
        after: numbers + SOA_NUMBERS,
    })
}

/// Bytes behind their length.
fn framed_at(body: &[u8], at: usize) -> Option<Item<'_>>
    requires { at ≤ length body.now }
    ensures { option_map item_read result ≡ (if has_bytes body.now at 2 then model.bytes_item body.now (at + 2) (u16_at body.now at) else None) }
{
    if body.len() - at < 2 {
        return None;
    }
    bytes_at(body, at + 2, u16_at(body, at) as usize)
}
