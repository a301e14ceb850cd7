//! Records as they stand in a packet (RFC 1035, 4.1.3).
ghost use Rattle.std.specs.Prelude.{◌≡◌, ◌+◌, ◌≤◌, length, IfSome, option_map};
ghost use Rattle.dc_model.specs.Message as model;
ghost use Rattle.dc_packet.specs.Rows.{named_section, row_of};

use crate::data::{data_at, form_of};
use crate::name::read_name;
use crate::number::{u16_at, u32_at};

/// Where a record stands in a message.
#[derive(Clone, Copy, Debug, PartialEq, Eq)]
pub enum Section {
    /// Among the answers.
    Answer,
    /// Among the records on the servers of a zone.
    Authority,
    /// Among the further records.
    Additional,
}

/// A record, by the places of its parts.
#[derive(Clone, Copy, Debug)]
pub struct Rr {
    /// Where it stands in the message.
    pub section: Section,
    /// The place of the owner's name.
    pub owner: usize,
    /// The type.
    pub kind: u16,
    /// The class.
    pub class: u16,
    /// The TTL as it stands, in seconds.
    pub ttl: u32,
    /// The place of the data.
    pub at: usize,
    /// The number of bytes of the data.
    pub len: usize,
}

/// The number of bytes between a record's owner and its data.
const FIXED: usize = 10;

/// The record at a place. `None` where its owner or a name in its data can't be read, or it passes the packet's end.
#[tactic(auto, unfolding(dc_model::specs::Message::record_at))]
pub(crate) fn record_at(packet: &[u8], section: Section, at: usize) -> Option<Rr>
    requires { length packet.now ≤ 65535 }
    ensures record { result ≡ option_map row_of (model.record_at packet.now (named_section section) at) }
    ensures least { IfSome result (λ r. at + 11 ≤ r.at + r.len) }
    ensures within { IfSome result (λ r. r.at + r.len ≤ length packet.now) }
{
    let (_, behind) = read_name(packet, at).ok()?;
    let data = behind + FIXED;
    if data > packet.len() {
        return None;
    }
    let kind = u16_at(packet, behind);
    let class = u16_at(packet, behind + 2);
    let len = u16_at(packet, behind + 8) as usize;
    if data + len > packet.len() {
        return None;
    }
    data_at(packet, form_of(kind, class), data, len)?;
    Some(Rr {
        section,
        owner: at,
        kind,
        class,
        ttl: u32_at(packet, behind + 4),
        at: data,
        len,
    })
}
