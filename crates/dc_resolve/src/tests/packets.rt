//! Packets of servers, by the format (RFC 1035, 4.1).

use dc_packet::Section;
use std::alloc::{AllocError, Global};

pub(super) const A: u16 = 1;

pub(super) const NS: u16 = 2;

pub(super) const CNAME: u16 = 5;

pub(super) const MX: u16 = 15;

pub(super) const TXT: u16 = 16;

pub(super) const AXFR: u16 = 252;

/// A record of class IN: its section, the owner in wire form, the type, the TTL, and the data.
#[derive(Clone, Copy)]
pub(super) struct Record<'a>(
    pub(super) Section,
    pub(super) &'a [u8],
    pub(super) u16,
    pub(super) u32,
    pub(super) &'a [u8],
);

/// An answer to a question for the address of a name, with its rcode. The records of a section stand together.
pub(super) struct Packet {
    /// The name, in wire form.
    pub(super) name: &'static [u8],
    pub(super) rcode: u8,
    pub(super) records: &'static [Record<'static>],
}

/// A header of id 0, with these flags and so many answers, records on servers and further ones; and the question.
pub(super) fn front(
    alloc: Global,
    flags: [u8; 2],
    counts: [u16; 3],
    name: &[u8],
    kind: u16,
) -> Result<Vec<u8>, AllocError> {
    let mut bytes = Vec::new(alloc);
    bytes.extend_from_slice(&[0, 0, flags[0], flags[1], 0, 1])?;
    for count in counts {
        bytes.extend_from_slice(&count.to_be_bytes())?;
    }
    bytes.extend_from_slice(name)?;
    bytes.extend_from_slice(&kind.to_be_bytes())?;
    bytes.extend_from_slice(&[0, 1])?;
    Ok(bytes)
}

/// Puts a record behind the bytes.
pub(super) fn put_record(bytes: &mut Vec<u8>, record: &Record<'_>) -> Result<(), AllocError> {
    let Record(_, owner, kind, ttl, data) = record;
    bytes.extend_from_slice(owner)?;
    bytes.extend_from_slice(&kind.to_be_bytes())?;
    bytes.extend_from_slice(&[0, 1])?;
    bytes.extend_from_slice(&ttl.to_be_bytes())?;
    let len = u16::try_from(data.len()).unwrap_or(0);
    bytes.extend_from_slice(&len.to_be_bytes())?;
    bytes.extend_from_slice(data)?;
    Ok(())
}

/// How many records of a section there are.
fn count_of(records: &[Record<'_>], section: Section) -> u16 {
    let mut count: u16 = 0;
    for record in records {
        if record.0 == section {
            count = count.saturating_add(1);
        }
    }
    count
}

/// The bytes of a packet.
pub(super) fn laid(alloc: Global, packet: &Packet) -> Result<Vec<u8>, AllocError> {
    let counts = [
        count_of(packet.records, Section::Answer),
        count_of(packet.records, Section::Authority),
        count_of(packet.records, Section::Additional),
    ];
    let mut bytes = front(alloc, [0x80, packet.rcode], counts, packet.name, A)?;
    for record in packet.records {
        put_record(&mut bytes, record)?;
    }
    Ok(bytes)
}
