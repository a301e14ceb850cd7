//! What a server answers.
ghost use Rattle.std.specs.Prelude.{◌≡◌, ◌≤◌, ◌+◌, ◌++◌, length};
ghost use Rattle.arrayvec.specs.ArrayVec.{array_vec_len};
ghost use Rattle.dc_simulation.specs.Tree as tree;
ghost use Rattle.dc_sim.specs.Replies.{content_by, flags_by, records_of};

use crate::bytes::{Bytes, put, put_front, put_record};
use dc_name::Name;

/// The types of the records.
const KIND_A: u16 = 1;

const KIND_NS: u16 = 2;

const KIND_CNAME: u16 = 5;

const KIND_SOA: u16 = 6;

/// The second byte pair of a header: of a response, of one with authority, and of one that was cut short; and what a missing name adds.
const RESPONSE: u16 = 0x8000;

const AUTHORITY: u16 = 0x8400;

const CUT: u16 = 0x8600;

const NO_NAME: u16 = 3;

/// How long records are kept, in seconds.
const SERVER_TTL: u32 = 3600;

const HOST_TTL: u32 = 300;

const MISSING_TTL: u32 = 60;

/// The root's byte, and the five numbers behind the names of an SOA record.
const NUMBERS: [u8; 21] = [
    0, 0, 0, 0, 1, 0, 0, 0, 2, 0, 0, 0, 3, 0, 0, 0, 4, 0, 0, 0, 5,
];

/// What a server answers.
#[derive(Drop)]
pub(crate) enum Reply {
    /// Nothing, as a message that was cut short.
    Cut,
    /// A zone has this server at this address.
    Referral {
        zone: Name,
        server: Name,
        addr: [u8; 4],
    },
    /// The address of a server.
    Server {
        authority: bool,
        name: Name,
        addr: [u8; 4],
    },
    /// The address of a host.
    Host {
        name: Name,
        addr: [u8; 4],
    },
    /// The host is another one.
    Alias {
        name: Name,
        target: Name,
    },
    /// No such name, says this server of the zone.
    Missing {
        authority: bool,
        zone: Name,
        server: Name,
    },
}

/// How many records each section has, and the second byte pair of the header.
#[derive(Clone, Copy, Debug)]
pub(crate) struct Shape {
    pub(crate) flags: u16,
    pub(crate) answer: u16,
    pub(crate) authority: u16,
    pub(crate) additional: u16,
}

impl Shape {
    fn of(flags: u16, answer: u16, authority: u16, additional: u16) -> Shape
        ensures { result ≡ record { flags = flags; answer = answer; authority = authority; additional = additional } }
    {
        Shape {
            flags,
            answer,
            authority,
            additional,
        }
    }
}

/// The second byte pair of a server's responses.
fn flags(authority: bool) -> u16
    ensures value { result ≡ flags_by authority }
    ensures most { result ≤ 33792 }
{
    if authority { AUTHORITY } else { RESPONSE }
}

impl Reply {
    /// Its flags and counts.
    pub(crate) fn shape(&self) -> Shape
        ensures flags { result.flags ≡ (content_by self.now).flags }
        ensures answer { result.answer ≡ length (content_by self.now).answer }
        ensures authority { result.authority ≡ length (content_by self.now).authority }
        ensures additional { result.additional ≡ length (content_by self.now).additional }
    {
        match self {
            Reply::Cut => Shape::of(CUT, 0, 0, 0),
            Reply::Referral { .. } => Shape::of(RESPONSE, 0, 1, 1),
            Reply::Server { authority, .. } => Shape::of(flags(*authority), 1, 0, 0),
            Reply::Host { .. } | Reply::Alias { .. } => Shape::of(AUTHORITY, 1, 0, 0),
            Reply::Missing { authority, .. } => Shape::of(flags(*authority) + NO_NAME, 0, 1, 0),
        }
    }

    /// Adds its records.
    pub(crate) fn put_records(&self, out: &mut Bytes)
        requires { array_vec_len out.old ≤ 500 }
        ensures items { out.new.items ≡ out.old.items ++ records_of (content_by self.now) }
        ensures len { array_vec_len out.new ≤ array_vec_len out.old + 1200 }
    {
        match self {
            Reply::Cut => {}
            Reply::Referral { zone, server, addr } => {
                put_record(out, zone, KIND_NS, SERVER_TTL, server.wire());
                put_record(out, server, KIND_A, SERVER_TTL, addr);
            }
            Reply::Server { name, addr, .. } => put_record(out, name, KIND_A, SERVER_TTL, addr),
            Reply::Host { name, addr } => put_record(out, name, KIND_A, HOST_TTL, addr),
            Reply::Alias { name, target } => put_record(
                out,
                name,
                KIND_CNAME,
                HOST_TTL,
                target.wire(),
            ),
            Reply::Missing { zone, server, .. } => put_soa(out, zone, server),
        }
    }
}

/// Adds the record of a zone that says that a name is missing.
fn put_soa(out: &mut Bytes, zone: &Name, server: &Name)
    requires { array_vec_len out.old ≤ 1000 }
    ensures items { out.new.items ≡ out.old.items ++ tree.soa_bytes zone.now server.now }
    ensures len { array_vec_len out.new ≤ array_vec_len out.old + 541 }
{
    let wire = server.wire();
    put_front(out, zone, KIND_SOA, MISSING_TTL, wire.len() as u16 + 21);
    put(out, wire);
    put(out, &NUMBERS);
}
