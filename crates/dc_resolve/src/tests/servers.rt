//! What servers send.

use super::packets::{A, CNAME, NS, Packet, Record};
use dc_packet::Section::{Additional, Answer, Authority};

/// A server says of `www.example.com` that it is an alias of what begins at the data itself.
pub(super) const CIRCLE: &[Packet] = &[Packet {
    name: b"\x03www\x07example\x03com\x00",
    rcode: 0,
    records: &[Record(Answer, b"\xc0\x0c", CNAME, 300, b"\xc0\x2d")],
}];

/// Each server's name leads to another one, without an address.
pub(super) const LEVELS: &[Packet] = &[
    Packet {
        name: b"\x03www\x01a\x00",
        rcode: 0,
        records: &[Record(Authority, b"\x01a\x00", NS, 100, b"\x01n\x01b\x00")],
    },
    Packet {
        name: b"\x01n\x01b\x00",
        rcode: 0,
        records: &[Record(Authority, b"\x01b\x00", NS, 100, b"\x01n\x01c\x00")],
    },
    Packet {
        name: b"\x01n\x01c\x00",
        rcode: 0,
        records: &[Record(Authority, b"\x01c\x00", NS, 100, b"\x01n\x01d\x00")],
    },
    Packet {
        name: b"\x01n\x01d\x00",
        rcode: 0,
        records: &[Record(Authority, b"\x01d\x00", NS, 100, b"\x01n\x01e\x00")],
    },
    Packet {
        name: b"\x01n\x01e\x00",
        rcode: 0,
        records: &[Record(Authority, b"\x01e\x00", NS, 100, b"\x01n\x01f\x00")],
    },
];

/// A server knows no better than the root.
pub(super) const UPWARDS: Packet = Packet {
    name: b"\x03www\x07example\x03com\x00",
    rcode: 0,
    records: &[Record(Authority, b"\x00", NS, 100, b"\x02ns\x03org\x00")],
};

/// A server refers to a zone that the name isn't under.
pub(super) const FOREIGN: &[Packet] = &[Packet {
    name: b"\x03www\x07example\x03com\x00",
    rcode: 0,
    records: &[Record(Authority, b"\x03org\x00", NS, 172_800, b"\x02ns\x03org\x00")],
}];

/// `www.a` is in a zone whose server is `n.b`.
pub(super) const REFERRAL: Packet = Packet {
    name: b"\x03www\x01a\x00",
    rcode: 0,
    records: &[Record(Authority, b"\x01a\x00", NS, 100, b"\x01n\x01b\x00")],
};

/// `n.b` doesn't exist.
pub(super) const NO_HOST: Packet = Packet {
    name: b"\x01n\x01b\x00",
    rcode: 3,
    records: &[],
};

/// An address of `n.b`, and one of `www.a`.
pub(super) const HOST: Packet = Packet {
    name: b"\x01n\x01b\x00",
    rcode: 0,
    records: &[Record(Answer, b"\x01n\x01b\x00", A, 60, &[192, 0, 2, 9])],
};

pub(super) const WEB: Packet = Packet {
    name: b"\x03www\x01a\x00",
    rcode: 0,
    records: &[Record(Answer, b"\x03www\x01a\x00", A, 60, &[192, 0, 2, 1])],
};

/// `www.a` is in a zone whose server is `n.b`, and that is an alias of itself.
pub(super) const ENDLESS_ALIAS: &[Packet] = &[Packet {
    name: b"\x03www\x01a\x00",
    rcode: 0,
    records: &[
        Record(Authority, b"\x01a\x00", NS, 100, b"\x01n\x01b\x00"),
        Record(Additional, b"\x01n\x01b\x00", CNAME, 100, b"\x01n\x01b\x00"),
    ],
}];

/// Aliases of each other.
pub(super) const EACH_OTHER: &[Packet] = &[Packet {
    name: b"\x01a\x00",
    rcode: 0,
    records: &[
        Record(Answer, b"\x01a\x00", CNAME, 60, b"\x01b\x00"),
        Record(Answer, b"\x01b\x00", CNAME, 60, b"\x01a\x00"),
    ],
}];
