//! Scripts of one query, and all that is written.

use super::aliases::{each_other, seventeen, sixteen};
use super::packets::{A, AXFR, Packet};
use super::servers::{
    CIRCLE, ENDLESS_ALIAS, FOREIGN, HOST, LEVELS, NO_HOST, REFERRAL, UPWARDS, WEB,
};

/// What servers do with a query that is still asking when all packets have come.
#[derive(Clone, Copy)]
pub(super) enum Rest {
    /// They are silent.
    Silent,
    /// No local port is to be had.
    Refused,
}

/// A query for a name and a type, of a resolver that knows so many servers of the root, 198.51.100.1 and those behind it. Each packet
/// comes from the server that was asked last.
#[derive(Clone, Copy)]
pub(super) struct Row {
    pub(super) name: &'static [u8],
    pub(super) kind: u16,
    pub(super) servers: u8,
    pub(super) packets: &'static [Packet],
    pub(super) rest: Rest,
    /// What is written.
    pub(super) text: &'static [u8],
    /// How many turns were counted.
    pub(super) turns: u32,
}

/// A query for the address of `www.example.com`, of which no server says anything.
pub(super) const PLAIN: Row = Row {
    name: b"www.example.com",
    kind: A,
    servers: 1,
    packets: &[],
    rest: Rest::Silent,
    text: b"",
    turns: 0,
};

/// The scripts.
pub(super) fn rows() -> [Row; 13] {
    [
        built_in(),
        whole_zone(),
        circle(),
        foreign(),
        five_levels(),
        lame(),
        above(),
        no_host(),
        silent(),
        refused(),
        sixteen(),
        seventeen(),
        each_other(),
    ]
}

/// A built-in address.
fn built_in() -> Row {
    Row {
        name: b"localhost",
        text: b"reply \x00\x07\x81\x80\x00\x01\x00\x01\x00\x00\x00\x00\n\
            sent 1 43\n",
        turns: 1,
        ..PLAIN
    }
}

/// A request for a whole zone.
fn whole_zone() -> Row {
    Row {
        kind: AXFR,
        text: b"drop 1 axfr\n",
        turns: 0,
        ..PLAIN
    }
}

/// Data that is a pointer to itself.
fn circle() -> Row {
    Row {
        packets: CIRCLE,
        text: b"tx 0 1 www.example.com. . c6336401\n\
            udp 1\n\
            close 1\n\
            drop 1 malformed\n",
        turns: 2,
        ..PLAIN
    }
}

/// A referral to a zone that the name isn't under.
fn foreign() -> Row {
    Row {
        packets: FOREIGN,
        text: b"tx 0 1 www.example.com. . c6336401\n\
            udp 1\n\
            close 1\n\
            rr c6336401 172800 ns org. ns.org.\n\
            stats 0 35 0 0\n\
            drop 1 foreign\n",
        turns: 2,
        ..PLAIN
    }
}

/// Each server's name leads to another one. At level 4 it is left out.
fn five_levels() -> Row {
    Row {
        name: b"www.a",
        packets: LEVELS,
        text: b"tx 0 1 www.a. . c6336401\n\
            udp 1\n\
            close 1\n\
            rr c6336401 100 ns a. n.b.\n\
            stats 0 30 0 0\n\
            tx 1 1 n.b. . c6336401\n\
            udp 2\n\
            close 2\n\
            rr c6336401 100 ns b. n.c.\n\
            stats 0 60 0 0\n\
            tx 2 1 n.c. . c6336401\n\
            udp 3\n\
            close 3\n\
            rr c6336401 100 ns c. n.d.\n\
            stats 0 90 0 0\n\
            tx 3 1 n.d. . c6336401\n\
            udp 4\n\
            close 4\n\
            rr c6336401 100 ns d. n.e.\n\
            stats 0 120 0 0\n\
            tx 4 1 n.e. . c6336401\n\
            udp 5\n\
            close 5\n\
            rr c6336401 100 ns e. n.f.\n\
            stats 0 150 0 0\n\
            reply \x00\x07\x81\x82\x00\x01\x00\x00\x00\x00\x00\x00\n\
            sent 1 23\n",
        turns: 10,
        ..PLAIN
    }
}

/// Two servers that know no better than the root.
fn lame() -> Row {
    Row {
        servers: 2,
        packets: &[UPWARDS, UPWARDS],
        text: b"tx 0 1 www.example.com. . c6336402 c6336401\n\
            udp 1\n\
            close 1\n\
            lame c6336402 . .\n\
            tx 0 1 www.example.com. . c6336401\n\
            udp 2\n\
            close 2\n\
            lame c6336401 . .\n\
            reply \x00\x07\x81\x82\x00\x01\x00\x00\x00\x00\x00\x00\n\
            sent 1 33\n",
        turns: 3,
        ..PLAIN
    }
}

/// The address of a server is looked for at level 1, and is asked at level 0.
fn above() -> Row {
    Row {
        name: b"www.a",
        packets: &[REFERRAL, HOST, WEB],
        text: b"tx 0 1 www.a. . c6336401\n\
            udp 1\n\
            close 1\n\
            rr c6336401 100 ns a. n.b.\n\
            stats 0 30 0 0\n\
            tx 1 1 n.b. . c6336401\n\
            udp 2\n\
            close 2\n\
            rr c6336401 60 1 n.b. c0000209\n\
            stats 0 61 0 0\n\
            tx 0 1 www.a. a. c0000209\n\
            udp 3\n\
            close 3\n\
            rr c0000209 60 1 www.a. c0000201\n\
            stats 0 94 0 0\n\
            reply \x00\x07\x81\x80\x00\x01\x00\x01\x00\x00\x00\x00\n\
            sent 1 39\n",
        turns: 5,
        ..PLAIN
    }
}

/// A server whose name doesn't exist.
fn no_host() -> Row {
    Row {
        name: b"www.a",
        packets: &[REFERRAL, NO_HOST],
        text: b"tx 0 1 www.a. . c6336401\n\
            udp 1\n\
            close 1\n\
            rr c6336401 100 ns a. n.b.\n\
            stats 0 30 0 0\n\
            tx 1 1 n.b. . c6336401\n\
            udp 2\n\
            close 2\n\
            nxdomain c6336401 0 n.b.\n\
            reply \x00\x07\x81\x82\x00\x01\x00\x00\x00\x00\x00\x00\n\
            sent 1 23\n",
        turns: 4,
        ..PLAIN
    }
}

/// A server that is silent in all four rounds.
fn silent() -> Row {
    Row {
        text: b"tx 0 1 www.example.com. . c6336401\n\
            udp 1\n\
            close 1\n\
            udp 2\n\
            close 2\n\
            udp 3\n\
            close 3\n\
            udp 4\n\
            close 4\n\
            servfail www.example.com.\n\
            reply \x00\x07\x81\x82\x00\x01\x00\x00\x00\x00\x00\x00\n\
            sent 1 33\n",
        turns: 1,
        ..PLAIN
    }
}

/// Ten local ports in a row that are refused.
fn refused() -> Row {
    Row {
        rest: Rest::Refused,
        text: b"tx 0 1 www.example.com. . c6336401\n\
            udp 1\n\
            udp 2\n\
            udp 3\n\
            udp 4\n\
            udp 5\n\
            udp 6\n\
            udp 7\n\
            udp 8\n\
            udp 9\n\
            udp 10\n\
            close 10\n\
            drop 1 noport\n",
        turns: 1,
        ..PLAIN
    }
}

/// A server's name is an alias of itself. What the looks at it write comes behind this text.
pub(super) fn endless() -> Row {
    Row {
        name: b"www.a",
        packets: ENDLESS_ALIAS,
        text: b"tx 0 1 www.a. . c6336401\n\
            udp 1\n\
            close 1\n\
            rr c6336401 100 ns a. n.b.\n\
            rr c6336401 100 cname n.b. n.b.\n\
            stats 0 62 0 0\n",
        turns: 100,
        ..PLAIN
    }
}
