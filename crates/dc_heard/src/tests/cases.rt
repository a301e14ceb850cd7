//! Packets, the lines that they lead to, and what follows them.

use super::packets::{ALIAS, BESIDE, CIRCLE, FOREIGN, MISSING, NO_DATA, UPWARDS};
use dc_rules::Rule;

pub(super) const KIND_A: u16 = 1;

const KIND_ANY: u16 = 255;

/// A packet, as an answer to what is asked.
pub(super) struct Case {
    /// The name and the type that are asked for.
    pub(super) name: &'static [u8],
    pub(super) kind: u16,
    /// Whether the name is looked for above level 0.
    pub(super) above: bool,
    /// The zone whose server answers.
    pub(super) zone: &'static [u8],
    pub(super) rule: Rule,
    pub(super) packet: &'static [u8],
    /// The lines that are written.
    pub(super) lines: &'static [u8],
    /// What follows, in a word.
    pub(super) follows: &'static str,
}

const WEB: Case = Case {
    name: b"www.example.com",
    kind: KIND_A,
    above: false,
    zone: b"",
    rule: Rule::Two,
    packet: BESIDE,
    lines: b"",
    follows: "",
};

const NOTHING: Case = Case {
    name: b"nx.test",
    packet: MISSING,
    ..WEB
};

pub(super) const CASES: [Case; 11] = [
    Case {
        lines: b"nxdomain c6336401 3600 nx.test.\n",
        follows: "nxdomain",
        ..NOTHING
    },
    Case {
        above: true,
        lines: b"nxdomain c6336401 3600 nx.test.\n",
        follows: "nxdomain",
        ..NOTHING
    },
    Case {
        packet: NO_DATA,
        lines: b"nodata c6336401 900 1 nx.test.\nstats 0 31 0 0\n",
        follows: "replied",
        ..NOTHING
    },
    Case {
        packet: NO_DATA,
        rule: Rule::One,
        lines: b"nodata c6336401 3600 1 nx.test.\nstats 0 31 0 0\n",
        follows: "replied",
        ..NOTHING
    },
    Case {
        packet: NO_DATA,
        kind: KIND_ANY,
        lines: b"stats 0 0 0 0\n",
        follows: "replied",
        ..NOTHING
    },
    Case {
        zone: b"com",
        lines: b"rr c6336401 300 1 www.example.com. c0000201\nstats 0 43 0 0\n",
        follows: "replied",
        ..WEB
    },
    Case {
        above: true,
        zone: b"com",
        lines: b"rr c6336401 300 1 www.example.com. c0000201\nstats 0 43 0 0\n",
        follows: "down",
        ..WEB
    },
    Case {
        packet: ALIAS,
        lines: b"rr c6336401 604800 cname www.example.com. web.example.com.\n",
        follows: "alias for a week",
        ..WEB
    },
    Case {
        packet: CIRCLE,
        follows: "malformed",
        ..WEB
    },
    Case {
        packet: UPWARDS,
        lines: b"lame c6336401 . .\n",
        follows: "next",
        ..WEB
    },
    Case {
        packet: FOREIGN,
        lines: b"rr c6336401 172800 ns org. ns.org.\nstats 0 35 0 0\n",
        follows: "foreign",
        ..WEB
    },
];
