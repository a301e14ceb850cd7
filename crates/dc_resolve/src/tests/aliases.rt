//! Many aliases, and all that is written of them.

use super::packets::{A, CNAME, Packet, Record};
use super::rows::{PLAIN, Row};
use super::servers::EACH_OTHER;
use dc_packet::Section::Answer;

/// Sixteen aliases, from `a` to `q`.
const CHAIN: Packet = Packet {
    name: b"\x01a\x00",
    rcode: 0,
    records: &[
        Record(Answer, b"\x01a\x00", CNAME, 60, b"\x01b\x00"),
        Record(Answer, b"\x01b\x00", CNAME, 60, b"\x01c\x00"),
        Record(Answer, b"\x01c\x00", CNAME, 60, b"\x01d\x00"),
        Record(Answer, b"\x01d\x00", CNAME, 60, b"\x01e\x00"),
        Record(Answer, b"\x01e\x00", CNAME, 60, b"\x01f\x00"),
        Record(Answer, b"\x01f\x00", CNAME, 60, b"\x01g\x00"),
        Record(Answer, b"\x01g\x00", CNAME, 60, b"\x01h\x00"),
        Record(Answer, b"\x01h\x00", CNAME, 60, b"\x01i\x00"),
        Record(Answer, b"\x01i\x00", CNAME, 60, b"\x01j\x00"),
        Record(Answer, b"\x01j\x00", CNAME, 60, b"\x01k\x00"),
        Record(Answer, b"\x01k\x00", CNAME, 60, b"\x01l\x00"),
        Record(Answer, b"\x01l\x00", CNAME, 60, b"\x01m\x00"),
        Record(Answer, b"\x01m\x00", CNAME, 60, b"\x01n\x00"),
        Record(Answer, b"\x01n\x00", CNAME, 60, b"\x01o\x00"),
        Record(Answer, b"\x01o\x00", CNAME, 60, b"\x01p\x00"),
        Record(Answer, b"\x01p\x00", CNAME, 60, b"\x01q\x00"),
    ],
};

/// And then an address.
const SIXTEEN: &[Packet] = &[
    CHAIN,
    Packet {
        name: b"\x01q\x00",
        rcode: 0,
        records: &[Record(Answer, b"\x01q\x00", A, 60, &[192, 0, 2, 1])],
    },
];

/// Or one more.
const SEVENTEEN: &[Packet] = &[
    CHAIN,
    Packet {
        name: b"\x01q\x00",
        rcode: 0,
        records: &[Record(Answer, b"\x01q\x00", CNAME, 60, b"\x01r\x00")],
    },
];

/// Sixteen aliases, and then an address.
pub(super) fn sixteen() -> Row {
    Row {
        name: b"a",
        packets: SIXTEEN,
        text: b"tx 0 1 a. . c6336401\n\
            udp 1\n\
            close 1\n\
            rr c6336401 60 cname a. b.\n\
            rr c6336401 60 cname b. c.\n\
            rr c6336401 60 cname c. d.\n\
            rr c6336401 60 cname d. e.\n\
            rr c6336401 60 cname e. f.\n\
            rr c6336401 60 cname f. g.\n\
            rr c6336401 60 cname g. h.\n\
            rr c6336401 60 cname h. i.\n\
            rr c6336401 60 cname i. j.\n\
            rr c6336401 60 cname j. k.\n\
            rr c6336401 60 cname k. l.\n\
            rr c6336401 60 cname l. m.\n\
            rr c6336401 60 cname m. n.\n\
            rr c6336401 60 cname n. o.\n\
            rr c6336401 60 cname o. p.\n\
            rr c6336401 60 cname p. q.\n\
            cached cname b. c.\n\
            cached cname c. d.\n\
            cached cname d. e.\n\
            cached cname e. f.\n\
            cached cname f. g.\n\
            cached cname g. h.\n\
            cached cname h. i.\n\
            cached cname i. j.\n\
            cached cname j. k.\n\
            cached cname k. l.\n\
            cached cname l. m.\n\
            cached cname m. n.\n\
            cached cname n. o.\n\
            cached cname o. p.\n\
            cached cname p. q.\n\
            tx 0 1 q. . c6336401\n\
            udp 2\n\
            close 2\n\
            rr c6336401 60 1 q. c0000201\n\
            stats 0 477 0 0\n\
            reply \x00\x07\x81\x80\x00\x01\x00\x11\x00\x00\x00\x00\n\
            sent 1 275\n",
        turns: 19,
        ..PLAIN
    }
}

/// Sixteen aliases and one more.
pub(super) fn seventeen() -> Row {
    Row {
        name: b"a",
        packets: SEVENTEEN,
        text: b"tx 0 1 a. . c6336401\n\
            udp 1\n\
            close 1\n\
            rr c6336401 60 cname a. b.\n\
            rr c6336401 60 cname b. c.\n\
            rr c6336401 60 cname c. d.\n\
            rr c6336401 60 cname d. e.\n\
            rr c6336401 60 cname e. f.\n\
            rr c6336401 60 cname f. g.\n\
            rr c6336401 60 cname g. h.\n\
            rr c6336401 60 cname h. i.\n\
            rr c6336401 60 cname i. j.\n\
            rr c6336401 60 cname j. k.\n\
            rr c6336401 60 cname k. l.\n\
            rr c6336401 60 cname l. m.\n\
            rr c6336401 60 cname m. n.\n\
            rr c6336401 60 cname n. o.\n\
            rr c6336401 60 cname o. p.\n\
            rr c6336401 60 cname p. q.\n\
            cached cname b. c.\n\
            cached cname c. d.\n\
            cached cname d. e.\n\
            cached cname e. f.\n\
            cached cname f. g.\n\
            cached cname g. h.\n\
            cached cname h. i.\n\
            cached cname i. j.\n\
            cached cname j. k.\n\
            cached cname k. l.\n\
            cached cname l. m.\n\
            cached cname m. n.\n\
            cached cname n. o.\n\
            cached cname o. p.\n\
            cached cname p. q.\n\
            tx 0 1 q. . c6336401\n\
            udp 2\n\
            close 2\n\
            rr c6336401 60 cname q. r.\n\
            drop 1 aliases\n",
        turns: 19,
        ..PLAIN
    }
}

/// Aliases of each other.
pub(super) fn each_other() -> Row {
    Row {
        name: b"a",
        packets: EACH_OTHER,
        text: b"tx 0 1 a. . c6336401\n\
            udp 1\n\
            close 1\n\
            rr c6336401 60 cname a. b.\n\
            rr c6336401 60 cname b. a.\n\
            cached cname b. a.\n\
            cached cname a. b.\n\
            cached cname b. a.\n\
            cached cname a. b.\n\
            cached cname b. a.\n\
            cached cname a. b.\n\
            cached cname b. a.\n\
            cached cname a. b.\n\
            cached cname b. a.\n\
            cached cname a. b.\n\
            cached cname b. a.\n\
            cached cname a. b.\n\
            cached cname b. a.\n\
            cached cname a. b.\n\
            cached cname b. a.\n\
            cached cname a. b.\n\
            drop 1 aliases\n",
        turns: 18,
        ..PLAIN
    }
}
