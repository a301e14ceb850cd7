//! Messages as the standard and the program's documents give them.

ghost use Rattle.std.specs.Prelude.{◌≤◌};

use crate::{
    Data, Malformed, Message, Rr, Section, Table, kept_ttl, read_name, read_request, write_query,
};
use dc_name::Name;
use std::test::Fail;

/// Takes what a core may hold, which may move to another thread.
fn moves<T: Send + Drop>(_value: T) {}

/// A query for `localhost` of type A and class IN, with recursion wanted, and an OPT record behind it.
const REQUEST: [u8; 38] =
    *b"\x04\xd2\x01\x20\x00\x01\x00\x00\x00\x00\x00\x01\x09localhost\x00\x00\x01\x00\x01\x00\x00\x29\x10\x00\x00\x00\x00\x00\x00\x00";

/// A message on `a`: an alias of it, an address, a mail exchange, and a record whose class is 3.
const ANSWER: [u8; 79] =
    *b"\x12\x34\x81\x83\x00\x01\x00\x02\x00\x01\x00\x01\x01a\x00\x00\x01\x00\x01\xc0\x0c\x00\x05\x00\x01\x00\x00\x0e\x10\x00\x04\x01b\xc0\x0c\xc0\x1f\x00\x01\x00\x01\x00\x00\x00\x3c\x00\x04\xc0\x00\x02\x01\x00\x00\x0f\x00\x01\x00\x00\x00\x00\x00\x04\x00\x0a\xc0\x0c\xc0\x0c\x00\x02\x00\x03\x00\x00\x00\x00\x00\x01\x40";

#[test]
fn reads_names(rt: HostRuntime) -> Result<(), Fail> {
    // at place 12: the bytes from there on, and the name's text and the place behind it, where it reads
    let cases: [(&[u8], Option<(&[u8], usize)>); 9] = [
        (b"\x00", Some((b"", 13))),
        (b"\x01a\x00", Some((b"a", 15))),
        (b"\xc0\x0e\x01a\x00", Some((b"a", 14))),
        (b"\x01b\xc0\x10\x01a\x00", Some((b"b.a", 16))),
        (b"\xc0\x0c", None),
        (b"\x40", None),
        (b"\xbf", None),
        (b"\x01a", None),
        (b"\xc0", None),
    ];
    for (bytes, want) in cases {
        let mut packet = [0; 32];
        assert!(rt; bytes.len() <= 20);
        let end = 12 + bytes.len();
        packet[12..end].copy_from_slice(bytes);
        match (read_name(&packet[..end], 12), want) {
            (Ok((name, after)), Some((text, place))) => {
                assert!(rt; name.same(&Name::from_dotted(text)?));
                assert_eq!(rt; after, place);
            }
            (Err(Malformed), None) => {}
            _ => panic!(rt; "another outcome"),
        }
    }
    Ok(())
}

/// A packet of pointers, each to the next one, with the root behind the last.
fn chain(pointers: usize) -> [u8; 2001]
    requires { pointers ≤ 1000 }
{
    let mut packet = [0; 2001];
    for i in 0..pointers {
        let target = 2 * i + 2;
        packet[2 * i] = 192 + (target / 256) as u8;
        packet[2 * i + 1] = (target % 256) as u8;
    }
    packet
}

#[test]
fn follows_998_pointers_to_the_root(rt: HostRuntime) {
    assert!(rt; read_name(&chain(998), 0).is_ok());
    assert!(rt; read_name(&chain(999), 0).is_err());
    assert!(rt; read_name(&chain(999), 2).is_ok());
}

#[test]
fn reads_requests(rt: HostRuntime) -> Result<(), Fail> {
    // a byte of the request changed, and whether it is still one
    let cases = [
        (3, 0x00, true),
        (2, 0x05, true),
        (2, 0x81, false),
        (2, 0x09, false),
        (2, 0x03, false),
        (2, 0x00, false),
        (5, 0, false),
        (5, 2, false),
        (26, 255, true),
        (26, 3, false),
        (12, 0x40, false),
        (37, 0xff, true),
    ];
    for (at, byte, want) in cases {
        let mut packet = REQUEST;
        assert!(rt; at < 38);
        packet[at] = byte;
        assert_eq!(rt; read_request(&packet).is_some(), want);
    }
    assert!(rt; read_request(&REQUEST[..26]).is_none());
    assert!(rt; read_request(&REQUEST[..11]).is_none());
    let request = read_request(&REQUEST[..27]).ok_or("no request")?;
    assert_eq!(rt; (request.id, request.qtype, request.qclass), (1234, 1, 1));
    assert!(rt; request.name.same(&Name::from_dotted(b"localhost")?));
    // the name is a pointer to itself
    let mut packet = REQUEST;
    packet[12] = 0xc0;
    packet[13] = 12;
    assert!(rt; read_request(&packet).is_none());
    Ok(())
}

#[test]
fn writes_queries(rt: HostRuntime) -> Result<(), Fail> {
    let mut out = [0xff; 273];
    let name = Name::from_dotted(b"www.example.com")?;
    assert_eq!(rt; write_query(&name, 1, 0, false, &mut out), 33);
    assert_eq!(rt;
        &out[..35],
        b"\x00\x21\x00\x00\x00\x00\x00\x01\x00\x00\x00\x00\x00\x00\x03www\x07example\x03com\x00\x00\x01\x00\x01".as_slice()
    );
    assert_eq!(rt;
        write_query(&Name::root(), 0x0102, 0x0304, true, &mut out),
        17
    );
    assert_eq!(rt;
        &out[..19],
        b"\x00\x11\x03\x04\x01\x00\x00\x01\x00\x00\x00\x00\x00\x00\x00\x01\x02\x00\x01".as_slice()
    );
    Ok(())
}

#[test]
fn keeps_lifetimes(rt: HostRuntime) {
    for (ttl, want) in [
        (0, 0),
        (300, 300),
        (604_800, 604_800),
        (604_801, 604_800),
        (1_000_000_000, 604_800),
        (1_000_000_001, 0),
        (u32::MAX, 0),
    ] {
        assert_eq!(rt; kept_ttl(ttl), want);
    }
}

#[test]
fn holds_5956_records(rt: HostRuntime) -> Result<(), Fail> {
    let mut table = Table::new(rt.alloc())?;
    assert_eq!(rt; (table.count(), table.rcode()), (0, 0));
    // a question on the root, and records of the root, of type TXT, without data
    let mut packet = [0; 65533];
    packet[5] = 1;
    packet[6] = 0x17;
    packet[7] = 0x44;
    for i in 0..5956 {
        packet[17 + 11 * i + 2] = 16;
        packet[17 + 11 * i + 4] = 1;
    }
    assert!(rt; table.read(&packet).is_ok());
    assert_eq!(rt; table.count(), 5956);
    packet[7] = 0x45;
    assert!(rt; table.read(&packet).is_err());
    assert_eq!(rt; table.count(), 0);
    Ok(())
}

#[test]
fn reads_messages(rt: HostRuntime) -> Result<(), Fail> {
    let mut table = Table::new(rt.alloc())?;
    assert!(rt; table.read(&ANSWER).is_ok());
    assert_eq!(rt; (table.count(), table.rcode()), (4, 3));
    let Rr {
        section,
        owner,
        kind,
        class,
        ttl,
        at,
        len,
    } = table.rr(0);
    assert_eq!(rt; (section, owner, kind), (Section::Answer, 19, 5));
    assert_eq!(rt; (class, ttl, at, len), (1, 3600, 31, 4));
    assert_eq!(rt; table.rr(2).section, Section::Authority);
    assert_eq!(rt; table.rr(3).section, Section::Additional);
    let message = Message::new(&ANSWER, &table);
    let count = message.count();
    assert_eq!(rt; count, 4);
    assert!(rt; message.owner(1).same(&Name::from_dotted(b"b.a")?));
    let a = Name::from_dotted(b"a")?;
    match (
        message.data(0),
        message.data(1),
        message.data(2),
        message.data(3),
    ) {
        (
            Data::Host(alias),
            Data::Bytes(address),
            Data::Mx(preference, exchange),
            Data::Bytes(rest),
        ) => {
            assert!(rt; alias.under(&a));
            assert_eq!(rt; address, [192, 0, 2, 1].as_slice());
            assert_eq!(rt; preference, 10);
            assert!(rt; exchange.same(&a));
            assert_eq!(rt; rest, [0x40].as_slice());
        }
        _ => panic!(rt; "other data"),
    }
    // malformed: two questions, an alias that points to itself, an NS record of class IN whose data is no name, a cut
    for (at, byte) in [(5, 2), (31, 0xc0), (71, 1)] {
        let mut packet = ANSWER;
        assert!(rt; at < 79);
        packet[at] = byte;
        packet[32] = if at == 31 { 31 } else { packet[32] };
        assert!(rt; table.read(&packet).is_err());
        assert_eq!(rt; (table.count(), table.rcode()), (0, 0));
    }
    assert!(rt; table.read(&ANSWER[..78]).is_err());
    Ok(())
}

#[test]
fn names_in_data_may_pass_its_length(rt: HostRuntime) -> Result<(), Fail> {
    // a question on the root, and an NS record of the root with one byte of data, which begins a name of three bytes
    let packet =
        *b"\x00\x01\x80\x00\x00\x01\x00\x01\x00\x00\x00\x00\x00\x00\x02\x00\x01\x00\x00\x02\x00\x01\x00\x00\x00\x00\x00\x01\x01a\x00";
    let mut table = Table::new(rt.alloc())?;
    assert!(rt; table.read(&packet).is_ok());
    assert_eq!(rt; table.count(), 1);
    assert!(rt; table.read(&packet[..30]).is_err());
    Ok(())
}

#[test]
fn what_a_core_holds_may_move_to_a_thread(rt: HostRuntime) -> Result<(), Fail> {
    moves(Table::new(rt.alloc())?);
    moves(read_request(&REQUEST));
    moves(Section::Answer);
    moves(Malformed);
    Ok(())
}
