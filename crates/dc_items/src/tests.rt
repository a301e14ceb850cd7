//! Worked bodies.
use crate::{Addresses, Items, target};
use dc_packet::Data;
use dc_rules::Rule;

/// Types of records (RFC 1035, 3.2.2; RFC 3596, 2.1).
const A: u16 = 1;

const NS: u16 = 2;

const SOA: u16 = 6;

const PTR: u16 = 12;

const MX: u16 = 15;

const TXT: u16 = 16;

const AAAA: u16 = 28;

#[test]
fn items_end_where_none_is_whole(rt: HostRuntime) {
    let rows: [(Rule, u16, &[u8], usize); 16] = [
        (Rule::Two, NS, b"", 0),
        (Rule::Two, NS, b"\x01a\x00\x02bc\x01a\x00\x00", 3),
        (Rule::Two, PTR, b"\x01a\x00\x02b", 1),
        (Rule::Two, NS, b"\x01a\x00\x01b\xc0\x00\x01c\x00", 1),
        (Rule::Two, NS, b"\x01a\x00\x40\x00", 1),
        (Rule::Two, MX, b"\x00\x0a\x01m\x00\x00\x14\x00", 2),
        (Rule::Two, MX, b"\x00\x0a\x01m\x00\x00", 1),
        (Rule::Two, A, b"\x01\x02\x03\x04\x05\x06\x07", 1),
        (Rule::Two, A, b"\x01\x02\x03\x04\x05\x06\x07\x08", 2),
        (Rule::Two, SOA, b"\x01a\x00\x00ABCDEFGHIJKLMNOPQRST", 1),
        (Rule::Two, SOA, b"\x01a\x00\x00ABCDEFGHIJKLMNOPQRS", 0),
        (Rule::One, SOA, b"\x00\x02hi\x00\x00\x00", 2),
        (Rule::One, SOA, b"\x01a\x00\x00ABCDEFGHIJKLMNOPQRST", 0),
        (Rule::Two, TXT, b"\x00\x03\x02hi\x00\x00\x00\x09hi", 2),
        (Rule::One, AAAA, b"\x00\x010", 1),
        (Rule::One, AAAA, b"\x00", 0),
    ];
    for (rule, kind, body, wanted) in rows {
        let mut items = Items::new(rule, kind, body);
        for i in 0..8 {
            assert_eq!(rt; items.next_item().is_some(), i < wanted, "type {kind}");
        }
    }
}

#[test]
fn items_hold_what_was_cached(rt: HostRuntime) {
    let mut hosts = Items::new(Rule::Two, NS, b"\x01a\x00\x02bc\x01D\x00");
    let mut exchanges = Items::new(Rule::Two, MX, b"\x01\x0a\x01m\x00");
    let mut zones = Items::new(Rule::Two, SOA, b"\x01a\x00\x01b\x00ABCDEFGHIJKLMNOPQRST");
    let mut texts = Items::new(Rule::Two, TXT, b"\x00\x03\x02hi");
    let _ = hosts.next_item();
    match (
        hosts.next_item(),
        exchanges.next_item(),
        zones.next_item(),
        texts.next_item(),
    ) {
        (
            Some(Data::Host(host)),
            Some(Data::Mx(preference, exchange)),
            Some(Data::Soa(primary, mailbox, numbers)),
            Some(Data::Bytes(text)),
        ) => {
            assert_eq!(rt; host.wire(), b"\x02bc\x01D\x00".as_slice());
            assert_eq!(rt; preference, 266);
            assert_eq!(rt; exchange.wire(), b"\x01m\x00".as_slice());
            assert_eq!(rt; primary.wire(), b"\x01a\x00".as_slice());
            assert_eq!(rt; mailbox.wire(), b"\x01b\x00".as_slice());
            assert_eq!(rt; numbers, b"ABCDEFGHIJKLMNOPQRST".as_slice());
            assert_eq!(rt; text, b"\x02hi".as_slice());
        }
        _ => panic!(rt; "other data"),
    }
}

#[test]
fn addresses_of_a_body(rt: HostRuntime) {
    let mut addresses = Addresses::new(b"\xc0\x00\x02\x01\xc0\x00\x02\x02\xc0\x00\x02");
    assert!(rt; addresses.next_address() == Some([192, 0, 2, 1]));
    assert!(rt; addresses.next_address() == Some([192, 0, 2, 2]));
    assert!(rt; addresses.next_address().is_none());
    assert!(rt; addresses.next_address().is_none());
}

/// How many bytes the target has that is three labels of 63 bytes and a last one of this length.
fn long_target(last: u8) -> Option<usize> {
    let mut body = [b'a'; 257];
    body[0] = 63;
    body[64] = 63;
    body[128] = 63;
    body[192] = last;
    body[193 + usize::from(last.min(63))] = 0;
    let name = target(&body)?;
    Some(name.wire().len())
}

#[test]
fn targets(rt: HostRuntime) {
    assert!(rt; target(b"").is_none());
    assert!(rt; target(b"\x01a\xc0\x00").is_none());
    assert!(rt; target(b"\x00rest").is_some());
    assert!(rt; long_target(61) == Some(255));
    assert!(rt; long_target(62).is_none());
}
