//! Worked texts.
use crate::{Parts, address, number, octets};

#[test]
fn numbers_in_text(rt: HostRuntime) {
    let rows: [(&[u8], Option<u64>); 9] = [
        (b"0", Some(0)),
        (b"9", Some(9)),
        (b"18446744073709551615", Some(u64::MAX)),
        (b"18446744073709551616", None),
        (b"00", None),
        (b"01", None),
        (b"", None),
        (b"+1", None),
        (b"1 ", None),
    ];
    for (text, wanted) in rows {
        assert!(rt; number(text) == wanted);
    }
}

#[test]
fn addresses_in_text(rt: HostRuntime) {
    assert!(rt; address(b"198.51.100.1") == Some([198, 51, 100, 1]));
    let refused: [&[u8]; 6] = [
        b"1.2.3",
        b"1.2.3.4.5",
        b"1.2.3.256",
        b"1.2.3.04",
        b"1..2.3",
        b"",
    ];
    for text in refused {
        assert!(rt; address(text).is_none());
    }
    assert!(rt; octets(b"127").is_some());
    assert!(rt; octets(b"1.2.").is_none());
    assert!(rt; octets(b"256").is_none());
}

#[test]
fn parts_of_a_text(rt: HostRuntime) {
    let mut parts = Parts::new(b"a  b", b' ');
    let wanted: [&[u8]; 3] = [b"a", b"", b"b"];
    for part in wanted {
        assert!(rt; parts.next_part() == Some(part));
    }
    assert!(rt; parts.next_part().is_none());
}
