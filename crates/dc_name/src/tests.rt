//! Names as the standard and the program's documents give them.

use crate::{Name, NameError, Suffix};
use std::test::Fail;

/// Takes what a core may hold, which may move to another thread.
fn moves<T: Send + Drop>(_value: T) {}

/// The name of 63, 63, 63 and 61 bytes, with dots between them.
fn longest() -> [u8; 253] {
    let mut text = [b'x'; 253];
    text[63] = b'.';
    text[127] = b'.';
    text[191] = b'.';
    text
}

#[test]
fn reads_dotted_texts(rt: HostRuntime) {
    let cases: [(&[u8], Result<&[u8], NameError>); 10] = [
        (b"", Ok(b"\0")),
        (b".", Ok(b"\0")),
        (b"com", Ok(b"\x03com\0")),
        (b"com.", Ok(b"\x03com\0")),
        (b"www.Example.com", Ok(b"\x03www\x07Example\x03com\0")),
        (b"a..b", Err(NameError::EmptyLabel)),
        (b"..", Err(NameError::EmptyLabel)),
        (b".a", Err(NameError::EmptyLabel)),
        (&[b'x'; 64], Err(NameError::LongLabel)),
        (&[b'.'; 300], Err(NameError::EmptyLabel)),
    ];
    for (text, want) in cases {
        match (Name::from_dotted(text), want) {
            (Ok(name), Ok(wire)) => assert_eq!(rt; name.wire(), wire),
            (Err(why), Err(wanted)) => assert_eq!(rt; why, wanted),
            _ => panic!(rt; "another outcome"),
        }
    }
}

#[test]
fn keeps_the_limits(rt: HostRuntime) -> Result<(), Fail> {
    let text = longest();
    let mut name = Name::from_dotted(&text)?;
    assert_eq!(rt; name.wire().len(), 255);
    assert!(rt; !name.push(b"y"));
    assert_eq!(rt; name.wire().len(), 255);
    assert!(rt; !name.push(b""));

    let mut longer = [b'x'; 254];
    longer[..253].copy_from_slice(&text);
    assert_eq!(rt; Name::from_dotted(&longer).err(), Some(NameError::LongName));

    let mut label = Name::root();
    assert!(rt; label.push(&[b'x'; 63]));
    assert!(rt; !label.push(&[b'x'; 64]));
    assert!(rt; label.push(b"com"));
    assert_eq!(rt; label.wire().len(), 69);
    Ok(())
}

#[test]
fn compares_without_case(rt: HostRuntime) -> Result<(), Fail> {
    let cases: [(&[u8], &[u8], bool, bool); 8] = [
        (b"", b"", true, true),
        (b"com", b"", false, true),
        (b"", b"com", false, false),
        (b"WWW.Example.com", b"www.eXample.COM", true, true),
        (b"www.example.com", b"Example.com", false, true),
        (b"example.com", b"www.example.com", false, false),
        (b"notexample.com", b"example.com", false, false),
        (b"a.com.example", b"com", false, false),
    ];
    for (text, other, same, under) in cases {
        let name = Name::from_dotted(text)?;
        let zone = Name::from_dotted(other)?;
        assert_eq!(rt; name.same(&zone), same);
        assert_eq!(rt; name.under(&zone), under);
        assert_eq!(rt; name.suffix().same(&zone.suffix()), same);
        assert_eq!(rt; name.suffix().under(&zone.suffix()), under);
    }
    Ok(())
}

#[test]
fn goes_up_to_the_root(rt: HostRuntime) -> Result<(), Fail> {
    let name = Name::from_dotted(b"Www.example.com")?.lower();
    let up = name.parent().ok_or("no parent")?;
    assert_eq!(rt; up.wire(), b"\x07example\x03com\0".as_slice());
    let top = name.suffix();
    assert_eq!(rt; top.label(), b"www".as_slice());
    let second = top.parent().ok_or("no parent")?;
    assert_eq!(rt; second.to_name().wire(), up.wire());
    let third = second.parent().ok_or("no parent")?;
    assert_eq!(rt; third.wire(), b"\x03com\0".as_slice());
    let root = third.parent().ok_or("no parent")?;
    assert!(rt; root.is_root());
    assert_eq!(rt; root.label(), b"".as_slice());
    assert!(rt; root.parent().is_none());
    assert!(rt; Name::default().parent().is_none());
    Ok(())
}

#[test]
fn spells_addresses(rt: HostRuntime) -> Result<(), Fail> {
    let cases: [(&[u8], Option<[u8; 4]>); 7] = [
        (b"192.0.2.1", Some([192, 0, 2, 1])),
        (b"0.0.0.255.", Some([0, 0, 0, 255])),
        (b"192.0.2", None),
        (b"192.0.2.1.5", None),
        (b"192.0.2.256", None),
        (b"192.0.02.1", None),
        (b"192.0.2.a", None),
    ];
    for (text, want) in cases {
        assert_eq!(rt; Name::from_dotted(text)?.is_address(), want);
    }
    let reverse = Name::from_dotted(b"1.20.0.127.in-addr.arpa")?;
    assert_eq!(rt; Name::reverse_of([127, 0, 20, 1]).wire(), reverse.wire());
    Ok(())
}

#[test]
fn names_may_move_to_a_thread() {
    let name = Name::root();
    let suffix: Suffix<'_> = name.suffix();
    moves(suffix);
    moves(name.copy());
    moves(NameError::LongName);
}
