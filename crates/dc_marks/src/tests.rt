//! Marks and classes of messages from servers.

use crate::{Class, Found, classify, found};
use dc_name::Name;
use dc_packet::Table;
use std::alloc::{AllocError, Global};
use std::test::Fail;

/// Asked for the address of `www.example.com`, a server of the root refers to `com`, with the address of `ns.com`.
const REFERRAL: &[u8] =
    b"\x00\x00\x80\x00\x00\x01\x00\x00\x00\x01\x00\x01\x03www\x07example\x03com\x00\x00\x01\x00\x01\x03com\x00\x00\x02\x00\x01\x00\x02\xa3\x00\x00\x08\x02ns\x03com\x00\x02ns\x03com\x00\x00\x01\x00\x01\x00\x02\xa3\x00\x00\x04\xc6\x33\x64\x02";

/// The question for the address of `www.example.com`, whose names stand at places 12, 16 (`example.com`) and 24 (`com`).
const QUESTION: &[u8] = b"\x03www\x07example\x03com\x00\x00\x01\x00\x01";

/// Records.
#[derive(Clone, Copy)]
enum Rr {
    /// An address of `www.example.com`, and one of `example.com`.
    Www,
    Example,
    /// Aliases: of `www.example.com`, of `WWW.example.com`, of `example.com`, and in class CH of `www.example.com`.
    AliasWww,
    AliasCapitals,
    AliasExample,
    AliasChaos,
    /// The servers of `com`, of `example.com`, of `org`, and in class CH of `com`.
    NsCom,
    NsExample,
    NsOrg,
    NsChaos,
    /// The start of authority of `example.com`.
    Start,
}

impl Rr {
    fn bytes(self) -> &'static [u8] {
        match self {
            Rr::Www => b"\xc0\x0c\x00\x01\x00\x01\x00\x00\x01\x2c\x00\x04\xc0\x00\x02\x01",
            Rr::Example => b"\xc0\x10\x00\x01\x00\x01\x00\x00\x01\x2c\x00\x04\xc0\x00\x02\x01",
            Rr::AliasWww => b"\xc0\x0c\x00\x05\x00\x01\x00\x00\x01\x2c\x00\x02\xc0\x18",
            Rr::AliasCapitals => b"\x03WWW\xc0\x10\x00\x05\x00\x01\x00\x00\x01\x2c\x00\x02\xc0\x18",
            Rr::AliasExample => b"\xc0\x10\x00\x05\x00\x01\x00\x00\x01\x2c\x00\x02\xc0\x18",
            Rr::AliasChaos => b"\xc0\x0c\x00\x05\x00\x03\x00\x00\x01\x2c\x00\x02\xc0\x18",
            Rr::NsCom => b"\xc0\x18\x00\x02\x00\x01\x00\x02\xa3\x00\x00\x02\xc0\x18",
            Rr::NsExample => b"\xc0\x10\x00\x02\x00\x01\x00\x02\xa3\x00\x00\x02\xc0\x18",
            Rr::NsOrg => b"\x03org\x00\x00\x02\x00\x01\x00\x02\xa3\x00\x00\x02\xc0\x18",
            Rr::NsChaos => b"\xc0\x18\x00\x02\x00\x03\x00\x02\xa3\x00\x00\x02\xc0\x18",
            Rr::Start =>
                b"\xc0\x10\x00\x06\x00\x01\x00\x00\x1c\x20\x00\x18\xc0\x10\xc0\x10\x00\x00\x00\x01\x00\x00\x00\x02\x00\x00\x00\x03\x00\x00\x00\x04\x00\x00\x00\x05",
        }
    }
}

/// A message with this rcode, and with these records in the answer section, the authority section and the additional one.
fn packet(
    alloc: Global,
    rcode: u8,
    answers: &[Rr],
    authority: &[Rr],
    additional: &[Rr],
) -> Result<Vec<u8>, AllocError> {
    let mut packet = Vec::new(alloc);
    packet.extend_from_slice(&[0, 0, 0x80, rcode, 0, 1])?;
    for count in [answers.len(), authority.len(), additional.len()] {
        packet.extend_from_slice(&[0, (count % 256) as u8])?;
    }
    packet.extend_from_slice(QUESTION)?;
    for rr in answers.iter().chain(authority).chain(additional) {
        packet.extend_from_slice(rr.bytes())?;
    }
    Ok(packet)
}

#[test]
fn a_referral_and_an_answer(rt: HostRuntime) -> Result<(), Fail> {
    let www = Name::from_dotted(b"www.example.com")?;
    let mut table = Table::new(rt.alloc())?;
    assert!(rt; REFERRAL.len() <= 65535);
    table.read(REFERRAL)?;
    let want = Found {
        out: false,
        alias: None,
        soa: None,
        referral: Some(0),
    };
    assert_eq!(rt; found(&table, REFERRAL, &www, 1), want);
    let com = Name::from_dotted(b"com")?;
    assert_eq!(rt;
        classify(&table, REFERRAL, &www, 1, &Name::root()),
        Class::Referral
    );
    assert_eq!(rt; classify(&table, REFERRAL, &www, 1, &com), Class::Lame);
    // the address of `www.example.com`, from a server of `example.com`
    let packet = packet(rt.alloc(), 0, &[Rr::Www], &[], &[])?;
    assert!(rt; packet.len() <= 65535);
    table.read(&packet)?;
    let example = Name::from_dotted(b"example.com")?;
    assert_eq!(rt; classify(&table, &packet, &www, 1, &example), Class::Answer);
    Ok(())
}

#[test]
fn classes(rt: HostRuntime) -> Result<(), Fail> {
    use Class::{Alias, Answer, Lame, NxDomain, Referral};
    use Rr::{
        AliasCapitals, AliasChaos, AliasExample, AliasWww, Example, NsChaos, NsCom, NsExample,
        NsOrg, Start, Www,
    };
    // asked for a type, a server of `com` sends an rcode, answers, records of authority, and others
    let cases: [(u16, u8, &[Rr], &[Rr], &[Rr], Class); 22] = [
        // nothing at all; an answer; one for another name
        (1, 0, &[], &[], &[], Answer),
        (1, 0, &[Www], &[], &[], Answer),
        (1, 0, &[Example], &[NsCom], &[], Lame),
        (1, 0, &[], &[NsCom], &[Www], Lame),
        (1, 0, &[Www], &[NsCom], &[], Answer),
        (255, 0, &[Www], &[NsExample], &[], Answer),
        (16, 0, &[Www], &[NsExample], &[], Referral),
        // an alias, which counts before the rcode, and isn't one where it is wanted itself
        (1, 0, &[AliasWww], &[], &[], Alias),
        (1, 0, &[AliasCapitals], &[NsCom], &[], Alias),
        (1, 3, &[AliasWww], &[Start], &[], Alias),
        (5, 0, &[AliasWww], &[NsCom], &[], Answer),
        (255, 0, &[AliasWww], &[NsCom], &[], Answer),
        (1, 0, &[AliasExample], &[NsExample], &[], Referral),
        (1, 0, &[AliasChaos], &[NsExample], &[AliasWww], Referral),
        // no such name
        (1, 3, &[], &[Start], &[], NxDomain),
        (1, 3, &[], &[NsCom], &[], NxDomain),
        // no such type
        (1, 0, &[], &[Start, NsCom], &[], Answer),
        // referrals: to the zone itself, beside it, under it; the last one counts
        (1, 0, &[], &[NsExample, NsCom], &[], Lame),
        (1, 0, &[], &[NsExample, NsOrg], &[], Lame),
        (1, 0, &[], &[NsOrg, NsExample], &[], Referral),
        (1, 0, &[], &[NsExample, NsChaos], &[NsCom], Referral),
        (1, 0, &[], &[NsChaos], &[NsCom, Start], Answer),
    ];
    let www = Name::from_dotted(b"www.example.com")?;
    let com = Name::from_dotted(b"COM")?;
    let mut table = Table::new(rt.alloc())?;
    for (qtype, rcode, answers, authority, additional, class) in cases {
        let packet = packet(rt.alloc(), rcode, answers, authority, additional)?;
        assert!(rt; packet.len() <= 65535);
        table.read(&packet)?;
        assert_eq!(rt; classify(&table, &packet, &www, qtype, &com), class);
    }
    Ok(())
}

#[test]
fn marks(rt: HostRuntime) -> Result<(), Fail> {
    use Rr::{
        AliasCapitals, AliasChaos, AliasExample, AliasWww, NsChaos, NsCom, NsExample, Start, Www,
    };
    let packet = packet(
        rt.alloc(),
        0,
        &[Www, AliasExample, AliasWww, AliasCapitals, AliasChaos],
        &[NsCom, Start, Start, NsExample, NsChaos],
        &[AliasWww, Start, NsCom],
    )?;
    let mut table = Table::new(rt.alloc())?;
    assert!(rt; packet.len() <= 65535);
    table.read(&packet)?;
    // a name and a type, and whether there is an answer, and the number of the alias
    let cases: [(&[u8], u16, bool, Option<usize>); 7] = [
        (b"www.example.com", 1, true, Some(3)),
        (b"Www.Example.Com", 16, false, Some(3)),
        (b"www.example.com", 5, true, None),
        (b"www.example.com", 255, true, None),
        (b"example.com", 1, false, Some(1)),
        (b"com", 2, false, None),
        (b"", 255, false, None),
    ];
    for (text, qtype, out, alias) in cases {
        let name = Name::from_dotted(text)?;
        let want = Found {
            out,
            alias,
            soa: Some(7),
            referral: Some(8),
        };
        assert_eq!(rt; found(&table, &packet, &name, qtype), want);
    }
    Ok(())
}
