//! Queries, method by method.

use crate::{Class, Found, Frame, Query, Renamed};
use dc_name::Name;
use dc_packet::Request;
use std::process::Abort;
use std::test::Fail;

/// Takes what a core may hold, which may move to another thread.
fn moves<T: Send + Drop>(_value: T) {}

fn name_of(rt: &impl Abort, text: &[u8]) -> Name {
    match Name::from_dotted(text) {
        Ok(name) => name,
        Err(_) => panic!(rt; "no name"),
    }
}

/// What is seen of a query: its levels, turns and aliases, the type that is wanted, and of the frame on top the name, the control
/// zone, and how many places hold an address.
type Seen<'a> = (usize, u32, usize, u16, &'a [u8], &'a [u8], usize);

fn check(rt: &impl Abort, query: &Query, seen: Seen<'_>) {
    let (levels, turns, aliases, wanted, name, control, placed) = seen;
    assert_eq!(rt; query.levels(), levels);
    assert!(rt; query.levels() > 0);
    assert_eq!(rt; query.is_lowest(), levels == 1);
    assert_eq!(rt; query.turns(), turns);
    assert_eq!(rt; query.aliases(), aliases);
    assert_eq!(rt; query.wanted(), wanted);
    assert!(rt; query.name().wire() == name);
    assert!(rt; query.control().wire() == control);
    let count = query
        .places()
        .iter()
        .filter(|place| **place != [0; 4])
        .count();
    assert_eq!(rt; count, placed);
    assert_eq!(rt; query.none_placed(), placed == 0);
}

/// One address in the last place, and none in the others.
fn last_placed() -> [[u8; 4]; 16] {
    let mut places = [[0; 4]; 16];
    places[15] = [10, 0, 0, 16];
    places
}

#[test]
#[tactic(auto, unfolding(dc_machine::specs::Query::top))]
fn frames_of_a_query(rt: HostRuntime) -> Result<(), Fail> {
    let mut query = Query::new(rt.alloc())?;
    assert_eq!(rt; (query.levels(), query.aliases(), query.turns()), (0, 0, 0));
    query.take(&Request {
        id: 7,
        name: name_of(&rt, b"www.a"),
        qtype: 15,
        qclass: 255,
    });
    assert_eq!(rt; query.levels(), 0);
    query.begin();
    check(&rt, &query, (1, 0, 0, 15, b"\x03www\x01a\x00", b"\x00", 0));
    query.count();
    query.push_alias(300);
    query.rename(name_of(&rt, b"b"));
    check(&rt, &query, (1, 1, 1, 15, b"\x01b\x00", b"\x00", 0));
    query.ask_zone(name_of(&rt, b"a"), &[[0; 4]; 16]);
    query.push_host(name_of(&rt, b"n"));
    query.push_host(name_of(&rt, b"m"));
    let host = query.take_host().ok_or("no host")?;
    assert!(rt; host.same(&name_of(&rt, b"n")));
    assert!(rt; query.levels() < 5);
    query.raise(host);
    check(&rt, &query, (2, 1, 1, 1, b"\x01n\x00", b"\x00", 0));
    assert!(rt; query.take_host().is_none());
    // addresses go into the frame below, and 0.0.0.0 fills no place
    query.add_address([10, 0, 0, 1]);
    query.add_address([0, 0, 0, 0]);
    query.add_address([10, 0, 0, 2]);
    query.set_places(&last_placed());
    check(&rt, &query, (2, 1, 1, 1, b"\x01n\x00", b"\x00", 1));
    query.lower();
    check(&rt, &query, (1, 1, 1, 15, b"\x01b\x00", b"\x01a\x00", 2));
    assert!(rt; query.levels() > 0);
    assert_eq!(rt; query.places()[1], [10, 0, 0, 2]);
    let host = query.take_host().ok_or("no host")?;
    assert!(rt; host.same(&name_of(&rt, b"m")));
    assert!(rt; query.take_host().is_none());
    assert_eq!(rt; (query.request().id, query.request().qclass), (7, 255));
    // begun again: the aliases and turns stay
    query.begin();
    check(&rt, &query, (1, 1, 1, 15, b"\x03www\x01a\x00", b"\x00", 0));
    Ok(())
}

#[test]
fn full_queries(rt: HostRuntime) -> Result<(), Fail> {
    let mut query = Query::new(rt.alloc())?;
    query.take(&Request {
        id: 0,
        name: Name::root(),
        qtype: 1,
        qclass: 1,
    });
    query.begin();
    for i in 0..16u32 {
        assert!(rt; query.levels() > 0 && query.aliases() < 16);
        query.push_alias(i);
    }
    assert_eq!(rt; query.aliases(), 16);
    assert_eq!(rt; query.alias(15).ttl, 15);
    assert!(rt; query.alias(0).name.same(&Name::root()));
    for _ in 1..5 {
        assert!(rt; query.levels() < 5);
        query.raise(Name::root());
    }
    assert_eq!(rt; query.levels(), 5);
    // seventeen addresses for the frame below, of which the last has no place
    for i in 1..18u8 {
        assert!(rt; query.levels() > 1);
        query.add_address([10, 0, 0, i]);
    }
    assert!(rt; query.levels() > 0);
    query.lower();
    assert!(rt; query.levels() > 0);
    assert_eq!(rt; query.places()[0], [10, 0, 0, 1]);
    assert_eq!(rt; query.places()[15], [10, 0, 0, 16]);
    Ok(())
}

#[test]
fn what_a_core_holds_may_move_to_a_thread(rt: HostRuntime) -> Result<(), Fail> {
    moves(Query::new(rt.alloc())?);
    moves(Frame::default());
    moves(Renamed::default());
    moves(Class::Lame);
    moves(Found {
        out: false,
        alias: None,
        soa: None,
        referral: None,
    });
    Ok(())
}
