//! Queries that are put in, found, and taken out again.
ghost use Rattle.std.specs.Prelude.{◌<◌, ◌^◌, IsNone};
ghost use Rattle.dc_active.specs.View.{IsWaiting};

use crate::{Actives, Client, Taken, Work};
use dc_engine::Effects;
use dc_name::Name;
use dc_packet::Request;
use std::process::Abort;
use std::test::Fail;

/// Effects that do nothing.
#[derive(Drop)]
struct Silence;

impl Effects for Silence {
    ghost acted = { λ a xs b. Unit {0} };

    fn reply(&mut self, _addr: [u8; 4], _port: u16, _bytes: &[u8]) {}

    fn conn_reply(&mut self, _conn: u64, _bytes: &[u8]) {}

    fn conn_close(&mut self, _conn: u64) {}

    fn udp(&mut self, _link: u64, _local_port: u16, _server: [u8; 4], _query: &[u8]) {}

    fn tcp(&mut self, _link: u64, _local_port: u16, _server: [u8; 4]) {}

    fn link_write(&mut self, _link: u64, _bytes: &[u8]) {}

    fn link_close(&mut self, _link: u64) {}

    fn line(&mut self, _text: &[u8]) {}

    ghost acted_none = { λ a. tt };

    ghost acted_both = { λ a b c xs ys p q. tt };
}

/// One server, 10.0.0.1.
const SERVERS: [[u8; 4]; 16] = [
    [10, 0, 0, 1],
    [0, 0, 0, 0],
    [0, 0, 0, 0],
    [0, 0, 0, 0],
    [0, 0, 0, 0],
    [0, 0, 0, 0],
    [0, 0, 0, 0],
    [0, 0, 0, 0],
    [0, 0, 0, 0],
    [0, 0, 0, 0],
    [0, 0, 0, 0],
    [0, 0, 0, 0],
    [0, 0, 0, 0],
    [0, 0, 0, 0],
    [0, 0, 0, 0],
    [0, 0, 0, 0],
];

/// A query begins, and its first attempt is made at `now` with the first number behind `link`. It ends a second later.
fn begin(work: &mut Work, now: u64, mut link: u64)
    requires idle { IsNone work.old.sender.attempt }
    requires moment { now < 2 ^ 62 }
    requires links { link < 2 ^ 60 }
    ensures { IsWaiting work.new }
{
    let request = Request {
        id: 0,
        name: Name::root(),
        qtype: 1,
        qclass: 1,
    };
    work.query.take(&request);
    work.query.begin();
    work.sender.start(
        &SERVERS,
        &Name::root(),
        1,
        false,
        &[0; 17],
        now,
        &mut link,
        &mut Silence,
    );
}

/// Puts in a query of this serial number, whose attempt is made at `now` with the first number behind `link`.
fn put<R: Abort>(rt: &R, actives: &mut Actives, serial: u64, client: Client, now: u64, link: u64) {
    assert!(rt; now < 1 << 62);
    assert!(rt; link < 1 << 60);
    assert!(rt; actives.spare() > 0);
    let mut work = actives.new_work();
    begin(&mut work, now, link);
    assert!(rt; actives.len() + actives.spare() < 221);
    actives.put(Taken {
        serial,
        client,
        work,
    });
}

/// Takes out the query at a place, and gives its work back. The serial number that it had is to be this one.
fn end<R: Abort>(rt: &R, actives: &mut Actives, place: Option<usize>, serial: u64) {
    let place = place.expect(rt, "a query");
    assert!(rt; place < actives.len());
    let mut taken = actives.take(place);
    assert_eq!(rt; taken.serial, serial);
    taken.work.sender.stop(&mut Silence);
    assert!(rt; actives.len() + actives.spare() < 221);
    actives.give_back(taken.work);
}

#[test]
fn queries(rt: HostRuntime) -> Result<(), Fail> {
    let mut actives = Actives::new(rt.alloc())?;
    assert_eq!(rt; actives.spare(), 221);
    assert_eq!(rt; actives.earliest(), None);
    let udp = Client::Udp {
        addr: [127, 0, 0, 1],
        port: 1053,
    };
    put(&rt, &mut actives, 5, udp, 2000, 10);
    put(&rt, &mut actives, 2, Client::Tcp { number: 7 }, 3000, 20);
    put(&rt, &mut actives, 9, udp, 1000, 30);
    put(&rt, &mut actives, 4, udp, 1000, 40);
    assert_eq!(rt; actives.len(), 4);
    assert_eq!(rt; actives.spare(), 217);
    assert_eq!(rt; actives.udp(), 3);
    assert_eq!(rt; actives.find_link(31), Some(3));
    assert_eq!(rt; actives.find_link(30), None);
    assert_eq!(rt; actives.first_udp(), Some(1));
    assert_eq!(rt; actives.find_connection(7), Some(0));
    assert_eq!(rt; actives.find_connection(8), None);
    assert!(rt; actives.is_busy(7) && !actives.is_busy(8));
    assert_eq!(rt; actives.earliest(), Some(1));
    assert_eq!(rt; actives.serial(3), 9);
    assert_eq!(rt; actives.deadline(3), 2000);
    assert_eq!(rt; actives.client(0), Client::Tcp { number: 7 });
    let place = actives.first_udp();
    end(&rt, &mut actives, place, 4);
    let place = actives.earliest();
    end(&rt, &mut actives, place, 9);
    let place = actives.find_connection(7);
    end(&rt, &mut actives, place, 2);
    assert!(rt; !actives.is_busy(7));
    let place = actives.find_link(11);
    end(&rt, &mut actives, place, 5);
    assert_eq!(rt; actives.udp(), 0);
    assert_eq!(rt; actives.first_udp(), None);
    assert_eq!(rt; actives.spare(), 221);
    Ok(())
}
