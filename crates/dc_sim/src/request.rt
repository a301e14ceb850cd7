//! The requests of the client, and ticks.
ghost use Rattle.std.specs.Prelude.{◌≡◌, ◌^◌, ◌<◌, []};
ghost use Rattle.dc_model.specs.Event.{IsEvent, tick};
ghost use Rattle.dc_model.specs.Places.{no_address};
ghost use Rattle.dc_simulation.specs.World as model;
ghost use Rattle.dc_sim.specs.Requests.{request_at};

use crate::names::host_name;
use dc_engine::{Event, Inbox, Kind};
use dc_name::Name;
use dc_packet::{QueryBytes, write_query};

/// The address and the port of the client.
const CLIENT: [u8; 4] = [127, 0, 0, 1];

const PORT: u16 = 4096;

/// The type that it asks for.
const KIND_A: u16 = 1;

/// The next number (Knuth's MMIX).
pub(crate) fn drawn(x: u64) -> u64
    ensures { result ≡ model.drawn x }
{
    x.wrapping_mul(6_364_136_223_846_793_005)
        .wrapping_add(1_442_695_040_888_963_407)
}

/// The name that a number asks for.
fn wanted(x: u64) -> Name
    ensures { result ≡ model.wanted x }
{
    let v = (x >> 33) % 4096;
    host_name((v % 16) as u8, (v / 16 % 16) as u8, (v / 256) as u8)
}

/// Puts the client's request into the inbox: at this moment, for the name of this number, and with the number of its event.
pub(crate) fn give_request(now: u64, x: u64, number: u64, inbox: &mut Inbox)
    requires { now < 2 ^ 62 }
    ensures event { inbox.new ≡ request_at now x number }
    ensures bounds { IsEvent inbox.new }
{
    let mut bytes: QueryBytes = [0; 273];
    let len = write_query(
        &wanted(x),
        KIND_A,
        (number % 65536) as u16,
        true,
        &mut bytes,
    );
    let event = Event {
        now,
        kind: Kind::Request,
        id: 0,
        addr: CLIENT,
        port: PORT,
        len,
    };
    inbox.set(event, &bytes[2..len + 2]);
}

/// Puts a tick into the inbox.
pub(crate) fn give_tick(now: u64, inbox: &mut Inbox)
    requires { now < 2 ^ 62 }
    ensures event { inbox.new ≡ record { now = now; kind = tick; id = 0; addr = no_address; port = 0; bytes = [] } }
    ensures bounds { IsEvent inbox.new }
{
    let event = Event {
        now,
        kind: Kind::Tick,
        id: 0,
        addr: [0; 4],
        port: 0,
        len: 0,
    };
    inbox.set(event, &[]);
}
