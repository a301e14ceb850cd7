//! The walk over the sorted records of a message.
ghost use Rattle.std.specs.Prelude.{◌≡◌, ◌<◌, ◌≤◌, ◌*◌, ◌^◌, length, take, drop, slice_index, map, true, false};
ghost use Rattle.dc_model.specs.Limits.{longest_packet};
ghost use Rattle.dc_model.specs.Name.{lower};
ghost use Rattle.dc_model.specs.Puts as model;
ghost use Rattle.dc_model.specs.Event.{line};
ghost use Rattle.dc_packet.specs.Rows.{AreRowsOf, message_in};
ghost use Rattle.dc_marks.specs.Places.{record_in};
ghost use Rattle.dc_puts.specs.Order.{records_in, given_from};
ghost use Rattle.dc_puts.specs.Group.{first_pair};
ghost use Rattle.dc_puts.specs.Told.{AreSound, told};
ghost use Rattle.dc_puts.specs.Sorted.{AreRun, AreSorted};

use crate::gathered::Gathered;
use crate::group::put_run;
use crate::index::arrange;
use crate::record::{kind_at, owner_at};
use arrayvec::ArrayVec;
use dc_engine::Effects;
use dc_lines::Line;
use dc_name::Name;
use dc_packet::{Message, Table};
use dc_rules::Zones;
use dc_store::Store;

/// Whether the record of this number has a type and an owner, which is in lower case.
#[tactic(auto, using(crate::proofs::Walking::low_is))]
fn is_of(message: &Message<'_>, i: u16, kind: u16, owner: &Name) -> bool
    requires { lower owner.now ≡ owner.now }
    ensures yes { result ≡ true → model.pair_of (record_in message.now i) ≡ record { kind = kind; owner = owner.now } }
    ensures no { result ≡ false → model.pair_of (record_in message.now i) ≡ record { kind = kind; owner = owner.now } → ⊥ }
{
    (kind_at(message, i) == kind) & owner_at(message, i).same(owner)
}

/// How many records stand in front that have the pair of the first.
fn run_len(message: &Message<'_>, rest: &[u16]) -> usize
    requires { 0 < length rest.now }
    ensures least { 1 ≤ result }
    ensures most { result ≤ length rest.now }
    ensures run { AreRun message.now rest.now result }
{
    let kind = kind_at(message, rest[0]);
    let owner = owner_at(message, rest[0]);
    let mut n = 1;
    while n < rest.len() {
        if !is_of(message, rest[n], kind, &owner) {
            return n;
        }
        n += 1;
    }
    n
}

/// The first numbers.
fn front(rest: &[u16], n: usize) -> &[u16]
    requires { n ≤ length rest.now }
    ensures { result.now ≡ take n rest.now }
{
    &rest[..n]
}

/// The numbers behind the first.
fn behind(rest: &[u16], n: usize) -> &[u16]
    requires { n ≤ length rest.now }
    ensures { result.now ≡ drop n rest.now }
{
    &rest[n..]
}

/// Tells of sorted records and puts them, run by run.
fn walk<S: Store, O: Effects>(
    message: &Message<'_>,
    index: &[u16],
    control: &Name,
    zones: &Zones,
    server: [u8; 4],
    now: u64,
    store: &mut S,
    out: &mut O,
)
    requires sorted { AreSorted message.now index.now }
    requires moment { now * 1000 < 2 ^ 62 }
    ensures acts { O.acted out.old (told (given_from zones.now control.now server (records_in message.now index.now))) out.new }
    ensures cache { S.cache store.new ≡ model.all_put (model.puts_given (given_from zones.now control.now server (records_in message.now index.now))) now (S.cache store.old) }
{
    let mut line = Line::new();
    let mut body = Gathered::new();
    let mut rest = index;
    while !rest.is_empty() {
        let n = run_len(message, rest);
        let run = front(rest, n);
        put_run(
            message, run, control, zones, server, now, &mut line, &mut body, store, out,
        );
        rest = behind(rest, n);
    }
}

/// Stores the records of a packet's message, which a server of the control zone sent, and tells of them, group by group: by
/// type, by the length of the owner's wire form, and by its bytes in lower case (after djbdns' query.c; RFC 2181, 5). The moment
/// is in seconds. The table stays as it is.
pub fn puts<S: Store, O: Effects>(
    table: &mut Table,
    packet: &[u8],
    control: &Name,
    zones: &Zones,
    server: [u8; 4],
    now: u64,
    store: &mut S,
    out: &mut O,
)
    requires packet { length packet.now ≤ longest_packet }
    requires table { AreRowsOf packet.now table.old }
    requires moment { now * 1000 < 2 ^ 62 }
    ensures acts { O.acted out.old (map line (model.lines_given (model.given_of zones.now control.now server (message_in packet.now)))) out.new }
    ensures cache { S.cache store.new ≡ model.all_put (model.puts_given (model.given_of zones.now control.now server (message_in packet.now))) now (S.cache store.old) }
    ensures table { table.new ≡ table.old }
{
    let message = Message::new(packet, table);
    let mut index = ArrayVec::new();
    arrange(&message, &mut index);
    walk(
        &message,
        index.as_slice(),
        control,
        zones,
        server,
        now,
        store,
        out,
    );
}
