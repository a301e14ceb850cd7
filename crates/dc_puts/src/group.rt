//! The records of one pair of a type and an owner.
ghost use Rattle.std.specs.Prelude.{◌≡◌, ◌∷◌, [], ◌++◌, ◌<◌, ◌≤◌, ◌*◌, ◌^◌, ◌-◌, ◌||◌, ◌==◌, if◌then◌else◌, List, ℕ, length, drop, slice_index};
ghost use Rattle.std.specs.List.{list_any};
ghost use Rattle.dc_model.specs.Name.{wire, lower};
ghost use Rattle.dc_model.specs.Message.{HasNames, Record, kind_cname, u16};
ghost use Rattle.dc_model.specs.Cache.{put};
ghost use Rattle.dc_model.specs.Puts as puts;
ghost use Rattle.dc_model.specs.Marks as marks;
ghost use Rattle.dc_packet.specs.Rows.{row_of, named_section};
ghost use Rattle.dc_packet.specs.Data.{body_of};
ghost use Rattle.dc_rules.specs.Refusals.{rule_of};
ghost use Rattle.dc_marks.specs.Places.{record_in};
ghost use Rattle.dc_puts.specs.Order.{records_in};
ghost use Rattle.dc_puts.specs.Told.{counts_for, lines_for, items_for, keeps_kind, AreSound};
ghost use Rattle.dc_puts.specs.Told as told;
ghost use Rattle.dc_puts.specs.Group as group;
ghost use Rattle.dc_puts.specs.Kept.{puts_kept};
ghost use Rattle.dc_puts.specs.Held.{Holds};

use crate::gathered::Gathered;
use crate::record::{kind_at, owner_at, row, ttl_at};
use crate::told::{Shared, write_line};
use arrayvec::ArrayVec;
use dc_engine::Effects;
use dc_lines::Line;
use dc_name::Name;
use dc_packet::{Data, Message, Rr, Section, kept_ttl};
use dc_rules::{Rule, Zones};
use dc_store::Store;
use dc_types::rtype;

/// Whether a section is that of the answers.
fn is_answer(section: Section) -> bool
    ensures { result ≡ marks.is_answer (named_section section) }
{
    match section {
        Section::Answer => true,
        Section::Authority | Section::Additional => false,
    }
}

/// Whether a record of a type counts: none of ANY and AXFR, of SOA those that answer, of A those of four bytes, and all others.
#[tactic(auto, unfolding(crate::specs::Told::counts_for))]
fn counts(kind: u16, rr: &Rr) -> bool
    ensures { (r : Record) → rr.now ≡ row_of r → result ≡ counts_for kind r }
{
    if kind == rtype::ANY || kind == rtype::AXFR {
        false
    } else if kind == rtype::SOA {
        is_answer(rr.section)
    } else if kind == rtype::A {
        rr.len == 4
    } else {
        true
    }
}

/// The data of the record of this number.
fn data<'a>(message: &Message<'a>, i: usize) -> Data<'a>
    requires { i < length message.now.records }
    ensures { body_of result ≡ (record_in message.now i).body }
{
    message.data(i)
}

/// Tells of a record and gathers its item, where it counts.
#[tactic(auto, unfolding(crate::specs::Told::lines_for, crate::specs::Told::items_for), using(crate::proofs::Telling::taking))]
fn take<O: Effects>(
    message: &Message<'_>,
    i: usize,
    shared: &Shared,
    line: &mut Line,
    body: &mut Gathered,
    out: &mut O,
) -> bool
    requires within { i < length message.now.records }
    requires names { HasNames (record_in message.now i).body }
    ensures counts { result ≡ counts_for shared.now.kind (record_in message.now i) }
    ensures acts { O.acted out.old (lines_for shared.now.server shared.now.ttl shared.now.kind shared.now.owner (record_in message.now i ∷ [])) out.new }
    ensures body { (xs : List ℕ) → Holds body.old xs → Holds body.new (xs ++ items_for shared.now.kind (record_in message.now i ∷ [])) }
{
    if !counts(shared.kind, &row(message, i)) {
        return false;
    }
    let data = data(message, i);
    write_line(line, shared, &data);
    out.line(line.text());
    body.add_item(shared.kind, &data);
    true
}

/// The numbers behind the first.
fn behind(run: &[u16], n: usize) -> &[u16]
    requires { n ≤ length run.now }
    ensures { result.now ≡ drop n run.now }
{
    &run[n..]
}

/// Tells of the records of one pair and gathers their items, in order. Answers whether any counts.
fn gather<O: Effects>(
    message: &Message<'_>,
    run: &[u16],
    shared: &Shared,
    line: &mut Line,
    body: &mut Gathered,
    out: &mut O,
) -> bool
    requires { AreSound message.now run.now }
    ensures some { result ≡ list_any (counts_for shared.now.kind) (records_in message.now run.now) }
    ensures acts { O.acted out.old (lines_for shared.now.server shared.now.ttl shared.now.kind shared.now.owner (records_in message.now run.now)) out.new }
    ensures body { (xs : List ℕ) → Holds body.old xs → Holds body.new (xs ++ items_for shared.now.kind (records_in message.now run.now)) }
{
    let mut some = false;
    let mut rest = run;
    while !rest.is_empty() {
        let counts = take(message, rest[0] as usize, shared, line, body, out);
        some |= counts;
        rest = behind(rest, 1);
    }
    some
}

/// The key of a type and an owner: the type's two bytes and the owner's wire form in lower case.
fn key_of(kind: u16, owner: &Name) -> ArrayVec<u8, 257>
    ensures { result.items ≡ puts.key_of kind owner.now }
{
    let lowered = owner.lower();
    let mut key: ArrayVec<u8, 257> = ArrayVec::new();
    key.try_extend_from_slice(&kind.to_be_bytes()).unwrap();
    key.try_extend_from_slice(lowered.wire()).unwrap();
    key
}

/// Whether records of a type are kept: not of ANY and AXFR, and of SOA by the rule where any counts.
fn keeps(rule: Rule, kind: u16, some: bool) -> bool
    ensures { result ≡ keeps_kind (rule_of rule) kind some }
{
    if kind == rtype::ANY || kind == rtype::AXFR {
        return false;
    }
    if kind != rtype::SOA {
        return true;
    }
    match rule {
        Rule::One => false,
        Rule::Two => some,
    }
}

/// Puts a body that was gathered, where it is short enough.
#[tactic(auto, using(crate::proofs::Telling::putting))]
fn keep<S: Store>(shared: &Shared, body: &Gathered, now: u64, store: &mut S)
    requires { now * 1000 < 2 ^ 62 }
    ensures { (xs : List ℕ) → Holds body.now xs → S.cache store.new ≡ puts.all_put (puts.put_if_short shared.now.owner shared.now.kind xs shared.now.ttl) now (S.cache store.old) }
{
    if !body.fits {
        return;
    }
    let key = key_of(shared.kind, &shared.owner);
    store.put(key.as_slice(), body.bytes.as_slice(), shared.ttl, now);
}

/// Of records of CNAME the last alone.
fn looked_at(kind: u16, run: &[u16]) -> &[u16]
    requires { 0 < length run.now }
    ensures { result.now ≡ (if kind == kind_cname then drop (length run.now - 1) run.now else run.now) }
{
    if kind == rtype::CNAME {
        behind(run, run.len() - 1)
    } else {
        run
    }
}

/// Tells of the records of one pair, and puts them.
fn give<S: Store, O: Effects>(
    message: &Message<'_>,
    run: &[u16],
    shared: &Shared,
    rule: Rule,
    now: u64,
    line: &mut Line,
    body: &mut Gathered,
    store: &mut S,
    out: &mut O,
)
    requires some { 0 < length run.now }
    requires sound { AreSound message.now run.now }
    requires moment { now * 1000 < 2 ^ 62 }
    ensures acts { O.acted out.old (lines_for shared.now.server shared.now.ttl shared.now.kind shared.now.owner (told.looked_at shared.now.kind (records_in message.now run.now))) out.new }
    ensures cache { S.cache store.new ≡ puts.all_put (puts_kept (rule_of rule) shared.now.ttl shared.now.kind shared.now.owner (told.looked_at shared.now.kind (records_in message.now run.now))) now (S.cache store.old) }
{
    body.clear();
    let counting = looked_at(shared.kind, run);
    let some = gather(message, counting, shared, line, body, out);
    if keeps(rule, shared.kind, some) {
        keep(shared, body, now, store);
    }
}

/// What the records of a run have in common.
#[tactic(auto, using(crate::proofs::Telling::first_is))]
fn shared_by(message: &Message<'_>, server: [u8; 4], run: &[u16]) -> Shared
    requires { 0 < length run.now }
    ensures { result ≡ group.shared_by message.now server run.now }
{
    let first = run[0];
    Shared {
        server,
        ttl: kept_ttl(ttl_at(message, first)),
        kind: kind_at(message, first),
        owner: owner_at(message, first),
    }
}

/// Tells of a run of records of one pair and puts them, where the server is believed for their owner.
pub(crate) fn put_run<S: Store, O: Effects>(
    message: &Message<'_>,
    run: &[u16],
    control: &Name,
    zones: &Zones,
    server: [u8; 4],
    now: u64,
    line: &mut Line,
    body: &mut Gathered,
    store: &mut S,
    out: &mut O,
)
    requires some { 0 < length run.now }
    requires sound { AreSound message.now run.now }
    requires moment { now * 1000 < 2 ^ 62 }
    ensures acts { O.acted out.old (told.told (told.given_in zones.now control.now server (group.first_pair message.now run.now) (records_in message.now run.now))) out.new }
    ensures cache { S.cache store.new ≡ puts.all_put (puts.puts_given (told.given_in zones.now control.now server (group.first_pair message.now run.now) (records_in message.now run.now))) now (S.cache store.old) }
{
    let shared = shared_by(message, server, run);
    if zones.in_zone(control, &shared.owner) {
        give(
            message,
            run,
            &shared,
            zones.rule(),
            now,
            line,
            body,
            store,
            out,
        );
    }
}
