//! Cached records of the types that are looked for.
ghost use Rattle.std.specs.Prelude.{◌≡◌, ◌<◌, ℕ, true, false, length, option_map, Some};
ghost use Rattle.dc_model.specs.Name.{lower};
ghost use Rattle.dc_model.specs.Event.{second};
ghost use Rattle.dc_store.specs.Lent.{hit_value};
ghost use Rattle.dc_store.specs.declared.Hit.{Hit};
ghost use Rattle.dc_rules.specs.Refusals.{rule_of};
ghost use Rattle.dc_frames.specs.View.{query_of};
ghost use Rattle.dc_machine.specs.Query.{name_of, is_lowest, with_addresses};
ghost use Rattle.dc_machine.specs.Turn as machine;
ghost use Rattle.dc_machine.specs.Turn.{Setting};
ghost use Rattle.dc_desk.specs.Steps.{TookRow};
ghost use Rattle.dc_look.specs.Found.{entry_value};

use crate::wanted::{is_other, is_wanted};
use crate::zone::zone;
use dc_answer::reply_items;
use dc_desk::{Desk, Key, Moment, Point, Step};
use dc_engine::Effects;
use dc_frames::Query;
use dc_items::{Addresses, Items};
use dc_lines::{Line, line_cached};
use dc_rules::Rule;
use dc_store::{Hit, Store};
use dc_types::rtype;

const KINDS_OF_ONE: [u16; 4] = [rtype::NS, rtype::PTR, rtype::MX, rtype::A];

const KINDS_OF_TWO: [u16; 5] = [rtype::NS, rtype::PTR, rtype::MX, rtype::A, rtype::SOA];

/// A cached entry and its type.
#[derive(Drop)]
pub(crate) struct Entry<'a> {
    pub(crate) kind: u16,
    pub(crate) hit: Hit<'a>,
}

/// What the cache knows of a type, if it is wanted. An empty entry says that there are no such records, which is no answer where
/// ANY is wanted.
#[tactic(auto, unfolding(dc_machine::specs::Turn::known_at))]
fn known_at<'a, S: Store>(
    query: &Query,
    store: &'a S,
    key: &mut Key,
    kind: u16,
    now: u64,
) -> Option<Entry<'a>>
    requires some { 0 < length (query_of query.now).frames }
    requires key { key.old ≡ lower (name_of (query_of query.now)) }
    ensures known { (g : Setting) (links : ℕ) → second g.now ≡ now
        → option_map entry_value result ≡ machine.known_at g (record { query = query_of query.now; cache = S.cache store.now; links = links }) kind }
    ensures key { key.new ≡ key.old }
{
    if !is_wanted(query.wanted(), kind) {
        return None;
    }
    let hit = key.find(store, kind, now)?;
    if hit.body.is_empty() && query.wanted() == rtype::ANY {
        return None;
    }
    Some(Entry { kind, hit })
}

/// The types that are tried under a rule, in this order: NS, PTR, MX, A, and under rule Two SOA.
fn kinds_known(rule: Rule) -> &'static [u16]
    ensures { result.now ≡ machine.kinds_known (rule_of rule) }
{
    match rule {
        Rule::One => &KINDS_OF_ONE,
        Rule::Two => &KINDS_OF_TWO,
    }
}

/// The first of these types of which the cache knows.
fn first_known<'a, S: Store>(
    query: &Query,
    store: &'a S,
    key: &mut Key,
    kinds: &[u16],
    now: u64,
) -> Option<Entry<'a>>
    requires some { 0 < length (query_of query.now).frames }
    requires key { key.old ≡ lower (name_of (query_of query.now)) }
    ensures known { (g : Setting) (links : ℕ) → second g.now ≡ now
        → option_map entry_value result
        ≡ machine.first_known g (record { query = query_of query.now; cache = S.cache store.now; links = links }) kinds.now }
    ensures key { key.new ≡ key.old }
{
    for kind in kinds {
        if let Some(entry) = known_at(query, store, key, *kind, now) {
            return Some(entry);
        }
    }
    None
}

/// A cached entry of a type that is wanted: answered at level 0, and above for the frame below.
pub(crate) fn known<S: Store, O: Effects>(
    query: &mut Query,
    desk: &mut Desk<S>,
    key: &mut Key,
    moment: Moment<'_>,
    out: &mut O,
) -> Step
    requires some { 0 < length (query_of query.old).frames }
    requires key { key.old ≡ lower (name_of (query_of query.old)) }
    ensures { TookRow O.acted S.cache machine.known_row moment.entry out.old query.old desk.old out.new query.new desk.new result }
{
    if query.is_lowest() {
        answer_known(query, desk, key, moment, out)
    } else {
        give_known(query, desk, key, moment, out)
    }
}

/// At level 0 the records of a cached entry are answered.
fn answer_known<S: Store, O: Effects>(
    query: &mut Query,
    desk: &mut Desk<S>,
    key: &mut Key,
    moment: Moment<'_>,
    out: &mut O,
) -> Step
    requires some { 0 < length (query_of query.old).frames }
    requires lowest { is_lowest (query_of query.old) ≡ true }
    requires key { key.old ≡ lower (name_of (query_of query.old)) }
    ensures { TookRow O.acted S.cache machine.known_row moment.entry out.old query.old desk.old out.new query.new desk.new result }
{
    let rule = desk.zones.rule();
    let kinds = kinds_known(rule);
    let Some(entry) = first_known(query, &desk.store, key, kinds, moment.second()) else {
        return other(query, desk, key, moment, out);
    };
    let mut line = Line::new();
    line_cached(&mut line, entry.kind, query.name());
    out.line(line.text());
    let items = Items::new(rule, entry.kind, entry.hit.body);
    Step::replied(reply_items(query, &mut desk.reply, entry.kind, entry.hit.ttl, items))
}

/// Above level 0 only addresses are wanted, for the frame below.
fn give_known<S: Store, O: Effects>(
    query: &mut Query,
    desk: &mut Desk<S>,
    key: &mut Key,
    moment: Moment<'_>,
    out: &mut O,
) -> Step
    requires some { 0 < length (query_of query.old).frames }
    requires above { is_lowest (query_of query.old) ≡ false }
    requires key { key.old ≡ lower (name_of (query_of query.old)) }
    ensures { TookRow O.acted S.cache machine.known_row moment.entry out.old query.old desk.old out.new query.new desk.new result }
{
    let Some(hit) = key.find(&desk.store, rtype::A, moment.second()) else {
        return zone(query, desk, key, moment, out);
    };
    let mut line = Line::new();
    line_cached(&mut line, rtype::A, query.name());
    out.line(line.text());
    let addresses = Addresses::new(hit.body);
    add_addresses(query, addresses);
    Step::Go(Point::Down)
}

/// Adds addresses to the frame below.
#[tactic(auto, unfolding(dc_machine::specs::Query::with_addresses))]
fn add_addresses(query: &mut Query, mut addresses: Addresses<'_>)
    requires { 1 < length (query_of query.old).frames }
    ensures { query_of query.new ≡ with_addresses (query_of query.old) addresses.entry }
{
    while let Some(address) = addresses.next_address() {
        query.add_address(address);
    }
}

/// A cached entry of a type that no other rule looks for is answered; such types are wanted at level 0 alone.
fn other<S: Store, O: Effects>(
    query: &mut Query,
    desk: &mut Desk<S>,
    key: &mut Key,
    moment: Moment<'_>,
    out: &mut O,
) -> Step
    requires some { 0 < length (query_of query.old).frames }
    requires key { key.old ≡ lower (name_of (query_of query.old)) }
    ensures { TookRow O.acted S.cache machine.other_row moment.entry out.old query.old desk.old out.new query.new desk.new result }
{
    let rule = desk.zones.rule();
    let kind = query.wanted();
    if !is_other(rule, kind) {
        return zone(query, desk, key, moment, out);
    }
    let Some(hit) = key.find(&desk.store, kind, moment.second()) else {
        return zone(query, desk, key, moment, out);
    };
    let mut line = Line::new();
    line_cached(&mut line, kind, query.name());
    out.line(line.text());
    let items = Items::new(rule, kind, hit.body);
    Step::replied(reply_items(query, &mut desk.reply, kind, hit.ttl, items))
}
