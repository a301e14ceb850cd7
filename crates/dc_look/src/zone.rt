//! The chosen zone is the frame's control zone, and its servers are next.
ghost use Rattle.std.specs.Prelude.{◌≡◌, ◌<◌, ◌≤◌, ◌∷◌, ◌++◌, [], length, take};
ghost use Rattle.dc_model.specs.Limits.{most_hosts};
ghost use Rattle.dc_model.specs.Name.{lower};
ghost use Rattle.dc_model.specs.Marks as marks;
ghost use Rattle.dc_packet.specs.Data.{body_of};
ghost use Rattle.dc_frames.specs.View.{query_of};
ghost use Rattle.dc_machine.specs.Query.{name_of, top_of, with_hosts};
ghost use Rattle.dc_machine.specs.Turn as machine;
ghost use Rattle.dc_desk.specs.Steps.{TookRow};
ghost use Rattle.dc_look.specs.Chosen.{choice_among, choice_at, choice_made, choice_from, IsAsked};

use crate::servers::{Chosen, Servers, choose};
use dc_desk::{Desk, Key, Moment, Point, Step};
use dc_engine::Effects;
use dc_frames::Query;
use dc_items::Items;
use dc_limits::MOST_HOSTS;
use dc_lines::{Line, line_cached_ns};
use dc_name::Name;
use dc_packet::Data;
use dc_store::Store;

/// No server.
const NOBODY: [[u8; 4]; 16] = [[0; 4]; 16];

/// A zone is chosen, from the name upwards: a configured one has its servers as they stand, any other those that the cache knows
/// (after djbdns' roots.c).
pub(crate) fn zone<S: Store, O: Effects>(
    query: &mut Query,
    desk: &mut Desk<S>,
    key: &mut Key,
    moment: Moment<'_>,
    out: &mut O,
) -> Step
    requires some { 0 < length (query_of query.old).frames }
    requires key { key.old ≡ lower (name_of (query_of query.old)) }
    ensures { TookRow O.acted S.cache machine.zone_row moment.entry out.old query.old desk.old out.new query.new desk.new result }
{
    choose_servers(query, desk, key, moment, out);
    Step::Go(Point::Next)
}

/// The servers of the first zone with known ones, from the name upwards, are to be asked.
fn choose_servers<S: Store, O: Effects>(
    query: &mut Query,
    desk: &Desk<S>,
    key: &mut Key,
    moment: Moment<'_>,
    out: &mut O,
)
    requires some { 0 < length (query_of query.old).frames }
    requires key { key.old ≡ lower (name_of (query_of query.old)) }
    ensures { IsAsked O.acted out.old (query_of query.old) (choice_from S.cache query.old desk.now moment.entry) out.new (query_of query.new) }
{
    let chosen = choose(query, desk, key, moment);
    ask(query, chosen, out);
}

/// The servers of the chosen zone are to be asked. Where none was chosen, the root has no servers.
fn ask<O: Effects>(query: &mut Query, chosen: Option<Chosen<'_>>, out: &mut O)
    requires { 0 < length (query_of query.old).frames }
    ensures { IsAsked O.acted out.old (query_of query.old) (choice_made chosen.entry) out.new (query_of query.new) }
{
    match chosen {
        Some(chosen) => ask_servers(query, chosen.zone, chosen.servers, out),
        None => {
            let _ = &out;
            query.ask_zone(Name::root(), &NOBODY);
        }
    }
}

/// These servers of a zone are to be asked: configured ones at their places, and others once their addresses are known.
fn ask_servers<O: Effects>(query: &mut Query, zone: Name, servers: Servers<'_>, out: &mut O)
    requires { 0 < length (query_of query.old).frames }
    ensures { IsAsked O.acted out.old (query_of query.old) (choice_at zone servers.entry) out.new (query_of query.new) }
{
    match servers {
        Servers::Configured(places) => {
            let _ = &out;
            query.ask_zone(zone, places);
        }
        Servers::Cached(hosts) => look_for(query, zone, hosts, out),
    }
}

/// The name in the data of an NS record.
fn host_of(item: Data<'_>) -> Name
    ensures { result ≡ marks.host_of (body_of item.entry) }
{
    match item {
        Data::Host(name) => name,
        _ => Name::root(),
    }
}

/// Adds a server's name to those to be looked for, where there are fewer than sixteen. Answers how many there are.
fn keep(query: &mut Query, host: Name, taken: usize) -> usize
    requires some { 0 < length (query_of query.old).frames }
    requires taken { taken ≡ length (top_of (query_of query.old)).hosts }
    requires few { taken ≤ most_hosts }
    ensures query { query_of query.new ≡ with_hosts (query_of query.old) (take 16 ((top_of (query_of query.old)).hosts ++ host ∷ [])) }
    ensures taken { result ≡ length (top_of (query_of query.new)).hosts }
{
    if taken >= MOST_HOSTS {
        return taken;
    }
    query.push_host(host);
    taken + 1
}

/// The first sixteen of these servers of a zone are to be looked for. Each has a line.
fn look_for<O: Effects>(query: &mut Query, zone: Name, mut hosts: Items<'_>, out: &mut O)
    requires { 0 < length (query_of query.old).frames }
    ensures { IsAsked O.acted out.old (query_of query.old) (choice_among zone hosts.entry) out.new (query_of query.new) }
{
    query.ask_zone(zone.copy(), &NOBODY);
    let mut line = Line::new();
    let mut taken = 0;
    while let Some(item) = hosts.next_item() {
        let host = host_of(item);
        line_cached_ns(&mut line, &zone, &host);
        out.line(line.text());
        taken = keep(query, host, taken);
    }
}
