//! Referrals.
ghost use Rattle.std.specs.Prelude.{◌≡◌, ◌≤◌, ◌<◌, ◌∷◌, ◌++◌, ℕ, [], length, take};
ghost use Rattle.dc_model.specs.Limits.{most_hosts};
ghost use Rattle.dc_model.specs.Cache.{Cache};
ghost use Rattle.dc_model.specs.Places.{empty_places};
ghost use Rattle.dc_reply.specs.Draft.{Draft};
ghost use Rattle.dc_marks.specs.Places.{record_in};
ghost use Rattle.dc_machine.specs.Query.{top_of, with_hosts, with_zone};
ghost use Rattle.dc_machine.specs.Turn.{refers_row, referred_hosts};
ghost use Rattle.dc_frames.specs.View.{query_of};
ghost use Rattle.dc_heard.specs.Quiet.{Leads};
ghost use Rattle.dc_heard.specs.Taken.{listed, hosts_in, gives_host};

use crate::record::{data, host_of, is_authority, owner, row};
use dc_desk::{Cause, Outcome, Point, Step};
use dc_frames::Query;
use dc_limits::MOST_HOSTS;
use dc_name::Name;
use dc_packet::Message;
use dc_types::{class, rtype};

/// No server.
const NOBODY: [[u8; 4]; 16] = [[0; 4]; 16];

/// The servers of a zone are to be asked. A zone that the name on top isn't under is no help, and the query is given up.
#[tactic(auto, unfolding(dc_machine::specs::Turn::refers_row))]
pub(crate) fn refers(query: &mut Query, message: &Message<'_>, zone: &Name) -> Step
    requires { 0 < length (query_of query.old).frames }
    ensures { (c : Cache) (n : ℕ) (d : Draft) → Leads (refers_row zone.now message.now (record { query = query_of query.old; cache = c; links = n })) (query_of query.new) d result }
{
    if !query.name().under(zone) {
        return Step::End(Outcome::Dropped(Cause::Foreign));
    }
    look_for(query, message, zone);
    Step::Go(Point::Next)
}

/// The first sixteen servers of a zone in a message are to be looked for.
fn look_for(query: &mut Query, message: &Message<'_>, zone: &Name)
    requires { 0 < length (query_of query.old).frames }
    ensures { query_of query.new ≡ with_zone (query_of query.old) zone.now (referred_hosts zone.now message.now) empty_places }
{
    query.ask_zone(zone.copy(), &NOBODY);
    let mut count = 0;
    for i in 0..message.count() {
        count = push_host(query, host(message, i, zone), count);
    }
}

/// Adds a server, if there is one, to those that are to be looked for, of which there are so many. Answers how many there are
/// then: sixteen at most.
#[tactic(auto, using(crate::proofs::Hosts::pushing))]
fn push_host(query: &mut Query, host: Option<Name>, count: usize) -> usize
    requires some { 0 < length (query_of query.old).frames }
    requires count { count ≡ length (top_of (query_of query.old)).hosts }
    requires most { count ≤ most_hosts }
    ensures query { query_of query.new ≡ with_hosts (query_of query.old) (take 16 ((top_of (query_of query.old)).hosts ++ listed host)) }
    ensures count { result ≡ length (take 16 ((top_of (query_of query.old)).hosts ++ listed host)) }
{
    match host {
        Some(name) if count < MOST_HOSTS => {
            query.push_host(name);
            count + 1
        }
        _ => count,
    }
}

/// The server of a zone that the record of this number names.
#[tactic(auto, using(crate::proofs::Hosts::finding))]
fn host(message: &Message<'_>, i: usize, zone: &Name) -> Option<Name>
    requires { i < length message.now.records }
    ensures { listed result ≡ hosts_in zone.now (record_in message.now i ∷ []) }
{
    if is_host(message, i, zone) {
        Some(host_of(data(message, i)))
    } else {
        None
    }
}

/// Whether the record of this number names a server of a zone.
fn is_host(message: &Message<'_>, i: usize, zone: &Name) -> bool
    requires { i < length message.now.records }
    ensures { result ≡ gives_host zone.now (record_in message.now i) }
{
    let rr = row(message, i);
    rr.class == class::IN
        && (is_authority(rr.section) && (rr.kind == rtype::NS && owner(message, i).same(zone)))
}
