//! The choice of a zone, whose servers are then asked.
ghost use Rattle.std.specs.Prelude.{◌≡◌, ◌<◌, length, option_map};
ghost use Rattle.dc_model.specs.Name as model;
ghost use Rattle.dc_model.specs.Rules.{servers};
ghost use Rattle.dc_frames.specs.View.{query_of};
ghost use Rattle.dc_machine.specs.Query.{name_of};
ghost use Rattle.dc_machine.specs.Turn as machine;
ghost use Rattle.dc_desk.specs.View.{setting_at, at};
ghost use Rattle.dc_look.specs.Chosen.{choice_at, choice_made, choice_from};

use dc_desk::{Desk, Key, Moment};
use dc_frames::Query;
use dc_items::Items;
use dc_limits::LONGEST_NAME;
use dc_name::{Name, Suffix};
use dc_store::Store;
use dc_types::rtype;

/// What is known of the servers of a zone.
#[derive(Drop)]
pub(crate) enum Servers<'a> {
    /// The zone is configured, with servers at these places.
    Configured(&'a [[u8; 4]; 16]),
    /// The cache has these, and at least a byte of them.
    Cached(Items<'a>),
}

/// A zone that was chosen.
#[derive(Drop)]
pub(crate) struct Chosen<'a> {
    pub(crate) zone: Name,
    pub(crate) servers: Servers<'a>,
}

/// Whether cached servers of a zone count: below level 2, unless forwarding, and not of a zone whose name is as long as can be.
#[tactic(auto, unfolding(dc_machine::specs::Turn::uses_cached, dc_desk::specs::View::setting_of))]
fn uses_cached<S: Store>(
    query: &Query,
    desk: &Desk<S>,
    zone: &Suffix<'_>,
    moment: Moment<'_>,
) -> bool
    requires { 0 < length (query_of query.now).frames }
    ensures { result ≡ machine.uses_cached (setting_at desk.now moment.entry) (query_of query.now) zone.now }
{
    if desk.forward || query.levels() > 2 {
        return false;
    }
    zone.wire().len() < LONGEST_NAME
}

/// What is known of the servers of a zone: a configured one has its own (after djbdns' roots.c), and any other those that the
/// cache knows.
#[tactic(auto, unfolding(dc_machine::specs::Turn::choice_by, dc_machine::specs::Turn::cached_choice))]
fn servers_of<'a, S: Store>(
    query: &Query,
    desk: &'a Desk<S>,
    zone: &Suffix<'_>,
    key: &mut Key,
    moment: Moment<'_>,
) -> Option<Servers<'a>>
    requires some { 0 < length (query_of query.now).frames }
    requires key { key.old ≡ model.lower zone.now }
    ensures choice { option_map (choice_at zone.now) result
        ≡ machine.choice_by (servers desk.now.zones zone.now) (setting_at desk.now moment.entry) (at S.cache query.now desk.now) zone.now }
    ensures key { key.new ≡ key.old }
{
    if let Some(places) = desk.zones.servers_at(zone) {
        return Some(Servers::Configured(places));
    }
    if !uses_cached(query, desk, zone, moment) {
        return None;
    }
    let hit = key.find(&desk.store, rtype::NS, moment.second())?;
    if hit.body.is_empty() {
        return None;
    }
    let hosts = Items::new(desk.zones.rule(), rtype::NS, hit.body);
    Some(Servers::Cached(hosts))
}

/// The first zone with known servers, from the name on top upwards.
pub(crate) fn choose<'a, S: Store>(
    query: &Query,
    desk: &'a Desk<S>,
    key: &mut Key,
    moment: Moment<'_>,
) -> Option<Chosen<'a>>
    requires some { 0 < length (query_of query.now).frames }
    requires key { key.old ≡ model.lower (name_of (query_of query.now)) }
    ensures { choice_made result ≡ choice_from S.cache query.now desk.now moment.entry }
{
    let mut zone = query.name().suffix();
    loop {
        if let Some(servers) = servers_of(query, desk, &zone, key, moment) {
            return Some(Chosen {
                zone: zone.to_name(),
                servers,
            });
        }
        zone = zone.parent()?;
        key.up();
    }
}
