//! What the cache knows of a name: that it doesn't exist, or of what it is an alias.
ghost use Rattle.std.specs.Prelude.{◌≡◌, ◌<◌, length, option_map, Some};
ghost use Rattle.dc_model.specs.Name as model;
ghost use Rattle.dc_model.specs.Cache.{get};
ghost use Rattle.dc_model.specs.Message.{kind_cname};
ghost use Rattle.dc_model.specs.Puts.{key_of};
ghost use Rattle.dc_frames.specs.View.{query_of, alias_of};
ghost use Rattle.dc_machine.specs.Query.{name_of};
ghost use Rattle.dc_machine.specs.Turn as machine;
ghost use Rattle.dc_desk.specs.declared.moment.Moment.{Moment};
ghost use Rattle.dc_desk.specs.Steps.{TookRow};

use crate::kinds::known;
use crate::wanted::is_wanted;
use dc_answer::reply_one;
use dc_desk::{Desk, Key, Moment, Point, Step};
use dc_engine::Effects;
use dc_frames::{Query, Renamed};
use dc_items::target;
use dc_lines::{Line, line_cached, line_cached_cname, line_cached_nxdomain};
use dc_reply::Body;
use dc_store::Store;
use dc_types::rtype;

/// A cached entry of type ANY says that the name doesn't exist.
pub(crate) fn missing<S: Store, O: Effects>(
    query: &mut Query,
    desk: &mut Desk<S>,
    key: &mut Key,
    moment: Moment<'_>,
    out: &mut O,
) -> Step
    requires some { 0 < length (query_of query.old).frames }
    requires key { key.old ≡ model.lower (name_of (query_of query.old)) }
    ensures { TookRow O.acted S.cache machine.missing_row moment.entry out.old query.old desk.old out.new query.new desk.new result }
{
    let Some(_) = key.find(&desk.store, rtype::ANY, moment.second()) else {
        return renamed(query, desk, key, moment, out);
    };
    let mut line = Line::new();
    line_cached_nxdomain(&mut line, query.name());
    out.line(line.text());
    Step::Go(Point::NxDomain)
}

/// The cached alias of a name: its target, and for how many seconds it is known.
fn cached_alias<S: Store>(store: &S, key: &mut Key, now: u64) -> Option<Renamed>
    ensures alias { (n : model.Name) → key.old ≡ model.lower n → option_map alias_of result ≡ machine.target_by (get (key_of kind_cname n) now (S.cache store.now)) }
    ensures same { key.new ≡ key.old }
{
    let hit = key.find(store, rtype::CNAME, now)?;
    let name = target(hit.body)?;
    Some(Renamed { name, ttl: hit.ttl })
}

/// A cached CNAME is answered where CNAME is wanted, and else leads on.
fn renamed<S: Store, O: Effects>(
    query: &mut Query,
    desk: &mut Desk<S>,
    key: &mut Key,
    moment: Moment<'_>,
    out: &mut O,
) -> Step
    requires some { 0 < length (query_of query.old).frames }
    requires key { key.old ≡ model.lower (name_of (query_of query.old)) }
    ensures { TookRow O.acted S.cache machine.cname_row moment.entry out.old query.old desk.old out.new query.new desk.new result }
{
    match cached_alias(&desk.store, key, moment.second()) {
        Some(alias) => follow(query, desk, alias, out),
        None => known(query, desk, key, moment, out),
    }
}

/// The name is an alias, whose target is known for so many seconds.
fn follow<S: Store, O: Effects>(
    query: &mut Query,
    desk: &mut Desk<S>,
    alias: Renamed,
    out: &mut O,
) -> Step
    requires { 0 < length (query_of query.old).frames }
    ensures { (m : Moment) → TookRow O.acted S.cache (machine.cname_by (Some (alias_of alias))) m out.old query.old desk.old out.new query.new desk.new result }
{
    let mut line = Line::new();
    if is_wanted(query.wanted(), rtype::CNAME) {
        line_cached(&mut line, rtype::CNAME, query.name());
        out.line(line.text());
        let body = Body::Host(&alias.name);
        return Step::replied(reply_one(query, &mut desk.reply, rtype::CNAME, alias.ttl, body));
    }
    line_cached_cname(&mut line, query.name(), &alias.name);
    out.line(line.text());
    Step::Go(Point::Alias(alias.name, alias.ttl))
}
