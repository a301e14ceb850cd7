//! What isn't there is remembered: empty entries (RFC 2308).
ghost use Rattle.std.specs.Prelude.{◌≡◌, ◌<◌, ◌≤◌, ◌*◌, ◌^◌, [], ◌∷◌, length, option_map, IfSome};
ghost use Rattle.dc_model.specs.Event.{Action};
ghost use Rattle.dc_model.specs.Line.{line_nodata, line_nxdomain};
ghost use Rattle.dc_model.specs.Message.{HasNames, kind_any};
ghost use Rattle.dc_model.specs.Puts.{key_of};
ghost use Rattle.dc_model.specs.Cache.{put};
ghost use Rattle.dc_model.specs.Marks as marks;
ghost use Rattle.dc_packet.specs.Data.{body_of};
ghost use Rattle.dc_marks.specs.Places.{record_in};
ghost use Rattle.dc_rules.specs.Refusals.{rule_of};
ghost use Rattle.dc_machine.specs.Query.{name_of, wanted_of};
ghost use Rattle.dc_frames.specs.View.{query_of};
ghost use Rattle.dc_heard.specs.Said.{IsThere};

use crate::record::{data, row};
use dc_desk::Key;
use dc_engine::Effects;
use dc_frames::Query;
use dc_limits::LONGEST_NEGATIVE;
use dc_lines::{Line, line_nodata, line_nxdomain};
use dc_packet::{Data, Message, kept_ttl, u32_at};
use dc_rules::Rule;
use dc_store::Store;
use dc_types::rtype;

/// Where in the numbers of an SOA its MINIMUM stands (RFC 1035, 3.3.13).
const MINIMUM: usize = 16;

/// The MINIMUM of an SOA's data.
fn minimum_of(data: &Data<'_>) -> u32
    requires { HasNames (body_of «data».now) }
    ensures { result ≡ marks.minimum_of (body_of «data».now) }
{
    match data {
        Data::Soa(_, _, numbers) => u32_at(numbers, MINIMUM),
        Data::Bytes(_) | Data::Host(_) | Data::Mx(_, _) => 0,
    }
}

/// For how many seconds it is known that something isn't there, by the record of this number: an hour at most, by its TTL, and
/// under rule Two by the MINIMUM of its data too (RFC 2308, 3 to 5).
#[tactic(auto, unfolding(dc_model::specs::Marks::negative_ttl))]
fn ttl_by(message: &Message<'_>, rule: Rule, i: usize) -> u32
    requires { IsThere message.now i }
    ensures { result ≡ marks.negative_ttl (rule_of rule) (Some (record_in message.now i)) }
{
    let ttl = kept_ttl(row(message, i).ttl);
    match rule {
        Rule::One => ttl.min(LONGEST_NEGATIVE),
        Rule::Two => ttl.min(minimum_of(&data(message, i))).min(LONGEST_NEGATIVE),
    }
}

/// The same by an SOA, where there is one; without it not at all.
#[tactic(auto, using(crate::proofs::Telling::none_ttl))]
pub(crate) fn negative_ttl(message: &Message<'_>, rule: Rule, soa: Option<usize>) -> u32
    requires { IfSome soa (IsThere message.now) }
    ensures { result ≡ marks.negative_ttl (rule_of rule) (option_map (record_in message.now) soa) }
{
    match soa {
        Some(i) => ttl_by(message, rule, i),
        None => 0,
    }
}

/// Remembers for so many seconds that the name on top doesn't exist, and says so.
pub(crate) fn no_name<S: Store, O: Effects>(
    query: &Query,
    server: [u8; 4],
    ttl: u32,
    second: u64,
    store: &mut S,
    out: &mut O,
)
    requires some { 0 < length (query_of query.now).frames }
    requires moment { second * 1000 < 2 ^ 62 }
    ensures store { S.cache store.new ≡ put (key_of kind_any (name_of (query_of query.now))) [] ttl second (S.cache store.old) }
    ensures acts { O.acted out.old (Action.line (line_nxdomain server ttl (name_of (query_of query.now))) ∷ []) out.new }
{
    let mut line = Line::new();
    line_nxdomain(&mut line, server, ttl, query.name());
    out.line(line.text());
    Key::new(query.name()).put_empty(store, rtype::ANY, ttl, second);
}

/// Remembers for so many seconds that the name on top has no records of the wanted type, and says so.
pub(crate) fn no_data<S: Store, O: Effects>(
    query: &Query,
    server: [u8; 4],
    ttl: u32,
    second: u64,
    store: &mut S,
    out: &mut O,
)
    requires some { 0 < length (query_of query.now).frames }
    requires moment { second * 1000 < 2 ^ 62 }
    ensures store { S.cache store.new ≡ put (key_of (wanted_of (query_of query.now)) (name_of (query_of query.now))) [] ttl second (S.cache store.old) }
    ensures acts { O.acted out.old (Action.line (line_nodata server ttl (wanted_of (query_of query.now)) (name_of (query_of query.now))) ∷ []) out.new }
{
    let kind = query.wanted();
    let mut line = Line::new();
    line_nodata(&mut line, server, ttl, kind, query.name());
    out.line(line.text());
    Key::new(query.name()).put_empty(store, kind, ttl, second);
}
