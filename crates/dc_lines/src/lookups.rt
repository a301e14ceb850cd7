//! Lines on what is asked and found in the cache.
ghost use Rattle.std.specs.Prelude.{◌≡◌};
ghost use Rattle.dc_model.specs.Line.{line_tx, line_cached, line_cached_cname, line_cached_ns, line_cached_nxdomain};

use crate::Line;
use dc_name::Name;

/// A transmission starts: `tx N TYPE NAME NAME`, the frame's level, the wanted type, and the frame's name and control zone; and
/// for each place that isn't empty, in order, a space and IP.
#[tactic(auto, using(crate::proofs::WordLemmas::words_fold), unfolding(dc_model::specs::Line::line_tx))]
pub fn line_tx(
    out: &mut Line,
    level: usize,
    qtype: u16,
    name: &Name,
    control: &Name,
    servers: &[[u8; 4]; 16],
)
    ensures { out.new ≡ line_tx level qtype name.now control.now servers.now }
{
    out.begin(b"tx");
    out.number(level as u64);
    out.number(u64::from(qtype));
    out.name(name);
    out.name(control);
    out.addresses(servers);
}

/// The cache has records of this type: `cached TYPE NAME`.
#[tactic(auto, using(crate::proofs::WordLemmas::words_fold), unfolding(dc_model::specs::Line::line_cached))]
pub fn line_cached(out: &mut Line, kind: u16, name: &Name)
    ensures { out.new ≡ line_cached kind name.now }
{
    out.begin(b"cached");
    out.number(u64::from(kind));
    out.name(name);
}

/// The cache has an alias: `cached cname NAME NAME`.
#[tactic(auto, using(crate::proofs::WordLemmas::words_fold), unfolding(dc_model::specs::Line::line_cached_cname))]
pub fn line_cached_cname(out: &mut Line, name: &Name, target: &Name)
    ensures { out.new ≡ line_cached_cname name.now target.now }
{
    out.begin(b"cached");
    out.word(b"cname");
    out.name(name);
    out.name(target);
}

/// The cache has a server of a zone: `cached ns NAME NAME`.
#[tactic(auto, using(crate::proofs::WordLemmas::words_fold), unfolding(dc_model::specs::Line::line_cached_ns))]
pub fn line_cached_ns(out: &mut Line, zone: &Name, host: &Name)
    ensures { out.new ≡ line_cached_ns zone.now host.now }
{
    out.begin(b"cached");
    out.word(b"ns");
    out.name(zone);
    out.name(host);
}

/// The cache has it that a name doesn't exist: `cached nxdomain NAME`.
#[tactic(auto, using(crate::proofs::WordLemmas::words_fold), unfolding(dc_model::specs::Line::line_cached_nxdomain))]
pub fn line_cached_nxdomain(out: &mut Line, name: &Name)
    ensures { out.new ≡ line_cached_nxdomain name.now }
{
    out.begin(b"cached");
    out.word(b"nxdomain");
    out.name(name);
}
