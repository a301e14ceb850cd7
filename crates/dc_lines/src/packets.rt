//! Lines on what servers said.
ghost use Rattle.std.specs.Prelude.{◌≡◌};
ghost use Rattle.dc_model.specs.Line.{line_rr, line_rr_host, line_rr_mx, line_rr_soa, line_nodata, line_nxdomain, line_lame, line_servfail};
ghost use Rattle.dc_lines.specs.Causes.{host_kind_of};

use crate::{HostKind, Line};
use dc_name::Name;

/// A record, its data as bytes: `rr IP N TYPE NAME DATA`.
#[tactic(auto, using(crate::proofs::WordLemmas::words_fold), unfolding(dc_model::specs::Line::line_rr))]
pub fn line_rr(out: &mut Line, server: [u8; 4], ttl: u32, kind: u16, owner: &Name, bytes: &[u8])
    ensures { out.new ≡ line_rr server ttl kind owner.now bytes.now }
{
    out.begin(b"rr");
    out.address(server);
    out.number(u64::from(ttl));
    out.number(u64::from(kind));
    out.name(owner);
    out.data(bytes);
}

/// A record whose data is a name: `rr IP N WORD NAME NAME`, WORD one of `ns`, `cname` and `ptr`.
#[tactic(auto, using(crate::proofs::WordLemmas::words_fold), unfolding(dc_model::specs::Line::line_rr_host))]
pub fn line_rr_host(
    out: &mut Line,
    server: [u8; 4],
    ttl: u32,
    kind: HostKind,
    owner: &Name,
    host: &Name,
)
    ensures { out.new ≡ line_rr_host server ttl (host_kind_of kind) owner.now host.now }
{
    out.begin(b"rr");
    out.address(server);
    out.number(u64::from(ttl));
    out.word(kind.word());
    out.name(owner);
    out.name(host);
}

/// A record with a mail exchange and its preference: `rr IP N mx NAME NAME N`.
#[tactic(auto, using(crate::proofs::WordLemmas::words_fold), unfolding(dc_model::specs::Line::line_rr_mx))]
pub fn line_rr_mx(out: &mut Line, server: [u8; 4], ttl: u32, owner: &Name, host: &Name, pref: u16)
    ensures { out.new ≡ line_rr_mx server ttl owner.now host.now pref }
{
    out.begin(b"rr");
    out.address(server);
    out.number(u64::from(ttl));
    out.word(b"mx");
    out.name(owner);
    out.name(host);
    out.number(u64::from(pref));
}

/// A record with the start of a zone, two names and five numbers: `rr IP N soa NAME NAME NAME N N N N N`.
#[tactic(auto, using(crate::proofs::WordLemmas::words_fold), unfolding(dc_model::specs::Line::line_rr_soa))]
pub fn line_rr_soa(
    out: &mut Line,
    server: [u8; 4],
    ttl: u32,
    owner: &Name,
    first: &Name,
    second: &Name,
    numbers: [u32; 5],
)
    ensures { out.new ≡ line_rr_soa server ttl owner.now first.now second.now numbers }
{
    out.begin(b"rr");
    out.address(server);
    out.number(u64::from(ttl));
    out.word(b"soa");
    out.name(owner);
    out.name(first);
    out.name(second);
    out.numbers(&numbers);
}

/// A name has no records of the wanted type: `nodata IP N TYPE NAME`.
#[tactic(auto, using(crate::proofs::WordLemmas::words_fold), unfolding(dc_model::specs::Line::line_nodata))]
pub fn line_nodata(out: &mut Line, server: [u8; 4], ttl: u32, kind: u16, name: &Name)
    ensures { out.new ≡ line_nodata server ttl kind name.now }
{
    out.begin(b"nodata");
    out.address(server);
    out.number(u64::from(ttl));
    out.number(u64::from(kind));
    out.name(name);
}

/// A name doesn't exist: `nxdomain IP N NAME`.
#[tactic(auto, using(crate::proofs::WordLemmas::words_fold), unfolding(dc_model::specs::Line::line_nxdomain))]
pub fn line_nxdomain(out: &mut Line, server: [u8; 4], ttl: u32, name: &Name)
    ensures { out.new ≡ line_nxdomain server ttl name.now }
{
    out.begin(b"nxdomain");
    out.address(server);
    out.number(u64::from(ttl));
    out.name(name);
}

/// A server refers to no lower zone: `lame IP NAME NAME`, the control zone and the owner of the last name server.
#[tactic(auto, using(crate::proofs::WordLemmas::words_fold), unfolding(dc_model::specs::Line::line_lame))]
pub fn line_lame(out: &mut Line, server: [u8; 4], control: &Name, referral: &Name)
    ensures { out.new ≡ line_lame server control.now referral.now }
{
    out.begin(b"lame");
    out.address(server);
    out.name(control);
    out.name(referral);
}

/// No server of a name gave an answer: `servfail NAME`.
#[tactic(auto, using(crate::proofs::WordLemmas::words_fold), unfolding(dc_model::specs::Line::line_servfail))]
pub fn line_servfail(out: &mut Line, name: &Name)
    ensures { out.new ≡ line_servfail name.now }
{
    out.begin(b"servfail");
    out.name(name);
}
