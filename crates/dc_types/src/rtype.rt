//! Types of records and questions.
ghost use Rattle.std.specs.Prelude.{◌≡◌};
ghost use Rattle.dc_model.specs.Message.{kind_a, kind_ns, kind_cname, kind_soa, kind_ptr, kind_mx, kind_txt, kind_aaaa, kind_axfr, kind_any};

/// An address.
pub const A: u16 = 1;

/// A name server.
pub const NS: u16 = 2;

/// The name that an alias stands for.
pub const CNAME: u16 = 5;

/// The start of a zone.
pub const SOA: u16 = 6;

/// A name, as of an address.
pub const PTR: u16 = 12;

/// A mail exchange.
pub const MX: u16 = 15;

/// Text.
pub const TXT: u16 = 16;

/// An address of IPv6.
pub const AAAA: u16 = 28;

/// A request for a whole zone.
pub const AXFR: u16 = 252;

/// A request for all types.
pub const ANY: u16 = 255;

/// These are the numbers that the definitions have.
pub fn numbers()
    ensures a { A ≡ kind_a }
    ensures ns { NS ≡ kind_ns }
    ensures cname { CNAME ≡ kind_cname }
    ensures soa { SOA ≡ kind_soa }
    ensures ptr { PTR ≡ kind_ptr }
    ensures mx { MX ≡ kind_mx }
    ensures txt { TXT ≡ kind_txt }
    ensures aaaa { AAAA ≡ kind_aaaa }
    ensures axfr { AXFR ≡ kind_axfr }
    ensures any { ANY ≡ kind_any }
{}
