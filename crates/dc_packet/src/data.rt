//! The data of records (RFC 1035, 3.3).
ghost use Rattle.std.specs.Prelude.{◌≡◌, ◌+◌, ◌≤◌, ◌==◌, ◌||◌, length, option_map};
ghost use Rattle.dc_model.specs.Message as model;
ghost use Rattle.dc_packet.specs.Data.{body_of, named_form};

use crate::name::read_name;
use crate::number::u16_at;
use dc_name::Name;
use dc_types::{class, rtype};

/// The data of a record: as bytes, or with the names in it.
#[derive(Debug, Drop)]
pub enum Data<'a> {
    /// The bytes as they stand.
    Bytes(&'a [u8]),
    /// Of NS, CNAME and PTR: a name.
    Host(Name),
    /// Of MX: the preference and the exchange.
    Mx(u16, Name),
    /// Of SOA: the primary server, the mailbox, and the 20 bytes of five numbers.
    Soa(Name, Name, &'a [u8]),
}

/// How data is read.
#[derive(Clone, Copy, Debug)]
pub(crate) enum Form {
    Bytes,
    Host,
    Mx,
    Soa,
}

/// The number of bytes that the five numbers of an SOA take.
const SOA_NUMBERS: usize = 20;

/// How the data of a record of this type and class is read. Names are looked for in IN records of NS, CNAME, PTR, MX and SOA.
pub(crate) fn form_of(kind: u16, class: u16) -> Form
    ensures { named_form result ≡ model.form_of kind class }
{
    if class != class::IN {
        Form::Bytes
    } else if kind == rtype::NS || kind == rtype::CNAME || kind == rtype::PTR {
        Form::Host
    } else if kind == rtype::MX {
        Form::Mx
    } else if kind == rtype::SOA {
        Form::Soa
    } else {
        Form::Bytes
    }
}

/// The data of this length at a place. `None` where a name in it can't be read, or the numbers of an SOA pass the packet's end.
/// Names may go on past the length.
pub(crate) fn data_at(packet: &[u8], form: Form, at: usize, len: usize) -> Option<Data<'_>>
    requires packet { length packet.now ≤ 65535 }
    requires within { at + len ≤ length packet.now }
    ensures { option_map body_of result ≡ model.body_at packet.now (named_form form) at len }
{
    match form {
        Form::Bytes => Some(Data::Bytes(&packet[at..at + len])),
        Form::Host => host_at(packet, at),
        Form::Mx => mx_at(packet, at),
        Form::Soa => soa_at(packet, at),
    }
}

/// Data that is one name.
fn host_at(packet: &[u8], at: usize) -> Option<Data<'_>>
    requires { length packet.now ≤ 65535 }
    ensures { option_map body_of result ≡ model.body_at packet.now model.form_host at 0 }
{
    let (name, _) = read_name(packet, at).ok()?;
    Some(Data::Host(name))
}

/// Data that is a preference and a name.
fn mx_at(packet: &[u8], at: usize) -> Option<Data<'_>>
    requires packet { length packet.now ≤ 65535 }
    requires at { at ≤ length packet.now }
    ensures { option_map body_of result ≡ model.body_at packet.now model.form_mx at 0 }
{
    if at + 2 > packet.len() {
        return None;
    }
    let (name, _) = read_name(packet, at + 2).ok()?;
    Some(Data::Mx(u16_at(packet, at), name))
}

/// Data that is two names and five numbers.
fn soa_at(packet: &[u8], at: usize) -> Option<Data<'_>>
    requires { length packet.now ≤ 65535 }
    ensures { option_map body_of result ≡ model.body_at packet.now model.form_soa at 0 }
{
    let (primary, after) = read_name(packet, at).ok()?;
    let (mailbox, numbers) = read_name(packet, after).ok()?;
    if numbers + SOA_NUMBERS > packet.len() {
        return None;
    }
    Some(Data::Soa(primary, mailbox, &packet[numbers..numbers + SOA_NUMBERS]))
}
