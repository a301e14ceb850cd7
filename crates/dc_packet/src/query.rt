//! Queries to servers.
ghost use Rattle.std.specs.Prelude.{◌≡◌, ◌+◌, ◌≤◌, ◌++◌, length, take, replicate};
ghost use Rattle.dc_model.specs.Message as model;

use byteorder::{BigEndian, ByteOrder};
use dc_name::Name;
use dc_types::class;

/// Room for the greatest query behind its length: 2 bytes, a header of 12, a name of 255, a type and a class.
pub type QueryBytes = [u8; 273];

/// The flags of a query that wants recursion.
const RECURSION_DESIRED: u16 = 256;

/// Writes a query of one question, of class IN, behind its length of two bytes, as it goes over TCP; over UDP the length is
/// left off. Answers the length of the message, which doesn't count these two bytes (after djbdns' dns_transmit.c).
pub fn write_query(name: &Name, qtype: u16, id: u16, recursive: bool, out: &mut QueryBytes) -> usize
    ensures length { result ≡ length (model.query name.now qtype id recursive) }
    ensures bytes { take (result + 2) out.new ≡ model.framed (model.query name.now qtype id recursive) }
    ensures most { result ≤ 271 }
{
    let wire = name.wire();
    let len = 16 + wire.len();
    let behind = 14 + wire.len();
    put_header(out, len as u16, id, flags(recursive));
    put(out, 14, wire);
    put_u16(out, behind, qtype);
    put_u16(out, behind + 2, class::IN);
    len
}

/// The flags of a query.
fn flags(recursive: bool) -> u16
    ensures { result ≡ model.query_flags recursive }
{
    if recursive { RECURSION_DESIRED } else { 0 }
}

/// Writes a message's length, and its header with one question and no record.
fn put_header(out: &mut [u8], len: u16, id: u16, flags: u16)
    requires { 14 ≤ length out.old }
    ensures front { take 14 out.new ≡ model.u16 len ++ (model.u16 id ++ (model.u16 flags ++ (model.u16 1 ++ replicate 6 0))) }
    ensures len { length out.new ≡ length out.old }
{
    put_u16(out, 0, len);
    put_u16(out, 2, id);
    put_u16(out, 4, flags);
    put_u16(out, 6, 1);
    put(out, 8, &[0; 6]);
}

/// Writes bytes at a place.
fn put(out: &mut [u8], at: usize, bytes: &[u8])
    requires { at + length bytes.now ≤ length out.old }
    ensures front { take (at + length bytes.now) out.new ≡ take at out.old ++ bytes.now }
    ensures len { length out.new ≡ length out.old }
{
    out[at..at + bytes.len()].copy_from_slice(bytes);
}

/// Writes a number at a place, the high byte first.
fn put_u16(out: &mut [u8], at: usize, number: u16)
    requires { at + 2 ≤ length out.old }
    ensures front { take (at + 2) out.new ≡ take at out.old ++ model.u16 number }
    ensures len { length out.new ≡ length out.old }
{
    BigEndian::write_u16(&mut out[at..at + 2], number);
}
