//! Numbers in packets, the high byte first (RFC 1035, 2.3.2).
ghost use Rattle.std.specs.Prelude.{◌≡◌, ◌+◌, ◌≤◌, length};
ghost use Rattle.dc_model.specs.Message as model;

use byteorder::{BigEndian, ByteOrder};

/// The number of the two bytes at a place.
pub fn u16_at(packet: &[u8], at: usize) -> u16
    requires { at + 2 ≤ length packet.now }
    ensures { result ≡ model.u16_at packet.now at }
{
    BigEndian::read_u16(&packet[at..at + 2])
}

/// The number of the four bytes at a place.
pub fn u32_at(packet: &[u8], at: usize) -> u32
    requires { at + 4 ≤ length packet.now }
    ensures { result ≡ model.u32_at packet.now at }
{
    BigEndian::read_u32(&packet[at..at + 4])
}
