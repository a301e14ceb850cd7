//! What is looked at in an answer's header (RFC 1035, 4.1.1).
ghost use Rattle.std.specs.Prelude.{◌≡◌, ◌≤◌, length};
ghost use Rattle.dc_model.specs.Transmission.{is_truncated, is_served};

use dc_packet::u16_at;

/// Whether an answer was cut short: TC is set.
pub(crate) fn is_truncated(packet: &[u8]) -> bool
    requires { 12 ≤ length packet.now }
    ensures { result ≡ is_truncated packet.now }
{
    u16_at(packet, 2) / 512 % 2 == 1
}

/// Whether a server could serve: the rcode is 0, or 3 for a name that doesn't exist.
pub(crate) fn is_served(packet: &[u8]) -> bool
    requires { 12 ≤ length packet.now }
    ensures { result ≡ is_served packet.now }
{
    let rcode = u16_at(packet, 2) % 16;
    rcode == 0 || rcode == 3
}
