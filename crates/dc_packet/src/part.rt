//! The parts of names in packets.
ghost use Rattle.std.specs.Prelude.{◌≡◌, ◌≤◌, length};
ghost use Rattle.dc_model.specs.Name as model;
ghost use Rattle.dc_packet.specs.Part.{behind_part, named_part};

use crate::number::u16_at;
use dc_limits::LONGEST_LABEL;

/// What a name goes on with at a place (RFC 1035, 4.1.4).
#[derive(Drop)]
pub(crate) enum Part<'a> {
    /// The name ends here.
    End,
    /// A label, and the name goes on behind it.
    Label(&'a [u8]),
    /// The rest of the name stands at this place.
    Pointer(usize),
}

/// The least first byte of a pointer.
const LEAST_POINTER: u8 = 192;

/// The part at a place. `None` where it needs a byte past the packet's end, or its first byte is 64 to 191.
pub(crate) fn part_at(packet: &[u8], at: usize) -> Option<Part<'_>>
    requires { length packet.now ≤ 65535 }
    ensures part { named_part result ≡ model.part_at packet.now at }
    ensures within { behind_part at result ≤ length packet.now }
{
    if at >= packet.len() {
        return None;
    }
    let first = packet[at];
    if first == 0 {
        return Some(Part::End);
    }
    if first <= LONGEST_LABEL {
        let end = at + 1 + first as usize;
        if end > packet.len() {
            return None;
        }
        return Some(Part::Label(&packet[at + 1..end]));
    }
    if first < LEAST_POINTER || at + 2 > packet.len() {
        return None;
    }
    Some(Part::Pointer(u16_at(packet, at) as usize - 0xc000))
}
