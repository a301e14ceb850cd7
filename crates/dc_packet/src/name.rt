//! Names in packets (RFC 1035, 4.1.4).
ghost use Rattle.std.specs.Prelude.{◌≡◌, ◌≤◌, ◌<◌, length, None, IfOk, MatchResult};
ghost use Rattle.dc_model.specs.Name as model;
ghost use Rattle.dc_packet.specs.Reading.{IsNameAt};

use crate::Malformed;
use crate::part::{Part, part_at};
use dc_limits::MOST_NAME_STEPS;
use dc_name::Name;

/// The name at a place, and the place behind it: behind its zero byte, or behind the first pointer.
///
/// Pointers may lead forwards and backwards. Refused where a byte past the packet's end is needed, where a length byte is 64
/// to 191, where the name has over 255 bytes, or where its bytes and the pointers followed together are more than 999.
pub fn read_name(packet: &[u8], pos: usize) -> Result<(Name, usize), Malformed>
    requires { length packet.now ≤ 65535 }
    ensures read { MatchResult result (λ r. IsNameAt packet.now pos r.0 r.1) (λ _. model.name_at packet.now pos ≡ None) }
    ensures name { IfOk result (λ r. model.IsName r.0) }
    ensures after { IfOk result (λ r. pos < r.1) }
    ensures within { IfOk result (λ r. r.1 ≤ length packet.now) }
{
    let mut name = Name::root();
    let mut pointers = 0;
    let mut after = None;
    let mut at = pos;
    loop {
        match part_at(packet, at) {
            None => return Err(Malformed),
            Some(Part::End) => return Ok((name, after.unwrap_or(at + 1))),
            Some(Part::Label(label)) => {
                if !name.push(label) {
                    return Err(Malformed);
                }
                if name.wire().len() + pointers > MOST_NAME_STEPS {
                    return Err(Malformed);
                }
                at += 1 + label.len();
            }
            Some(Part::Pointer(to)) => {
                pointers += 1;
                if name.wire().len() + pointers > MOST_NAME_STEPS {
                    return Err(Malformed);
                }
                after = after.or(Some(at + 2));
                at = to;
            }
        }
    }
}
