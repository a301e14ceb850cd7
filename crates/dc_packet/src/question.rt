//! The header and the question of a message (RFC 1035, 4.1.1, 4.1.2).
ghost use Rattle.std.specs.Prelude.{◌≡◌, ◌≤◌, length, IfSome, option_map};
ghost use Rattle.dc_model.specs.Name.{IsName};
ghost use Rattle.dc_model.specs.Message as model;
ghost use Rattle.dc_packet.specs.Question.{question_read};

use crate::name::read_name;
use crate::number::u16_at;
use dc_name::Name;

/// The number of bytes in a header.
pub(crate) const HEADER: usize = 12;

/// What a message asks, and the place behind it.
#[derive(Debug, Drop)]
pub struct Question {
    /// The name asked.
    pub name: Name,
    /// The type asked.
    pub kind: u16,
    /// The class asked.
    pub class: u16,
    /// The place behind the question.
    pub after: usize,
}

/// The one question of a packet. `None` where the packet has no whole header, where its count of questions isn't 1, or where
/// the question can't be read.
pub fn question_of(packet: &[u8]) -> Option<Question>
    requires { length packet.now ≤ 65535 }
    ensures question { option_map question_read result ≡ model.question_of packet.now }
    ensures name { IfSome result (λ q. IsName q.name) }
    ensures header { IfSome result (λ q. 12 ≤ length packet.now) }
    ensures after { IfSome result (λ q. 17 ≤ q.after) }
    ensures within { IfSome result (λ q. q.after ≤ length packet.now) }
{
    if packet.len() < HEADER || u16_at(packet, 4) != 1 {
        return None;
    }
    let (name, behind) = read_name(packet, HEADER).ok()?;
    let after = behind + 4;
    if after > packet.len() {
        return None;
    }
    Some(Question {
        name,
        kind: u16_at(packet, behind),
        class: u16_at(packet, behind + 2),
        after,
    })
}
