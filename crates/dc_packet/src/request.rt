//! Requests of clients.
ghost use Rattle.std.specs.Prelude.{◌≡◌, ◌≤◌, ◌==◌, ◌||◌, length, IfSome, option_map};
ghost use Rattle.dc_model.specs.Name.{IsName};
ghost use Rattle.dc_model.specs.Message as model;
ghost use Rattle.dc_packet.specs.Question.{asked};

use crate::number::u16_at;
use crate::question::{HEADER, question_of};
use dc_name::Name;
use dc_types::class;

/// What a client asks.
#[derive(Debug, Drop)]
pub struct Request {
    /// The number by which the client knows the reply.
    pub id: u16,
    /// The name asked.
    pub name: Name,
    /// The type asked.
    pub qtype: u16,
    /// The class asked: IN or ANY.
    pub qclass: u16,
}

/// The request that a packet is: a standard query for one name, whole and with recursion wanted, of class IN or ANY. `None`
/// for every other packet. What stands behind the question isn't looked at.
#[tactic(auto, unfolding(dc_model::specs::Message::request_of))]
pub fn read_request(packet: &[u8]) -> Option<Request>
    requires { length packet.now ≤ 65535 }
    ensures request { option_map asked result ≡ model.request_of packet.now }
    ensures name { IfSome result (λ r. IsName r.name) }
{
    if packet.len() < HEADER {
        return None;
    }
    if !asks(u16_at(packet, 2)) {
        return None;
    }
    let question = question_of(packet)?;
    if !is_served(question.class) {
        return None;
    }
    Some(Request {
        id: u16_at(packet, 0),
        name: question.name,
        qtype: question.kind,
        qclass: question.class,
    })
}

/// Whether a class is IN or ANY.
fn is_served(class: u16) -> bool
    ensures { result ≡ (class == model.class_in || class == model.class_any) }
{
    class == class::IN || class == class::ANY
}

/// Whether flags are those of a standard query, whole, that asks for recursion (RFC 1035, 4.1.1).
fn asks(flags: u16) -> bool
    ensures { result ≡ model.asks flags }
{
    let response = flags / 32768;
    let opcode = flags / 2048 % 16;
    let truncated = flags / 512 % 2;
    let recursion = flags / 256 % 2;
    response == 0 && opcode == 0 && truncated == 0 && recursion == 1
}
