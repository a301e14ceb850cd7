//! The class of a message.
ghost use Rattle.std.specs.Prelude.{◌≡◌, ◌≤◌, ◌&&◌, length};
ghost use Rattle.dc_model.specs.Limits.{longest_packet};
ghost use Rattle.dc_model.specs.Message as model;
ghost use Rattle.dc_model.specs.Marks as marks;
ghost use Rattle.dc_model.specs.Marks.{Marks};
ghost use Rattle.dc_packet.specs.Rows.{AreRowsOf, message_in};
ghost use Rattle.dc_marks.specs.Classes.{class_named};
ghost use Rattle.dc_marks.specs.Marked.{AreMarks};

use crate::mark::{Found, marks};
use dc_name::Name;
use dc_packet::{Message, Table};

/// What a message is to the resolver that asked (after djbdns' query.c; RFC 1034, 5.3.3).
#[derive(Clone, Copy, Debug, PartialEq, Eq)]
pub enum Class {
    /// The server refers to the zone asked for or to one not under it, and says nothing else.
    Lame,
    /// The name is an alias.
    Alias,
    /// The name doesn't exist.
    NxDomain,
    /// The answer is here, or there is none.
    Answer,
    /// Other servers are to be asked.
    Referral,
}

/// The response code where a name doesn't exist (RFC 1035, 4.1.1).
const NO_NAME: u8 = 3;

/// Whether the marks, with this response code, say nothing of the name.
fn says_nothing(message: &Message<'_>, found: &Found, rcode: u8) -> bool
    ensures { (k : Marks) → AreMarks message.now found.now k → result ≡ marks.says_nothing rcode k }
{
    let _ = message;
    found.alias.is_none() && rcode == 0 && !found.out && found.soa.is_none()
}

/// Whether the referral, if there is one, leads nowhere: to the control zone, or to one not under it.
fn leads_nowhere(message: &Message<'_>, found: &Found, control: &Name) -> bool
    requires { (k : Marks) × AreMarks message.now found.now k }
    ensures { (k : Marks) → AreMarks message.now found.now k → result ≡ marks.leads_nowhere control.now k.referral }
{
    match found.referral {
        Some(i) => {
            let owner = message.owner(i);
            owner.same(control) || !owner.under(control)
        }
        None => false,
    }
}

/// The class of a message that isn't lame.
fn class_by(message: &Message<'_>, found: &Found, rcode: u8) -> Class
    ensures { (k : Marks) → AreMarks message.now found.now k → result ≡ class_named (marks.class_by_alias k.alias rcode k) }
{
    let _ = message;
    if found.alias.is_some() {
        Class::Alias
    } else if rcode == NO_NAME {
        Class::NxDomain
    } else if found.out || found.soa.is_some() || found.referral.is_none() {
        Class::Answer
    } else {
        Class::Referral
    }
}

/// Whether the message is lame.
fn is_lame(message: &Message<'_>, found: &Found, rcode: u8, control: &Name) -> bool
    requires { (k : Marks) × AreMarks message.now found.now k }
    ensures { (k : Marks) → AreMarks message.now found.now k → result ≡ (marks.says_nothing rcode k && marks.leads_nowhere control.now k.referral) }
{
    says_nothing(message, found, rcode) && leads_nowhere(message, found, control)
}

/// The class of a message by its marks, where a server of the control zone was asked.
#[tactic(auto, unfolding(dc_model::specs::Marks::class_of))]
pub fn class_of(message: &Message<'_>, found: &Found, control: &Name) -> Class
    requires { (k : Marks) × AreMarks message.now found.now k }
    ensures { (k : Marks) → AreMarks message.now found.now k → result ≡ class_named (marks.class_of control.now (model.rcode message.now) k) }
{
    let rcode = message.rcode();
    if is_lame(message, found, rcode, control) {
        Class::Lame
    } else {
        class_by(message, found, rcode)
    }
}

/// The class of a packet's message for a name and a wanted type, from a server of the control zone. The table is walked once.
pub fn classify(table: &Table, packet: &[u8], name: &Name, qtype: u16, control: &Name) -> Class
    requires packet { length packet.now ≤ longest_packet }
    requires table { AreRowsOf packet.now table.now }
    ensures { result ≡ class_named (marks.class_of control.now (model.rcode (message_in packet.now)) (marks.marks_of name.now qtype (message_in packet.now))) }
{
    let message = Message::new(packet, table);
    let found = marks(&message, name, qtype);
    class_of(&message, &found, control)
}
