//! The marks of a packet for a name.
ghost use Rattle.std.specs.Prelude.{◌≡◌, ◌≤◌, length};
ghost use Rattle.dc_model.specs.Limits.{longest_packet};
ghost use Rattle.dc_model.specs.Marks as marks;
ghost use Rattle.dc_packet.specs.Rows.{AreRowsOf, message_in};
ghost use Rattle.dc_marks.specs.Marked.{AreMarks};

use crate::Found;
use crate::mark::marks;
use dc_name::Name;
use dc_packet::{Message, Table};

/// The marks of a packet's message for a name and a wanted type, in one walk of its table (after djbdns' query.c). Each number
/// is that of the record that the mark is, and `None` stands exactly where there is no such record.
pub fn found(table: &Table, packet: &[u8], name: &Name, qtype: u16) -> Found
    requires packet { length packet.now ≤ longest_packet }
    requires table { AreRowsOf packet.now table.now }
    ensures { AreMarks (message_in packet.now) result (marks.marks_of name.now qtype (message_in packet.now)) }
{
    marks(&Message::new(packet, table), name, qtype)
}
