//! The records of a packet's message, by their numbers.
ghost use Rattle.std.specs.Prelude.{◌≡◌, ◌<◌, ◌≤◌, length};
ghost use Rattle.dc_model.specs.Limits.{longest_packet};
ghost use Rattle.dc_model.specs.Marks as marks;
ghost use Rattle.dc_packet.specs.Data.{body_of};
ghost use Rattle.dc_packet.specs.Rows.{AreRowsOf, message_in, named_section, row_of};
ghost use Rattle.dc_marks.specs.Places.{record_in};

use dc_name::Name;
use dc_packet::{Data, Message, Rr, Section, Table};

/// The message that a packet is, by the table that was read from it.
pub(crate) fn said<'a>(packet: &'a [u8], table: &'a Table) -> Message<'a>
    requires packet { length packet.now ≤ longest_packet }
    requires table { AreRowsOf packet.now table.now }
    ensures { result ≡ message_in packet.now }
{
    Message::new(packet, table)
}

/// The places, type, class and TTL of the record of this number.
pub(crate) fn row(message: &Message<'_>, i: usize) -> Rr
    requires { i < length message.now.records }
    ensures { result ≡ row_of (record_in message.now i) }
{
    message.rr(i)
}

/// The owner of the record of this number.
pub(crate) fn owner(message: &Message<'_>, i: usize) -> Name
    requires { i < length message.now.records }
    ensures { result ≡ (record_in message.now i).owner }
{
    message.owner(i)
}

/// The data of the record of this number.
pub(crate) fn data<'a>(message: &Message<'a>, i: usize) -> Data<'a>
    requires { i < length message.now.records }
    ensures { body_of result ≡ (record_in message.now i).body }
{
    message.data(i)
}

/// The name in data, or the root where there is none.
pub(crate) fn host_of(data: Data<'_>) -> Name
    ensures { result ≡ marks.host_of (body_of «data».entry) }
{
    match data {
        Data::Host(name) => name,
        Data::Bytes(_) | Data::Mx(_, _) | Data::Soa(_, _, _) => Name::root(),
    }
}

/// Whether a section is that of the answers.
pub(crate) fn is_answer(section: Section) -> bool
    ensures { result ≡ marks.is_answer (named_section section) }
{
    match section {
        Section::Answer => true,
        Section::Authority | Section::Additional => false,
    }
}

/// Whether it is the authority section.
pub(crate) fn is_authority(section: Section) -> bool
    ensures { result ≡ marks.is_authority (named_section section) }
{
    match section {
        Section::Authority => true,
        Section::Answer | Section::Additional => false,
    }
}
