//! The records of a message, by their numbers.
ghost use Rattle.std.specs.Prelude.{◌≡◌, ◌<◌, length};
ghost use Rattle.dc_model.specs.Name.{same};
ghost use Rattle.dc_model.specs.Marks as marks;
ghost use Rattle.dc_packet.specs.Rows.{row_of, named_section};
ghost use Rattle.dc_marks.specs.Places.{record_in};

use dc_name::Name;
use dc_packet::{Message, Rr, Section};

/// The places, type and class of the record of this number.
pub(crate) fn row(message: &Message<'_>, i: usize) -> Rr
    requires { i < length message.now.records }
    ensures { result ≡ row_of (record_in message.now i) }
{
    message.rr(i)
}

/// Whether the record of this number is owned by a name, case aside.
pub(crate) fn owns(message: &Message<'_>, i: usize, name: &Name) -> bool
    requires { i < length message.now.records }
    ensures { result ≡ same (record_in message.now i).owner name.now }
{
    message.owner(i).same(name)
}

/// Whether a section is that of the answers.
pub(crate) fn is_answer(section: Section) -> bool
    ensures { result ≡ marks.is_answer (named_section section) }
{
    match section {
        Section::Answer => true,
        Section::Authority | Section::Additional => false,
    }
}

/// Whether it is the authority section.
pub(crate) fn is_authority(section: Section) -> bool
    ensures { result ≡ marks.is_authority (named_section section) }
{
    match section {
        Section::Authority => true,
        Section::Answer | Section::Additional => false,
    }
}
