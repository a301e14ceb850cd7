//! What a message says, with the records that say so.
ghost use Rattle.std.specs.Prelude.{◌≡◌};
ghost use Rattle.dc_model.specs.Message as model;
ghost use Rattle.dc_model.specs.Marks as marks;
ghost use Rattle.dc_marks.specs.Marked.{AreMarks};
ghost use Rattle.dc_heard.specs.Said.{class_said, marks_found, IsWithin};

use dc_frames::{Class, Found, class_of};
use dc_name::Name;
use dc_packet::Message;

/// What a message says of the name that was asked for, with the number of the record that says so.
#[derive(Clone, Copy, Debug, PartialEq, Eq)]
pub(crate) enum Says {
    /// The server refers to the owner of this record, which is no help.
    Lame(usize),
    /// The name is an alias, by this record.
    Alias(usize),
    /// The name doesn't exist.
    NxDomain,
    /// The answer is here, or there is none.
    Answer,
    /// The servers of the owner of this record are to be asked.
    Referral(usize),
}

/// What a message says, where a server of the control zone was asked.
#[tactic(auto, using(crate::proofs::Saying::saying))]
pub(crate) fn said_by(message: &Message<'_>, found: &Found, control: &Name) -> Says
    requires { AreMarks message.now found.now (marks_found message.now found.now) }
    ensures class { class_said message.now result ≡ marks.class_of control.now (model.rcode message.now) (marks_found message.now found.now) }
    ensures within { IsWithin message.now result }
{
    match class_of(message, found, control) {
        Class::Lame => Says::Lame(found.referral.unwrap()),
        Class::Alias => Says::Alias(found.alias.unwrap()),
        Class::NxDomain => Says::NxDomain,
        Class::Answer => Says::Answer,
        Class::Referral => Says::Referral(found.referral.unwrap()),
    }
}
