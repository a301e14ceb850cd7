//! The marks of a message for a name.
ghost use Rattle.std.specs.Prelude.{◌≡◌, ◌<◌, if◌then◌else◌, length};
ghost use Rattle.dc_model.specs.Message as model;
ghost use Rattle.dc_model.specs.Marks as marks;
ghost use Rattle.dc_packet.specs.Rows.{row_of};
ghost use Rattle.dc_marks.specs.Places.{record_in};
ghost use Rattle.dc_marks.specs.Marked.{AreMarks, answers, has_authority, found_more};

use crate::row::{is_answer, is_authority, owns, row};
use dc_name::Name;
use dc_packet::{Message, Rr};
use dc_types::{class, rtype};

/// What the records of class IN say of a name and a wanted type. The numbers are those of records in the table.
#[derive(Clone, Copy, Debug, PartialEq, Eq)]
pub struct Found {
    /// Whether the name has an answer of a wanted type.
    pub out: bool,
    /// The last CNAME that answers for the name, where CNAME isn't wanted.
    pub alias: Option<usize>,
    /// The last SOA of the authority section.
    pub soa: Option<usize>,
    /// The last NS of the authority section.
    pub referral: Option<usize>,
}

/// Whether a type is wanted: it is the one asked for, or ANY is asked for.
fn is_wanted(wanted: u16, kind: u16) -> bool
    ensures { result ≡ marks.is_wanted wanted kind }
{
    kind == wanted || wanted == rtype::ANY
}

/// Whether the record of this number answers for a name.
fn answers_for(message: &Message<'_>, i: usize, rr: &Rr, name: &Name) -> bool
    requires number { i < length message.now.records }
    requires row { rr.now ≡ row_of (record_in message.now i) }
    ensures { result ≡ answers name.now (record_in message.now i) }
{
    rr.class == class::IN && is_answer(rr.section) && owns(message, i, name)
}

/// Whether a record stands in the authority section.
fn in_authority(rr: &Rr) -> bool
    ensures { (r : model.Record) → rr.now ≡ row_of r → result ≡ has_authority r }
{
    rr.class == class::IN && is_authority(rr.section)
}

/// A number, where it counts, or else the one that was there.
fn number(counts: bool, i: usize, before: Option<usize>) -> Option<usize>
    ensures { result ≡ (if counts then Some i else before) }
{
    if counts { Some(i) } else { before }
}

/// The marks with those of one record more.
fn more(found: Found, message: &Message<'_>, i: usize, name: &Name, wanted: u16) -> Found
    requires { i < length message.now.records }
    ensures { result ≡ found_more name.now wanted i (record_in message.now i) found }
{
    let rr = row(message, i);
    let answers = answers_for(message, i, &rr, name);
    let authority = in_authority(&rr);
    let renames = answers & ((rr.kind == rtype::CNAME) & !is_wanted(wanted, rtype::CNAME));
    Found {
        out: found.out | (answers & is_wanted(wanted, rr.kind)),
        alias: number(renames, i, found.alias),
        soa: number(authority & (rr.kind == rtype::SOA), i, found.soa),
        referral: number(authority & (rr.kind == rtype::NS), i, found.referral),
    }
}

/// The marks of a message for a name and a wanted type.
#[tactic(auto, using(crate::proofs::MarkLemmas::marking))]
pub(crate) fn marks(message: &Message<'_>, name: &Name, wanted: u16) -> Found
    ensures { AreMarks message.now result (marks.marks_of name.now wanted message.now) }
{
    let mut found = Found {
        out: false,
        alias: None,
        soa: None,
        referral: None,
    };
    for i in 0..message.count() {
        found = more(found, message, i, name, wanted);
    }
    found
}
