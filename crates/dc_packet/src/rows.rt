//! Reading a message's records into rows.
ghost use Rattle.std.specs.Prelude.{◌≡◌, ◌+◌, ◌*◌, ◌≤◌, length, vec_len, vec_capacity, IfSome, MatchOption};
ghost use Rattle.dc_model.specs.Message as model;
ghost use Rattle.dc_packet.specs.Rows.{named_section};
ghost use Rattle.dc_packet.specs.Filling.{IsFilled, IsWhole};

use crate::number::u16_at;
use crate::question::question_of;
use crate::record::{Rr, Section, record_at};

/// The number of records for which there is room: one more than fit into a packet, since a header has 12 bytes, a question 5,
/// and a record 11 at least.
pub(crate) const PLACES: usize = 5957;

/// Reads `count` records of a section, which stand one after another from a place on, behind the rows that are there. Answers the
/// place behind the last of them, or `None` where one of them can't be read.
fn read_section(
    rows: &mut Vec<Rr>,
    packet: &[u8],
    section: Section,
    count: u16,
    mut at: usize,
) -> Option<usize>
    requires places { 5957 ≤ vec_capacity rows.old }
    requires packet { length packet.now ≤ 65535 }
    requires room { 17 + 11 * vec_len rows.old ≤ at }
    requires within { at ≤ length packet.now }
    ensures places { 5957 ≤ vec_capacity rows.new }
    ensures read { MatchOption result (model.records_at count packet.now (named_section section) at ≡ None) (λ after. IsFilled packet.now (named_section section) count at rows.old.items after rows.new.items) }
    ensures room { IfSome result (λ after. 17 + 11 * vec_len rows.new ≤ after) }
    ensures within { IfSome result (λ after. after ≤ length packet.now) }
{
    for _read in 0..count {
        let row = record_at(packet, section, at)?;
        at = row.at + row.len;
        rows.push_reserved(row);
    }
    Some(at)
}

/// Reads a message's records in place of the rows that are there. `None` where the packet is malformed.
pub(crate) fn read_rows(rows: &mut Vec<Rr>, packet: &[u8]) -> Option<()>
    requires places { 5957 ≤ vec_capacity rows.old }
    requires packet { length packet.now ≤ 65535 }
    ensures places { 5957 ≤ vec_capacity rows.new }
    ensures read { MatchOption result (model.message_of packet.now ≡ None) (λ _. IsWhole packet.now rows.new.items) }
    ensures most { IfSome result (λ _. vec_len rows.new ≤ 5956) }
    ensures header { IfSome result (λ _. 12 ≤ length packet.now) }
{
    rows.clear();
    let question = question_of(packet)?;
    let answers = read_section(
        rows,
        packet,
        Section::Answer,
        u16_at(packet, 6),
        question.after,
    )?;
    let servers = read_section(rows, packet, Section::Authority, u16_at(packet, 8), answers)?;
    read_section(
        rows,
        packet,
        Section::Additional,
        u16_at(packet, 10),
        servers,
    )?;
    Some(())
}
