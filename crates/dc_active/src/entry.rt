//! The entry that an active query has: what every event looks at stands beside what only its own events need.
ghost use Rattle.std.specs.Prelude.{◌≡◌, ◌<◌, ◌+◌, ◌==◌, ◌&&◌, ◌||◌, nat_lt, length, drop};
ghost use Rattle.std.specs.List.{list_any, position, position_or_len};
ghost use Rattle.dc_machine.specs.Kept.{AllOf};
ghost use Rattle.dc_machine.specs.Machine.{is_udp, is_on};
ghost use Rattle.dc_active.specs.View.{client_of, active_of, entry_of, queries_of, IsFit, IsWaiting};
ghost use Rattle.dc_active.specs.Places.{IsEarliestOf, IsLeast};

use crate::client::Client;
use crate::work::{Taken, Work};

/// An active query, with the link and the deadline of its attempt.
#[derive(Drop)]
pub(crate) struct Entry {
    pub serial: u64,
    pub client: Client,
    pub link: u64,
    pub deadline: u64,
    pub work: Box<Work>,
}

impl Entry {
    /// The entry of a query that waits.
    pub(crate) fn new(taken: Taken) -> Entry
        requires { IsWaiting taken.work.value }
        ensures query { entry_of result ≡ active_of taken }
        ensures fit { IsFit result }
    {
        let link = taken.work.sender.link().unwrap();
        let deadline = taken.work.sender.deadline().unwrap();
        Entry {
            serial: taken.serial,
            client: taken.client,
            link,
            deadline,
            work: taken.work,
        }
    }
}

/// The place of the first query with this link.
pub(crate) fn find_link(entries: &[Entry], link: u64) -> Option<usize>
    ensures { result ≡ position (λ e. e.link == link) entries.now }
{
    entries.iter().position(|entry| entry.link == link)
}

/// The place of the first query of a client over UDP.
pub(crate) fn find_udp(entries: &[Entry]) -> Option<usize>
    ensures { result ≡ position (λ e. is_udp (client_of e.client)) entries.now }
{
    entries.iter().position(|entry| entry.client.is_udp())
}

/// The place of the first query on the connection of this number.
pub(crate) fn find_connection(entries: &[Entry], number: u64) -> Option<usize>
    ensures { result ≡ position (λ e. is_on number (client_of e.client)) entries.now }
{
    entries.iter().position(|entry| entry.client.is_on(number))
}

/// Whether a query is on the connection of this number.
pub(crate) fn is_busy(entries: &[Entry], number: u64) -> bool
    ensures { result ≡ list_any (λ e. is_on number (client_of e.client)) entries.now }
{
    entries.iter().any(|entry| entry.client.is_on(number))
}

/// The place of the first query with a greater serial number.
fn find_after(entries: &[Entry], serial: u64) -> Option<usize>
    ensures { result ≡ position (λ e. nat_lt serial e.serial) entries.now }
{
    entries.iter().position(|entry| serial < entry.serial)
}

/// The place that a query of this serial number is to have: that of the first one with a greater number, or behind all.
pub(crate) fn place_for(entries: &[Entry], serial: u64) -> usize
    ensures { result ≡ position_or_len (λ e. nat_lt serial e.serial) entries.now }
{
    find_after(entries, serial).unwrap_or(entries.len())
}

/// Whether the first is due before the second: its deadline is less, or is the same and its serial number is less.
fn is_before(first: &Entry, second: &Entry) -> bool
    ensures { result ≡ (nat_lt first.now.deadline second.now.deadline || (first.now.deadline == second.now.deadline && nat_lt first.now.serial second.now.serial)) }
{
    first.deadline < second.deadline
        || (first.deadline == second.deadline && first.serial < second.serial)
}

/// The place of the earlier one of a query and the earliest of those behind it.
fn earlier(entries: &[Entry], place: usize, behind: Option<usize>) -> usize
    requires fit { AllOf IsFit entries.now }
    requires place { place < length entries.now }
    requires behind { IsEarliestOf (drop (place + 1) (queries_of entries.now)) (queries_of entries.now) behind }
    ensures least { IsLeast (drop place (queries_of entries.now)) (queries_of entries.now) result }
{
    let Some(other) = behind else {
        return place;
    };
    if is_before(&entries[other], &entries[place]) {
        other
    } else {
        place
    }
}

/// The place of the earliest query.
pub(crate) fn earliest(entries: &[Entry]) -> Option<usize>
    requires { AllOf IsFit entries.now }
    ensures { IsEarliestOf (queries_of entries.now) (queries_of entries.now) result }
{
    let mut found = None;
    let mut place = entries.len();
    while place > 0 {
        place -= 1;
        found = Some(earlier(entries, place, found));
    }
    found
}
