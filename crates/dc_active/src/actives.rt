//! The active queries.
ghost use Rattle.std.specs.Prelude.{◌≡◌, ◌<◌, ◌≤◌, ◌+◌, ◌-◌, ◌==◌, [], length, Some, IsNone, IfOk, IfSome, option_map, slice_get};
ghost use Rattle.std.specs.List.{list_any, position, remove};
ghost use Rattle.dc_model.specs.Limits.{most_works};
ghost use Rattle.dc_machine.specs.Machine.{is_udp, is_on, udp_queries, with_query};
ghost use Rattle.dc_active.specs.View.{client_of, active_of, IsWaiting};
ghost use Rattle.dc_active.specs.Places.{IsEarliestOf};

use crate::client::Client;
use crate::entry;
use crate::entry::Entry;
use crate::work::{Taken, Work, spare_works};
use dc_limits::MOST_WORKS;
use std::alloc::{AllocError, Global};
use std::marker::Model;

/// The active queries in the order of their serial numbers, and works for further ones: 221 together. It takes its memory in `new`.
///
/// Contracts see the active queries as the machine does, and the number of spare works.
#[derive(Drop)]
pub struct Actives {
    entries: Vec<Entry>,
    spare: Vec<Box<Work>>,
    udp: usize,
}

impl Model for Actives {
    ghost use Rattle.dc_active.specs.Roll.{Roll};

    ghost Value = { Roll };

    ghost use Rattle.dc_active.specs.Held.{roll_of, IsKept};

    ghost view = { roll_of };

    ghost invariant = { IsKept };
}

impl Actives {
    /// No active query, and 221 spare works.
    pub fn new(alloc: Global) -> Result<Actives, AllocError>
        ensures { IfOk result (λ actives. actives ≡ record { queries = []; spare = most_works }) }
    {
        Ok(Actives {
            entries: Vec::with_capacity(alloc, MOST_WORKS)?,
            spare: spare_works(alloc)?,
            udp: 0,
        })
    }

    /// How many queries are active.
    pub fn len(&self) -> usize
        ensures value { result ≡ length self.now.queries }
        ensures most { length self.now.queries + self.now.spare ≤ most_works }
    {
        self.entries.len()
    }

    /// How many of them are of clients over UDP.
    pub fn udp(&self) -> usize
        ensures value { result ≡ length (udp_queries self.now.queries) }
        ensures most { result ≤ most_works }
    {
        self.udp
    }

    /// How many spare works there are.
    pub fn spare(&self) -> usize
        ensures { result ≡ self.now.spare }
    {
        self.spare.len()
    }

    /// The place of the first query with this link, counted from 0.
    pub fn find_link(&self, link: u64) -> Option<usize>
        ensures place { result ≡ position (λ a. a.attempt.link == link) self.now.queries }
        ensures range { IfSome result (λ i. i < length self.now.queries) }
    {
        entry::find_link(&self.entries, link)
    }

    /// The place of the first query of a client over UDP.
    pub fn first_udp(&self) -> Option<usize>
        ensures place { result ≡ position (λ a. is_udp a.client) self.now.queries }
        ensures range { IfSome result (λ i. i < length self.now.queries) }
    {
        entry::find_udp(&self.entries)
    }

    /// The place of the first query on the connection of this number.
    pub fn find_connection(&self, number: u64) -> Option<usize>
        ensures place { result ≡ position (λ a. is_on number a.client) self.now.queries }
        ensures range { IfSome result (λ i. i < length self.now.queries) }
    {
        entry::find_connection(&self.entries, number)
    }

    /// Whether a query is on the connection of this number.
    pub fn is_busy(&self, number: u64) -> bool
        ensures { result ≡ list_any (λ a. is_on number a.client) self.now.queries }
    {
        entry::is_busy(&self.entries, number)
    }

    /// The place of the query that is due first: the least deadline, and where two are equal the least serial number. `None` exactly
    /// where no query is active.
    pub fn earliest(&self) -> Option<usize>
        ensures place { IsEarliestOf self.now.queries self.now.queries result }
        ensures range { IfSome result (λ i. i < length self.now.queries) }
    {
        entry::earliest(&self.entries)
    }

    /// The serial number of the query at a place.
    pub fn serial(&self, i: usize) -> u64
        requires { i < length self.now.queries }
        ensures { option_map (λ a. a.serial) (slice_get self.now.queries i) ≡ Some result }
    {
        self.entries[i].serial
    }

    /// The client of the query at a place.
    pub fn client(&self, i: usize) -> Client
        requires { i < length self.now.queries }
        ensures { option_map (λ a. a.client) (slice_get self.now.queries i) ≡ Some (client_of result) }
    {
        self.entries[i].client
    }

    /// When the attempt of the query at a place ends, in milliseconds.
    pub fn deadline(&self, i: usize) -> u64
        requires { i < length self.now.queries }
        ensures { option_map (λ a. a.attempt.deadline) (slice_get self.now.queries i) ≡ Some result }
    {
        self.entries[i].deadline
    }

    /// Takes out the query at a place.
    pub fn take(&mut self, i: usize) -> Taken
        requires { i < length self.old.queries }
        ensures taken { slice_get self.old.queries i ≡ Some (active_of result) }
        ensures rest { self.new ≡ record self.old { queries = remove self.old.queries i } }
        ensures waiting { IsWaiting result.work.value }
    {
        let entry = self.entries.remove(i);
        self.udp -= entry.client.udp_count();
        Taken {
            serial: entry.serial,
            client: entry.client,
            work: entry.work,
        }
    }

    /// Puts in a query that waits, in the order of serial numbers.
    pub fn put(&mut self, taken: Taken)
        requires waiting { IsWaiting taken.work.value }
        requires room { length self.old.queries + self.old.spare < most_works }
        ensures { self.new ≡ record self.old { queries = with_query (active_of taken) self.old.queries } }
    {
        let place = entry::place_for(&self.entries, taken.serial);
        self.udp += taken.client.udp_count();
        self.entries.insert(place, Entry::new(taken)).unwrap();
    }

    /// Takes a spare work for a new query. Its sender is idle.
    pub fn new_work(&mut self) -> Box<Work>
        requires { 0 < self.old.spare }
        ensures rest { self.new ≡ record self.old { spare = self.old.spare - 1 } }
        ensures idle { IsNone result.value.sender.attempt }
    {
        self.spare.pop().unwrap()
    }

    /// Takes back the work of a query that ended.
    pub fn give_back(&mut self, work: Box<Work>)
        requires idle { IsNone work.value.sender.attempt }
        requires room { length self.old.queries + self.old.spare < most_works }
        ensures { self.new ≡ record self.old { spare = self.old.spare + 1 } }
    {
        self.spare.push(work).unwrap();
    }
}
