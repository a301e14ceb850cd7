//! The records of a message, by their places in the packet.
ghost use Rattle.std.specs.Prelude.{◌≡◌, ◌≤◌, ◌<◌, ◌↔◌, length, IfOk, IfErr, OnErr, MatchResult, None, Some, slice_get};
ghost use Rattle.dc_model.specs.Message as model;
ghost use Rattle.dc_packet.specs.Rows.{AreRowsOf, no_rows};

use crate::Malformed;
use crate::number::u16_at;
use crate::record::{Rr, Section};
use crate::rows::{PLACES, read_rows};
use std::alloc::{AllocError, Global};
use std::marker::Model;

/// The response code of a message, and its records by their places in the packet. There is room for every message that fits
/// into 65535 bytes; the memory is taken once, by `new`.
#[derive(Drop)]
pub struct Table {
    rows: Vec<Rr>,
    rcode: u8,
}

impl Model for Table {
    ghost use Rattle.std.specs.Prelude.{◌≤◌, vec_len, vec_capacity};
    ghost use Rattle.dc_packet.specs.Rows.{Rows};

    ghost Value = { Rows };

    ghost view = { λ t. record { rcode = t.rcode; rows = t.rows.items } };

    ghost invariant = { λ t. (5957 ≤ vec_capacity t.rows) × (vec_len t.rows ≤ 5956) };
}

impl Table {
    /// A table of no message. It takes memory for 5957 records.
    pub fn new(alloc: Global) -> Result<Table, AllocError>
        ensures { IfOk result (λ t. t ≡ no_rows) }
    {
        let rows = Vec::with_capacity(alloc, PLACES)?;
        Ok(Table { rows, rcode: 0 })
    }

    /// Reads a message: its one question, and all its records. Refused exactly where the packet is malformed; the table is then
    /// that of no message.
    pub fn read(&mut self, packet: &[u8]) -> Result<(), Malformed>
        requires { length packet.now ≤ 65535 }
        ensures read { MatchResult result (λ _. AreRowsOf packet.now self.new) (λ _. model.message_of packet.now ≡ None) }
        ensures refused { OnErr result (self.new ≡ no_rows) }
    {
        self.rcode = 0;
        let Some(()) = read_rows(&mut self.rows, packet) else {
            self.rows.clear();
            return Err(Malformed);
        };
        self.rcode = (u16_at(packet, 2) % 16) as u8;
        Ok(())
    }

    /// The number of records.
    pub fn count(&self) -> usize
        ensures value { result ≡ length self.now.rows }
        ensures most { result ≤ 5956 }
    {
        self.rows.len()
    }

    /// The record of this number, counted from 0.
    pub fn rr(&self, i: usize) -> Rr
        requires { i < length self.now.rows }
        ensures { slice_get self.now.rows i ≡ Some result }
    {
        self.rows[i]
    }

    /// The response code (RFC 1035, 4.1.1); 0 where there is no message.
    pub fn rcode(&self) -> u8
        ensures { result ≡ self.now.rcode }
    {
        self.rcode
    }
}
