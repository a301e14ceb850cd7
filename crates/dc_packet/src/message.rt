//! Messages as they were read.
ghost use Rattle.std.specs.Prelude.{◌≡◌, ◌≤◌, ◌<◌, length, option_map, Some, slice_get};
ghost use Rattle.dc_model.specs.Name.{IsName};
ghost use Rattle.dc_model.specs.Message as model;
ghost use Rattle.dc_packet.specs.Data.{body_of};
ghost use Rattle.dc_packet.specs.Rows.{AreRowsOf, data_of, owner_of, row_of};

use crate::Table;
use crate::data::{Data, data_at, form_of};
use crate::name::read_name;
use crate::record::Rr;
use dc_name::Name;
use std::marker::Model;

/// A message: a packet, with the table that was read from it. Contracts see the message itself, with all its records.
#[derive(Drop)]
pub struct Message<'a> {
    packet: &'a [u8],
    table: &'a Table,
}

impl<'a> Model for Message<'a> {
    ghost use Rattle.std.specs.Prelude.{◌≤◌, length};
    ghost use Rattle.dc_model.specs.Message.{Message as Said};
    ghost use Rattle.dc_packet.specs.Rows.{AreRowsOf, message_in};

    ghost Value = { Said };

    ghost view = { λ m. message_in m.packet.now };

    ghost invariant = { λ m. AreRowsOf m.packet.now m.table.now × (length m.packet.now ≤ 65535) };
}

impl<'a> Message<'a> {
    /// The message of a packet, by the table that was read from it.
    pub fn new(packet: &'a [u8], table: &'a Table) -> Message<'a>
        requires packet { length packet.now ≤ 65535 }
        requires table { AreRowsOf packet.now table.now }
        ensures { model.message_of packet.now ≡ Some result }
    {
        Message { packet, table }
    }

    /// The number of records.
    pub fn count(&self) -> usize
        ensures value { result ≡ length self.now.records }
        ensures most { result ≤ 5956 }
    {
        self.table.count()
    }

    /// The response code.
    pub fn rcode(&self) -> u8
        ensures { result ≡ model.rcode self.now }
    {
        self.table.rcode()
    }

    /// The places of the record of this number, counted from 0, with its section, type, class and TTL.
    pub fn rr(&self, i: usize) -> Rr
        requires { i < length self.now.records }
        ensures { option_map row_of (slice_get self.now.records i) ≡ Some result }
    {
        self.table.rr(i)
    }

    /// The owner of the record of this number.
    pub fn owner(&self, i: usize) -> Name
        requires { i < length self.now.records }
        ensures owner { option_map owner_of (slice_get self.now.records i) ≡ Some result }
        ensures name { IsName result }
    {
        let rr = self.table.rr(i);
        match read_name(self.packet, rr.owner) {
            Ok((name, _)) => name,
            Err(_) => unreachable!(),
        }
    }

    /// The data of the record of this number.
    pub fn data(&self, i: usize) -> Data<'a>
        requires { i < length self.now.records }
        ensures { option_map data_of (slice_get self.now.records i) ≡ Some (body_of result) }
    {
        let rr = self.table.rr(i);
        match data_at(self.packet, form_of(rr.kind, rr.class), rr.at, rr.len) {
            Some(data) => data,
            None => unreachable!(),
        }
    }
}
