//! The open connections.
ghost use Rattle.std.specs.Prelude.{◌≡◌, ◌≤◌, ◌<◌, ◌+◌, ◌==◌, ◌++◌, [], ◌∷◌, length, map, find, option_map, vec_capacity, None, IfOk, IfSome, true};
ghost use Rattle.dc_model.specs.Limits.{longest_gathered, longest_packet, most_connections};
ghost use Rattle.dc_model.specs.Transmission.{is_whole};
ghost use Rattle.dc_machine.specs.Machine.{with_connection, without_connection, renewed, first_message};
ghost use Rattle.dc_connections.specs.Places.{connection_at, has_number, opened, with_more, with_less, AreApart};
ghost use Rattle.dc_connections.specs.Entries.{connection_of, connections_of};

use crate::entry::Entry;
use crate::stream::Stream;
use dc_limits::MOST_CONNECTIONS;
use std::alloc::{AllocError, Global};
use std::marker::Model;

/// The open connections, in the order of opening, 20 at most. It takes all memory in `new`.
#[derive(Drop)]
pub struct Connections {
    entries: Vec<Entry>,
    spare: Vec<Stream>,
}

impl Model for Connections {
    ghost use Rattle.std.specs.Prelude.{List};
    ghost use Rattle.dc_machine.specs.Machine.{Connection};

    ghost Value = { List Connection };

    ghost use Rattle.dc_connections.specs.Held.{open_of, IsKept};

    ghost view = { open_of };

    ghost invariant = { IsKept };
}

/// The place of the connection of this number.
fn find_number(entries: &[Entry], number: u64) -> Option<usize>
    ensures found { option_map (connection_at (connections_of entries.now)) result ≡ find (has_number number) (connections_of entries.now) }
    ensures place { IfSome result (λ i. i < length entries.now) }
{
    for i in 0..entries.len() {
        if entries[i].number == number {
            return Some(i);
        }
    }
    None
}

/// Streams with no bytes, one for each connection.
fn streams(alloc: Global) -> Result<Vec<Stream>, AllocError>
    ensures len { IfOk result (λ v. length v.items ≡ most_connections) }
    ensures room { IfOk result (λ v. 20 ≤ vec_capacity v) }
{
    let mut streams = Vec::with_capacity(alloc, MOST_CONNECTIONS)?;
    for _n in 0..MOST_CONNECTIONS {
        streams.push(Stream::new(alloc)?).unwrap();
    }
    Ok(streams)
}

impl Connections {
    /// None is open.
    pub fn new(alloc: Global) -> Result<Connections, AllocError>
        ensures { IfOk result (λ cs. cs ≡ []) }
    {
        Ok(Connections {
            entries: Vec::with_capacity(alloc, MOST_CONNECTIONS)?,
            spare: streams(alloc)?,
        })
    }

    /// How many are open.
    pub fn len(&self) -> usize
        ensures len { result ≡ length self.now }
        ensures most { result ≤ most_connections }
        ensures apart { AreApart self.now }
    {
        self.entries.len()
    }

    /// The place of the connection of this number. `None` comes exactly where none that is open has it.
    pub fn find(&self, number: u64) -> Option<usize>
        ensures found { option_map (connection_at self.now) result ≡ find (has_number number) self.now }
        ensures place { IfSome result (λ i. i < length self.now) }
        ensures apart { AreApart self.now }
    {
        find_number(&self.entries, number)
    }

    /// The connection at a place.
    fn entry(&self, i: usize) -> &Entry
        requires { i < length self.now }
        ensures { connection_of result.now ≡ connection_at self.now i }
    {
        &self.entries[i]
    }

    /// The number of the connection at a place.
    pub fn number(&self, i: usize) -> u64
        requires { i < length self.now }
        ensures { result ≡ (connection_at self.now i).number }
    {
        self.entry(i).number
    }

    /// The client's address, of the connection at a place.
    pub fn addr(&self, i: usize) -> [u8; 4]
        requires { i < length self.now }
        ensures { result ≡ (connection_at self.now i).addr }
    {
        self.entry(i).addr
    }

    /// The client's port, of the connection at a place.
    pub fn port(&self, i: usize) -> u16
        requires { i < length self.now }
        ensures { result ≡ (connection_at self.now i).port }
    {
        self.entry(i).port
    }

    /// The moment, in milliseconds, at which the connection at a place is due.
    pub fn deadline(&self, i: usize) -> u64
        requires { i < length self.now }
        ensures { result ≡ (connection_at self.now i).deadline }
    {
        self.entry(i).deadline
    }

    /// How many bytes came on the connection at a place and weren't used.
    pub fn gathered_len(&self, i: usize) -> usize
        requires { i < length self.now }
        ensures len { result ≡ length (connection_at self.now i).gathered }
        ensures most { result ≤ longest_gathered }
    {
        self.entry(i).stream.bytes().len()
    }

    /// Whether a whole message came on the connection at a place (RFC 1035, 4.2.2).
    pub fn is_whole(&self, i: usize) -> bool
        requires { i < length self.now }
        ensures { result ≡ is_whole (connection_at self.now i).gathered }
    {
        self.entry(i).stream.is_whole()
    }

    /// The first message that came on the connection at a place, without its length.
    pub fn message(&self, i: usize) -> &[u8]
        requires place { i < length self.now }
        requires whole { is_whole (connection_at self.now i).gathered ≡ true }
        ensures message { result.now ≡ first_message (connection_at self.now i).gathered }
        ensures most { length result.now ≤ longest_packet }
    {
        self.entry(i).stream.message()
    }

    /// Opens a connection with no bytes, behind the others.
    pub fn open(&mut self, number: u64, addr: [u8; 4], port: u16, deadline: u64)
        requires new { find (has_number number) self.old ≡ None }
        requires room { length self.old < most_connections }
        ensures connections { self.new ≡ self.old ++ opened number addr port deadline ∷ [] }
        ensures len { length self.new ≡ length self.old + 1 }
    {
        let mut stream = self.spare.pop().unwrap();
        stream.clear();
        let entry = Entry {
            number,
            addr,
            port,
            deadline,
            stream,
        };
        self.entries.push(entry).unwrap();
    }

    /// Closes the connection at a place. The others keep their order.
    pub fn close(&mut self, i: usize)
        requires { i < length self.old }
        ensures connections { self.new ≡ without_connection (connection_at self.old i).number self.old }
        ensures len { length self.new + 1 ≡ length self.old }
    {
        let entry = self.entries.remove(i);
        self.spare.push(entry.stream).unwrap();
    }

    /// Puts bytes behind those that came on the connection at a place.
    pub fn append(&mut self, i: usize, bytes: &[u8])
        requires place { i < length self.old }
        requires room { length (connection_at self.old i).gathered + length bytes.now ≤ longest_gathered }
        ensures connections { self.new ≡ with_connection (with_more bytes.now (connection_at self.old i)) self.old }
        ensures at { connection_at self.new i ≡ with_more bytes.now (connection_at self.old i) }
        ensures len { length self.new ≡ length self.old }
    {
        let receiver = &mut self.entries[i];
        receiver.stream.append(bytes);
    }

    /// Takes the first message off the bytes that came on the connection at a place.
    pub fn take_off(&mut self, i: usize)
        requires place { i < length self.old }
        requires whole { is_whole (connection_at self.old i).gathered ≡ true }
        ensures connections { self.new ≡ with_connection (with_less (connection_at self.old i)) self.old }
        ensures at { connection_at self.new i ≡ with_less (connection_at self.old i) }
        ensures len { length self.new ≡ length self.old }
    {
        let entry = &mut self.entries[i];
        entry.stream.take_off();
    }

    /// Sets the deadline of the connection of this number, if one is open, in milliseconds.
    pub fn renew(&mut self, number: u64, deadline: u64)
        ensures connections { self.new ≡ map (renewed number deadline) self.old }
        ensures len { length self.new ≡ length self.old }
    {
        if let Some(i) = self.find(number) {
            let entry = &mut self.entries[i];
            entry.deadline = deadline;
        }
    }
}
