//! Queries.
ghost use Rattle.std.specs.Prelude.{◌≡◌, ◌≤◌, ◌<◌, ◌+◌, [], ◌∷◌, ◌++◌, length, IfOk, MatchOption, drop, slice_get};
ghost use Rattle.dc_model.specs.Limits.{most_levels, most_hosts, most_aliases};
ghost use Rattle.dc_model.specs.Places as places;
ghost use Rattle.dc_packet.specs.Question.{asked};
ghost use Rattle.dc_machine.specs.Query as machine;
ghost use Rattle.dc_frames.specs.View.{query_of, alias_of, no_request};

use crate::NoMemory;
use crate::frame::Renamed;
use crate::frames::Frames;
use crate::place::none_placed;
use arrayvec::ArrayVec;
use dc_name::Name;
use dc_packet::Request;
use dc_types::rtype;
use std::alloc::Global;

/// A query: a request, the frames with the lowest first, where each looks for the address of a server of the frame below it,
/// the aliases of the lowest frame with the oldest first, and the number of its turns.
#[derive(Drop)]
pub struct Query {
    pub request: Request,
    pub frames: Box<Frames>,
    pub aliases: Box<ArrayVec<Renamed, 16>>,
    pub turns: u32,
}

#[tactic(auto, unfolding(crate::specs::View::query_of), using(crate::proofs::Onto::steps))]
impl Query {
    /// A query of no request. It takes memory for five frames and 16 aliases.
    pub fn new(alloc: Global) -> Result<Query, NoMemory>
        ensures { IfOk result (λ q. query_of q ≡ machine.query_for no_request) }
    {
        Ok(Query {
            request: Request {
                id: 0,
                name: Name::root(),
                qtype: 0,
                qclass: 0,
            },
            frames: Box::new(alloc, Frames::new())?,
            aliases: Box::new(alloc, ArrayVec::new())?,
            turns: 0,
        })
    }

    /// Takes a request in the place of all that was there.
    pub fn take(&mut self, request: &Request)
        ensures { query_of self.new ≡ machine.query_for (asked request.now) }
    {
        self.request.id = request.id;
        self.request.name.copy_from(&request.name);
        self.request.qtype = request.qtype;
        self.request.qclass = request.qclass;
        self.frames.clear();
        self.aliases.clear();
        self.turns = 0;
    }

    /// Begins: one frame looks for the name that was asked for.
    pub fn begin(&mut self)
        ensures { query_of self.new ≡ machine.begun (query_of self.old) }
    {
        self.frames.clear();
        self.frames.raise(&self.request.name);
    }

    /// Counts a turn.
    pub fn count(&mut self)
        requires { (query_of self.old).turns < 100 }
        ensures { query_of self.new ≡ machine.counted (query_of self.old) }
    {
        self.turns += 1;
    }

    /// Removes the frame on top.
    pub fn lower(&mut self)
        requires { 0 < length (query_of self.old).frames }
        ensures { query_of self.new ≡ machine.lowered (query_of self.old) }
    {
        self.frames.lower();
    }

    /// Puts a frame on top, which looks for a name.
    pub fn raise(&mut self, name: Name)
        requires { length (query_of self.old).frames < most_levels }
        ensures { query_of self.new ≡ machine.raised (query_of self.old) name }
    {
        self.frames.raise(&name);
    }

    /// The frame on top looks for another name.
    pub fn rename(&mut self, name: Name)
        requires { 0 < length (query_of self.old).frames }
        ensures { query_of self.new ≡ machine.renamed (query_of self.old) name }
    {
        self.frames.rename(name);
    }

    /// Adds the name on top to the aliases, which is known for so many seconds.
    pub fn push_alias(&mut self, ttl: u32)
        requires some { 0 < length (query_of self.old).frames }
        requires room { length (query_of self.old).aliases < most_aliases }
        ensures { query_of self.new ≡ machine.with_alias (query_of self.old) ttl }
    {
        let name = self.frames.top().name.copy();
        self.aliases.push(Renamed { name, ttl });
    }

    /// Takes the next server name off the frame on top.
    pub fn take_host(&mut self) -> Option<Name>
        requires { 0 < length (query_of self.old).frames }
        ensures { MatchOption result (((machine.top_of (query_of self.old)).hosts ≡ []) × (query_of self.new ≡ query_of self.old))
            (λ name. ((machine.top_of (query_of self.old)).hosts ≡ name ∷ drop 1 (machine.top_of (query_of self.old)).hosts)
            × (query_of self.new ≡ machine.with_hosts (query_of self.old) (drop 1 (machine.top_of (query_of self.old)).hosts))) }
    {
        self.frames.take_host()
    }

    /// The servers of a zone are to be asked, at these places. No server name is to do.
    pub fn ask_zone(&mut self, control: Name, places: &[[u8; 4]; 16])
        requires { 0 < length (query_of self.old).frames }
        ensures { query_of self.new ≡ machine.with_zone (query_of self.old) control [] places.now }
    {
        self.frames.ask_zone(control, places);
    }

    /// Adds a server name to those that the frame on top has to do.
    pub fn push_host(&mut self, host: Name)
        requires some { 0 < length (query_of self.old).frames }
        requires room { length (machine.top_of (query_of self.old)).hosts < most_hosts }
        ensures { query_of self.new ≡ machine.with_hosts (query_of self.old) ((machine.top_of (query_of self.old)).hosts ++ host ∷ []) }
    {
        self.frames.push_host(host);
    }

    /// The frame on top has its servers at these places.
    pub fn set_places(&mut self, places: &[[u8; 4]; 16])
        requires { 0 < length (query_of self.old).frames }
        ensures { query_of self.new ≡ machine.with_places (query_of self.old) places.now }
    {
        self.frames.set_places(places);
    }

    /// Adds an address to the frame below the one on top.
    pub fn add_address(&mut self, address: [u8; 4])
        requires { 1 < length (query_of self.old).frames }
        ensures { query_of self.new ≡ machine.with_address (query_of self.old) address }
    {
        self.frames.add_address(address);
    }

    /// What was asked.
    pub fn request(&self) -> &Request
        ensures { asked result.now ≡ (query_of self.now).request }
    {
        &self.request
    }

    /// The number of turns that were counted.
    pub fn turns(&self) -> u32
        ensures { result ≡ (query_of self.now).turns }
    {
        self.turns
    }

    /// The number of frames.
    pub fn levels(&self) -> usize
        ensures value { result ≡ length (query_of self.now).frames }
        ensures most { result ≤ most_levels }
    {
        self.frames.len()
    }

    /// Whether the frame on top is the lowest.
    pub fn is_lowest(&self) -> bool
        ensures { result ≡ machine.is_lowest (query_of self.now) }
    {
        self.frames.len() <= 1
    }

    /// The type that is wanted: that of the request at the lowest frame, and above it an address.
    pub fn wanted(&self) -> u16
        ensures { result ≡ machine.wanted_of (query_of self.now) }
    {
        if self.is_lowest() {
            self.request.qtype
        } else {
            rtype::A
        }
    }

    /// The name that the frame on top looks for.
    pub fn name(&self) -> &Name
        requires { 0 < length (query_of self.now).frames }
        ensures { result.now ≡ machine.name_of (query_of self.now) }
    {
        &self.frames.top().name
    }

    /// The zone whose servers the frame on top asks.
    pub fn control(&self) -> &Name
        requires { 0 < length (query_of self.now).frames }
        ensures { result.now ≡ (machine.top_of (query_of self.now)).control }
    {
        &self.frames.top().control
    }

    /// The places of the servers of the frame on top.
    pub fn places(&self) -> &[[u8; 4]; 16]
        requires { 0 < length (query_of self.now).frames }
        ensures { result.now ≡ (machine.top_of (query_of self.now)).places }
    {
        &self.frames.top().places
    }

    /// Whether the frame on top knows no address.
    pub fn none_placed(&self) -> bool
        requires { 0 < length (query_of self.now).frames }
        ensures { result ≡ places.all_empty (machine.top_of (query_of self.now)).places }
    {
        none_placed(self.places())
    }

    /// The number of aliases.
    pub fn aliases(&self) -> usize
        ensures value { result ≡ length (query_of self.now).aliases }
        ensures most { result ≤ most_aliases }
    {
        self.aliases.len()
    }

    /// The alias of this number, counted from 0, the oldest first.
    pub fn alias(&self, i: usize) -> &Renamed
        requires { i < length (query_of self.now).aliases }
        ensures { slice_get (query_of self.now).aliases i ≡ Some (alias_of result.now) }
    {
        &self.aliases[i]
    }
}
