//! Frames and aliases (after djbdns' query.c).
ghost use Rattle.std.specs.Prelude.{◌≡◌, ◌<◌, [], ◌∷◌, ◌++◌, length, MatchOption, drop};
ghost use Rattle.dc_model.specs.Limits.{most_hosts};
ghost use Rattle.dc_model.specs.Places as places;
ghost use Rattle.dc_machine.specs.Query as machine;
ghost use Rattle.dc_frames.specs.View.{frame_of};

use crate::place::place;
use arrayvec::ArrayVec;
use dc_name::Name;

/// A name that is looked for.
#[derive(Drop)]
pub struct Frame {
    /// The name.
    pub name: Name,
    /// The zone whose servers are asked.
    pub control: Name,
    /// The names of servers whose addresses are still to be looked for, the next one first.
    pub hosts: ArrayVec<Name, 16>,
    /// The addresses of servers, 0.0.0.0 in an empty place.
    pub places: [[u8; 4]; 16],
}

impl Default for Frame {
    fn default() -> Frame {
        Frame::new(Name::root())
    }
}

impl Frame {
    /// A frame that looks for a name, with no server known.
    pub fn new(name: Name) -> Frame
        ensures { frame_of result ≡ machine.frame_for name }
    {
        Frame {
            name,
            control: Name::root(),
            hosts: ArrayVec::new(),
            places: [[0; 4]; 16],
        }
    }

    /// Looks for another name, with no server known.
    pub(crate) fn look_for(&mut self, name: &Name)
        ensures { frame_of self.new ≡ machine.frame_for name.now }
    {
        self.name.copy_from(name);
        self.control.set_root();
        self.hosts.clear();
        self.places = [[0; 4]; 16];
    }

    /// Takes the next server name.
    pub(crate) fn take_host(&mut self) -> Option<Name>
        ensures { MatchOption result (((frame_of self.old).hosts ≡ []) × (frame_of self.new ≡ frame_of self.old))
            (λ name. ((frame_of self.old).hosts ≡ name ∷ drop 1 (frame_of self.old).hosts)
            × (frame_of self.new ≡ record (frame_of self.old) { hosts = drop 1 (frame_of self.old).hosts })) }
    {
        if self.hosts.is_empty() {
            return None;
        }
        Some(self.hosts.remove(0))
    }

    /// The servers of a zone are to be asked, at these places. No server name is to do.
    pub(crate) fn ask_zone(&mut self, control: Name, places: &[[u8; 4]; 16])
        ensures { frame_of self.new ≡ record { name = (frame_of self.old).name; control = control; hosts = []; places = places.now } }
    {
        self.control = control;
        self.hosts.clear();
        self.places = *places;
    }

    /// Adds a server name to those that are to do.
    pub(crate) fn push_host(&mut self, host: Name)
        requires { length (frame_of self.old).hosts < most_hosts }
        ensures { frame_of self.new ≡ record (frame_of self.old) { hosts = (frame_of self.old).hosts ++ host ∷ [] } }
    {
        self.hosts.push(host);
    }

    /// Adds an address of a server.
    pub(crate) fn add_address(&mut self, address: [u8; 4])
        ensures { frame_of self.new ≡ record (frame_of self.old) { places = places.add_address address (frame_of self.old).places } }
    {
        place(&mut self.places, address);
    }
}

/// An alias that was followed.
#[derive(Drop)]
pub struct Renamed {
    /// The name that is an alias.
    pub name: Name,
    /// For how many seconds it is known.
    pub ttl: u32,
}

impl Default for Renamed {
    fn default() -> Renamed {
        Renamed {
            name: Name::root(),
            ttl: 0,
        }
    }
}
