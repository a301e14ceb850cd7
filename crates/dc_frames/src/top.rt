//! The frame on top.
ghost use Rattle.std.specs.Prelude.{◌≡◌, ◌≤◌, ◌<◌, [], ◌∷◌, ◌++◌, length, MatchOption, drop};
ghost use Rattle.dc_model.specs.Limits.{most_levels, most_hosts};
ghost use Rattle.dc_model.specs.Places as model;
ghost use Rattle.dc_machine.specs.Query as machine;
ghost use Rattle.dc_frames.specs.View.{frame_of, frames_of};

use crate::frame::Frame;
use crate::frames::Frames;
use dc_name::Name;

#[tactic(auto, unfolding(crate::specs::View::frames_of), using(crate::proofs::Slots::slots))]
impl Frames {
    /// No frames.
    pub(crate) fn new() -> Frames
        ensures { frames_of result ≡ [] }
    {
        Frames {
            slots: [
                Frame::default(),
                Frame::default(),
                Frame::default(),
                Frame::default(),
                Frame::default(),
            ],
            len: 0,
        }
    }

    /// Removes all frames.
    pub(crate) fn clear(&mut self)
        ensures { frames_of self.new ≡ [] }
    {
        self.len = 0;
    }

    /// The number of frames.
    pub(crate) fn len(&self) -> usize
        ensures value { result ≡ length (frames_of self.now) }
        ensures most { result ≤ most_levels }
    {
        let slots: &[Frame] = &self.slots;
        let _ = slots.len();
        self.len
    }

    /// Puts a frame on top, which looks for a name.
    pub(crate) fn raise(&mut self, name: &Name)
        requires { length (frames_of self.old) < most_levels }
        ensures { frames_of self.new ≡ machine.frame_for name.now ∷ frames_of self.old }
    {
        let at = self.len;
        let slots = &mut self.slots;
        slots[at].look_for(name);
        self.len += 1;
    }

    /// Removes the frame on top.
    pub(crate) fn lower(&mut self)
        requires { 0 < length (frames_of self.old) }
        ensures { frames_of self.new ≡ machine.below (frames_of self.old) }
    {
        self.len -= 1;
    }

    /// The frame on top.
    pub(crate) fn top(&self) -> &Frame
        requires { 0 < length (frames_of self.now) }
        ensures { frame_of result.now ≡ machine.top (frames_of self.now) }
    {
        &self.slots[self.len - 1]
    }

    /// The frame on top looks for another name.
    pub(crate) fn rename(&mut self, name: Name)
        requires { 0 < length (frames_of self.old) }
        ensures { frames_of self.new ≡ record (machine.top (frames_of self.old)) { name = name } ∷ machine.below (frames_of self.old) }
    {
        self.slots[self.len - 1].name = name;
    }

    /// Takes the next server name off the frame on top.
    pub(crate) fn take_host(&mut self) -> Option<Name>
        requires { 0 < length (frames_of self.old) }
        ensures { MatchOption result (((machine.top (frames_of self.old)).hosts ≡ []) × (frames_of self.new ≡ frames_of self.old))
            (λ name. ((machine.top (frames_of self.old)).hosts ≡ name ∷ drop 1 (machine.top (frames_of self.old)).hosts)
            × (frames_of self.new ≡ record (machine.top (frames_of self.old)) { hosts = drop 1 (machine.top (frames_of self.old)).hosts } ∷ machine.below (frames_of self.old))) }
    {
        let at = self.len - 1;
        let slots = &mut self.slots;
        slots[at].take_host()
    }

    /// The frame on top is to ask the servers of a zone, at these places, and has no server name to do.
    pub(crate) fn ask_zone(&mut self, control: Name, places: &[[u8; 4]; 16])
        requires { 0 < length (frames_of self.old) }
        ensures { frames_of self.new ≡ record { name = (machine.top (frames_of self.old)).name; control = control; hosts = []; places = places.now } ∷ machine.below (frames_of self.old) }
    {
        let at = self.len - 1;
        let slots = &mut self.slots;
        slots[at].ask_zone(control, places);
    }

    /// Adds a server name to those that the frame on top has to do.
    pub(crate) fn push_host(&mut self, host: Name)
        requires some { 0 < length (frames_of self.old) }
        requires room { length (machine.top (frames_of self.old)).hosts < most_hosts }
        ensures { frames_of self.new ≡ record (machine.top (frames_of self.old)) { hosts = (machine.top (frames_of self.old)).hosts ++ host ∷ [] } ∷ machine.below (frames_of self.old) }
    {
        let at = self.len - 1;
        let slots = &mut self.slots;
        slots[at].push_host(host);
    }

    /// The frame on top has its servers at these places.
    pub(crate) fn set_places(&mut self, places: &[[u8; 4]; 16])
        requires { 0 < length (frames_of self.old) }
        ensures { frames_of self.new ≡ record (machine.top (frames_of self.old)) { places = places.now } ∷ machine.below (frames_of self.old) }
    {
        self.slots[self.len - 1].places = *places;
    }

    /// Adds an address to the frame below the one on top.
    pub(crate) fn add_address(&mut self, address: [u8; 4])
        requires { 1 < length (frames_of self.old) }
        ensures { frames_of self.new ≡ machine.top (frames_of self.old) ∷ record (machine.top (machine.below (frames_of self.old))) { places = model.add_address address (machine.top (machine.below (frames_of self.old))).places } ∷ machine.below (machine.below (frames_of self.old)) }
    {
        let at = self.len - 2;
        let slots = &mut self.slots;
        slots[at].add_address(address);
    }
}
