//! A line of the queue: what it waits for, and its text.
ghost use Rattle.std.specs.Prelude.{◌≡◌, ◌≤◌, ◌++◌, not, ℕ, List, length, Some, None, IfOk, MatchOption};
ghost use Rattle.dc_lookup.specs.Text.{line_end};
ghost use Rattle.dc_lookup.specs.Filter as model;
ghost use Rattle.dc_filter.specs.Sifter.{text_at};
ghost use Rattle.dc_filter.specs.View.{slot_of, IsFit, IsIdle};

use crate::line::{line_address, set_text};
use arrayvec::ArrayVec;
use dc_name::Name;
use dc_transmit::Transmit;
use std::alloc::{AllocError, Global};

/// How far a line has got.
#[derive(Clone, Copy, Debug)]
pub(crate) enum Stage {
    /// Its host is to be asked for, by this address.
    Fresh([u8; 4]),
    /// Its host is asked for.
    Asked,
    /// Its text is there.
    Done,
}

/// A place for a line.
#[derive(Drop)]
pub(crate) struct Slot {
    pub line: ArrayVec<u8, 4096>,
    /// The text with a line feed, once it is there.
    pub text: ArrayVec<u8, 5122>,
    pub stage: Stage,
    pub sender: Transmit,
}

impl Slot {
    /// A place without a line. It takes all memory that a line needs.
    pub(crate) fn new(alloc: Global) -> Result<Box<Slot>, AllocError>
        ensures { IfOk result (λ slot. IsIdle slot.value) }
    {
        let sender = Transmit::new(alloc)?;
        let slot = Slot {
            line: ArrayVec::new(),
            text: ArrayVec::new(),
            stage: Stage::Done,
            sender,
        };
        Ok(Box::new(alloc, slot)?)
    }

    /// Takes a line as it is read. One without an address is done at once.
    pub(crate) fn read(&mut self, line: &[u8])
        requires most { length line.now ≤ 4096 }
        requires idle { IsIdle self.old }
        ensures read { slot_of self.new ≡ model.read line.now }
        ensures fit { IsFit self.new }
    {
        self.line.clear();
        let Ok(()) = self.line.try_extend_from_slice(line) else {
            unreachable!();
        };
        match line_address(line) {
            Some(addr) => self.stage = Stage::Fresh(addr),
            None => self.end_with(&None),
        }
    }

    /// The line is done, with its host, or without one.
    pub(crate) fn end_with(&mut self, host: &Option<Name>)
        requires idle { IsIdle self.old }
        ensures done { slot_of self.new ≡ record { line = self.old.line.items; at = model.done (model.host_shown host.now self.old.line.items) } }
        ensures fit { IsFit self.new }
    {
        set_text(&mut self.text, self.line.as_slice(), host);
        self.stage = Stage::Done;
    }

    /// The text of the line with a line feed. `None` exactly where the line isn't done.
    pub(crate) fn text(&self) -> Option<&[u8]>
        requires { IsFit self.now }
        ensures { MatchOption result (text_at (slot_of self.now).at ≡ None) (λ text. (before : List ℕ) × (text_at (slot_of self.now).at ≡ Some before) × (text.now ≡ before ++ line_end)) }
    {
        match self.stage {
            Stage::Done => Some(self.text.as_slice()),
            Stage::Fresh(_) | Stage::Asked => None,
        }
    }

    /// Whether the host is still to be asked for.
    pub(crate) fn is_fresh(&self) -> bool
        ensures { result ≡ model.is_fresh_at (slot_of self.now).at }
    {
        matches!(self.stage, Stage::Fresh(_))
    }

    /// Whether the text is there.
    pub(crate) fn is_done(&self) -> bool
        requires { IsFit self.now }
        ensures { result ≡ not (model.is_waiting_at (slot_of self.now).at) }
    {
        match self.stage {
            Stage::Done => true,
            Stage::Fresh(_) | Stage::Asked => false,
        }
    }

    /// When a tick is wanted, in milliseconds: at once where the host is to be asked for, and at the deadline where it is asked for.
    pub(crate) fn due(&self) -> Option<u64>
        ensures { result ≡ model.due_at (slot_of self.now).at }
    {
        match self.stage {
            Stage::Fresh(_) => Some(0),
            Stage::Asked => self.sender.deadline(),
            Stage::Done => None,
        }
    }

    /// Whether the host is asked for on this link.
    pub(crate) fn has_link(&self, link: u64) -> bool
        ensures { result ≡ model.has_link link (slot_of self.now).at }
    {
        matches!(self.stage, Stage::Asked) && self.sender.link() == Some(link)
    }

    /// Whether the host is asked for until this moment.
    pub(crate) fn has_deadline(&self, moment: u64) -> bool
        ensures { result ≡ model.has_deadline moment (slot_of self.now).at }
    {
        matches!(self.stage, Stage::Asked) && self.sender.deadline() == Some(moment)
    }
}
