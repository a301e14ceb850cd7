//! The body of an entry, while it is gathered.
ghost use Rattle.std.specs.Prelude.{◌≡◌, ◌++◌, ◌==◌, if◌then◌else◌, [], List, ℕ};
ghost use Rattle.dc_model.specs.Bodies.{item_of};
ghost use Rattle.dc_model.specs.Name.{wire};
ghost use Rattle.dc_model.specs.Message as model;
ghost use Rattle.dc_packet.specs.Data.{body_of};
ghost use Rattle.dc_puts.specs.Held.{Holds};

use arrayvec::ArrayVec;
use dc_limits::LONGEST_GROUP;
use dc_name::Name;
use dc_packet::Data;
use dc_types::rtype;

/// A body of at most 8192 bytes, or the mark that there were more.
#[derive(Drop)]
pub(crate) struct Gathered {
    pub(crate) bytes: ArrayVec<u8, 8192>,
    pub(crate) fits: bool,
}

impl Gathered {
    /// Nothing so far.
    pub(crate) fn new() -> Gathered {
        Gathered {
            bytes: ArrayVec::new(),
            fits: true,
        }
    }

    /// Begins again.
    pub(crate) fn clear(&mut self)
        ensures { Holds self.new [] }
    {
        self.bytes.clear();
        self.fits = true;
    }

    /// Adds bytes.
    #[tactic(auto, using(crate::proofs::Gathering::gathering))]
    fn add(&mut self, bytes: &[u8])
        ensures { (xs : List ℕ) → Holds self.old xs → Holds self.new (xs ++ bytes.now) }
    {
        if !self.fits {
            return;
        }
        if self.bytes.try_extend_from_slice(bytes).is_err() {
            self.fits = false;
        }
    }

    /// Adds bytes behind their length.
    #[tactic(auto, using(crate::proofs::Gathering::framing))]
    fn add_framed(&mut self, bytes: &[u8])
        ensures { (xs : List ℕ) → Holds self.old xs → Holds self.new (xs ++ model.framed bytes.now) }
    {
        if bytes.len() > LONGEST_GROUP {
            self.fits = false;
            return;
        }
        self.add(&(bytes.len() as u16).to_be_bytes());
        self.add(bytes);
    }

    /// Adds a whole name.
    fn add_name(&mut self, name: &Name)
        ensures { (xs : List ℕ) → Holds self.old xs → Holds self.new (xs ++ wire name.now) }
    {
        self.add(name.wire());
    }

    /// Adds a preference and a name.
    #[tactic(auto, using(crate::proofs::Gathering::items))]
    fn add_exchange(&mut self, preference: u16, name: &Name)
        ensures { (xs : List ℕ) → Holds self.old xs → Holds self.new (xs ++ (model.u16 preference ++ wire name.now)) }
    {
        self.add(&preference.to_be_bytes());
        self.add_name(name);
    }

    /// Adds two names and the numbers of an SOA.
    #[tactic(auto, using(crate::proofs::Gathering::items))]
    fn add_start(&mut self, primary: &Name, mailbox: &Name, numbers: &[u8])
        ensures { (xs : List ℕ) → Holds self.old xs → Holds self.new (xs ++ (wire primary.now ++ (wire mailbox.now ++ numbers.now))) }
    {
        self.add_name(primary);
        self.add_name(mailbox);
        self.add(numbers);
    }

    /// Adds data as bytes: those of an A as they stand, others behind their length.
    fn add_bytes(&mut self, kind: u16, bytes: &[u8])
        ensures { (xs : List ℕ) → Holds self.old xs → Holds self.new (xs ++ (if kind == model.kind_a then bytes.now else model.framed bytes.now)) }
    {
        if kind == rtype::A {
            self.add(bytes);
        } else {
            self.add_framed(bytes);
        }
    }

    /// Adds the data of a record of a type, with whole names.
    #[tactic(auto, unfolding(dc_model::specs::Bodies::item_of))]
    pub(crate) fn add_item(&mut self, kind: u16, item: &Data<'_>)
        ensures { (xs : List ℕ) → Holds self.old xs → Holds self.new (xs ++ item_of kind (body_of item.now)) }
    {
        match item {
            Data::Bytes(bytes) => self.add_bytes(kind, bytes),
            Data::Host(name) => self.add_name(name),
            Data::Mx(preference, name) => self.add_exchange(*preference, name),
            Data::Soa(primary, mailbox, numbers) => self.add_start(primary, mailbox, numbers),
        }
    }
}
