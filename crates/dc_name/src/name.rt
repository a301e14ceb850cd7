//! Names that own their bytes.
ghost use Rattle.std.specs.Prelude.{◌≡◌, ◌≤◌, ◌+◌, ◌↔◌, [], ◌∷◌, ◌++◌, length, IsNone, IfSome, IfOk, OnOk, OnErr, MatchResult, decimal};
ghost use Rattle.dc_model.specs.Name as model;
ghost use Rattle.dc_name.specs.Refusal.{refusal_of};
ghost use Rattle.dc_name.specs.Wire.{IsWire, name_of};

use crate::number::digits;
use crate::text::without_final_dot;
use crate::wire::{copied, copy_onto, lowercase, push_label, refusal, same_wire, under_wire};
use crate::{NameError, Suffix};
use arrayvec::ArrayVec;
use dc_limits::LONGEST_NAME;
use dc_text::{Parts, octet};
use std::marker::Model;

/// A domain name (RFC 1034, 3.1): labels of 1 to 63 bytes, with at most 255 bytes in a message.
///
/// Contracts see the list of its labels, the one farthest from the root first.
#[derive(Debug, Drop)]
pub struct Name {
    bytes: ArrayVec<u8, LONGEST_NAME>,
}

impl Model for Name {
    ghost use Rattle.dc_model.specs.Name.{Name as Labels};
    ghost use Rattle.dc_name.specs.Wire.{IsWire, name_of};

    ghost Value = { Labels };

    ghost view = { λ a. name_of a.bytes.items };

    ghost invariant = { λ a. IsWire a.bytes.items };
}

impl Name {
    /// The root, which has no label.
    pub fn root() -> Name
        ensures { result ≡ model.root }
    {
        let mut bytes = ArrayVec::new();
        bytes.push(0);
        Name { bytes }
    }

    /// The name of a dotted text (RFC 1035, 5.1, without its escapes). A final dot is no part of it, and the empty text and `.`
    /// are the root. The parts between dots are the labels; the first of them, from the left, that can't be one is refused.
    pub fn from_dotted(text: &[u8]) -> Result<Name, NameError>
        ensures dotted { MatchResult result (λ n. model.from_dotted text.now ≡ Ok n) (λ why. model.from_dotted text.now ≡ Err (refusal_of why)) }
        ensures name { IfOk result (λ n. model.IsName n) }
    {
        let labels = without_final_dot(text);
        if labels.is_empty() {
            return Ok(Name::root());
        }
        let mut name = Name::root();
        let mut parts = Parts::new(labels, b'.');
        while let Some(part) = parts.next_part() {
            name.add(part)?;
        }
        Ok(name)
    }

    /// The name under which an address is looked up: `d.c.b.a.in-addr.arpa` of a.b.c.d (RFC 1035, 3.5).
    pub fn reverse_of(addr: [u8; 4]) -> Name
        ensures { result ≡ model.reverse_name addr }
    {
        let [a, b, c, d] = addr;
        let mut name = Name::root();
        name.push_octet(d);
        name.push_octet(c);
        name.push_octet(b);
        name.push_octet(a);
        name.push(b"in-addr");
        name.push(b"arpa");
        name
    }

    /// Adds a number as the last label.
    fn push_octet(&mut self, octet: u8)
        requires { model.wire_length self.old ≤ 251 }
        ensures name { self.new ≡ self.old ++ decimal octet ∷ [] }
        ensures len { model.wire_length self.new ≤ model.wire_length self.old + 4 }
    {
        self.push(digits(octet).as_slice());
    }

    /// The address that the name spells by its four labels, as `192.0.2.1`; the first label is the first octet.
    pub fn is_address(&self) -> Option<[u8; 4]>
        ensures { result ≡ model.address_name self.now }
    {
        let first = self.suffix();
        let second = first.parent()?;
        let third = second.parent()?;
        let fourth = third.parent()?;
        if !fourth.parent()?.is_root() {
            return None;
        }
        let a = octet(first.label())?;
        let b = octet(second.label())?;
        let c = octet(third.label())?;
        let d = octet(fourth.label())?;
        Some([a, b, c, d])
    }

    /// Adds `label` behind the last one. Answers false where it is empty, has over 63 bytes or would make the name's bytes
    /// more than 255, and the name is then as before.
    pub fn push(&mut self, label: &[u8]) -> bool
        ensures fits { result ≡ model.can_push self.old label.now }
        ensures name { self.new ≡ model.pushed self.old label.now }
    {
        self.add(label).is_ok()
    }

    /// Adds `label` behind the last one, or says why it can't be one.
    fn add(&mut self, label: &[u8]) -> Result<(), NameError>
        ensures why { MatchResult result (λ _. model.label_refusal (model.wire_length self.old) label.now ≡ None) (λ why. model.label_refusal (model.wire_length self.old) label.now ≡ Some (refusal_of why)) }
        ensures ok { OnOk result (self.new ≡ self.old ++ label.now ∷ []) }
        ensures err { OnErr result (self.new ≡ self.old) }
        ensures name { model.IsName self.new }
    {
        if let Some(why) = refusal(self.bytes.len(), label) {
            return Err(why);
        }
        push_label(&mut self.bytes, label);
        Ok(())
    }

    /// The name of these bytes.
    pub(crate) fn of_wire(wire: &[u8]) -> Name
        requires { IsWire wire.now }
        ensures { result ≡ name_of wire.now }
    {
        Name {
            bytes: copied(wire),
        }
    }

    /// The same name.
    pub fn copy(&self) -> Name
        ensures { result ≡ self.now }
    {
        Name::of_wire(self.bytes.as_slice())
    }

    /// Takes another name in the place of this one. Only the bytes that the other has are copied.
    pub fn copy_from(&mut self, other: &Name)
        ensures { self.new ≡ other.now }
    {
        copy_onto(&mut self.bytes, other.bytes.as_slice());
    }

    /// Becomes the root.
    pub fn set_root(&mut self)
        ensures { self.new ≡ model.root }
    {
        self.copy_from(&Name::root());
    }

    /// The name with its ASCII letters in lower case.
    pub fn lower(&self) -> Name
        ensures { result ≡ model.lower self.now }
    {
        let mut bytes = copied(self.bytes.as_slice());
        lowercase(&mut bytes);
        Name { bytes }
    }

    /// The name without its first label; `None` at the root.
    pub fn parent(&self) -> Option<Name>
        ensures root { IsNone result ↔ (self.now ≡ []) }
        ensures above { IfSome result (λ n. n ≡ model.parent self.now) }
    {
        match self.suffix().parent() {
            None => None,
            Some(up) => Some(up.to_name()),
        }
    }

    /// The name's bytes in a message: each label behind its length, then a zero byte.
    pub fn wire(&self) -> &[u8]
        ensures bytes { result.now ≡ model.wire self.now }
        ensures name { model.IsName self.now }
        ensures least { 1 ≤ length result.now }
        ensures most { length result.now ≤ 255 }
    {
        self.bytes.as_slice()
    }

    /// The name as the first of its suffixes.
    pub fn suffix(&self) -> Suffix<'_>
        ensures value { result ≡ self.now }
        ensures name { model.IsName self.now }
    {
        Suffix::of_wire(self.bytes.as_slice())
    }

    /// Whether two names are the same, without regard to ASCII case.
    pub fn same(&self, other: &Name) -> bool
        ensures { result ≡ model.same self.now other.now }
    {
        same_wire(self.bytes.as_slice(), other.bytes.as_slice())
    }

    /// Whether the labels of `zone` are the last labels of the name, without regard to ASCII case.
    pub fn under(&self, zone: &Name) -> bool
        ensures { result ≡ model.under self.now zone.now }
    {
        under_wire(self.bytes.as_slice(), zone.bytes.as_slice())
    }
}

/// The default name is the root.
impl Default for Name {
    ghost is_default = { λ n. n ≡ [] };

    fn default() -> Name {
        Name::root()
    }
}
