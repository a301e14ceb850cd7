//! Comparing and walking names by their bytes.
ghost use Rattle.std.specs.Prelude.{◌≡◌, ◌≢◌, ◌+◌, ◌≤◌, ◌<◌, [], ◌++◌, length, None, option_map};
ghost use Rattle.std.specs.Str.{str_to_ascii_lowercase};
ghost use Rattle.dc_model.specs.Name as model;
ghost use Rattle.dc_name.specs.Refusal.{refusal_of};
ghost use Rattle.arrayvec.specs.ArrayVec.{array_vec_len};
ghost use Rattle.dc_name.specs.Wire.{IsWire, IsPushed, name_of};

use crate::NameError;
use arrayvec::ArrayVec;
use dc_limits::{LONGEST_LABEL, LONGEST_NAME};

/// The greatest number of bytes in a label.
const MOST_LABEL: usize = LONGEST_LABEL as usize;

/// Why `label` can't become the last label of a name of `wire_len` bytes.
pub(crate) fn refusal(wire_len: usize, label: &[u8]) -> Option<NameError>
    requires { wire_len ≤ 255 }
    ensures { option_map refusal_of result ≡ model.label_refusal wire_len label.now }
{
    if label.is_empty() {
        Some(NameError::EmptyLabel)
    } else if label.len() > MOST_LABEL {
        Some(NameError::LongLabel)
    } else if wire_len + 1 + label.len() > LONGEST_NAME {
        Some(NameError::LongName)
    } else {
        None
    }
}

/// Adds bytes that fit.
fn append(bytes: &mut ArrayVec<u8, LONGEST_NAME>, more: &[u8])
    requires { array_vec_len bytes.old + length more.now ≤ 255 }
    ensures items { bytes.new.items ≡ bytes.old.items ++ more.now }
    ensures len { array_vec_len bytes.new ≡ array_vec_len bytes.old + length more.now }
{
    let _ = bytes.try_extend_from_slice(more);
}

/// A copy of a name's bytes.
pub(crate) fn copied(wire: &[u8]) -> ArrayVec<u8, LONGEST_NAME>
    requires { length wire.now ≤ 255 }
    ensures { result.items ≡ wire.now }
{
    let mut bytes = ArrayVec::new();
    append(&mut bytes, wire);
    bytes
}

/// Copies a name's bytes into the place of another's.
pub(crate) fn copy_onto(bytes: &mut ArrayVec<u8, LONGEST_NAME>, wire: &[u8])
    requires { length wire.now ≤ 255 }
    ensures { bytes.new.items ≡ wire.now }
{
    bytes.clear();
    append(bytes, wire);
}

/// Brings ASCII letters into lower case.
pub(crate) fn lowercase(bytes: &mut ArrayVec<u8, LONGEST_NAME>)
    ensures { bytes.new.items ≡ str_to_ascii_lowercase bytes.old.items }
{
    bytes.as_mut_slice().make_ascii_lowercase();
}

/// Adds a label behind the last one: the final zero makes room for the label's length and bytes, and is added again.
pub(crate) fn push_label(bytes: &mut ArrayVec<u8, LONGEST_NAME>, label: &[u8])
    requires name { IsWire bytes.old.items }
    requires fits { model.label_refusal (array_vec_len bytes.old) label.now ≡ None }
    ensures { IsPushed bytes.old.items label.now bytes.new.items }
{
    let _ = bytes.pop();
    bytes.push(label.len() as u8);
    append(bytes, label);
    bytes.push(0);
}

/// The bytes of the name one level up.
pub(crate) fn above(wire: &[u8]) -> &[u8]
    requires name { IsWire wire.now }
    requires not_root { name_of wire.now ≢ [] }
    ensures name { IsWire result.now }
    ensures labels { name_of result.now ≡ model.parent (name_of wire.now) }
    ensures shorter { length result.now < length wire.now }
{
    let len = wire[0] as usize;
    &wire[len + 1..]
}

/// Whether two names are the same, case aside.
pub(crate) fn same_wire(a: &[u8], b: &[u8]) -> bool
    requires a { IsWire a.now }
    requires b { IsWire b.now }
    ensures { result ≡ model.same (name_of a.now) (name_of b.now) }
{
    a.eq_ignore_ascii_case(b)
}

/// Whether the name is the zone or lies under it, case aside.
pub(crate) fn under_wire(wire: &[u8], zone: &[u8]) -> bool
    requires name { IsWire wire.now }
    requires zone { IsWire zone.now }
    ensures { result ≡ model.under (name_of wire.now) (name_of zone.now) }
{
    let mut rest = wire;
    while rest.len() > zone.len() {
        rest = above(rest);
    }
    same_wire(rest, zone)
}
