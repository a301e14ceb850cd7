//! The bytes of answers.
ghost use Rattle.std.specs.Prelude.{◌≡◌, ◌≤◌, ◌+◌, ◌++◌, length};
ghost use Rattle.arrayvec.specs.ArrayVec.{array_vec_len};
ghost use Rattle.dc_model.specs.Name.{wire};
ghost use Rattle.dc_model.specs.Message.{u16, u32, class_in};
ghost use Rattle.dc_simulation.specs.Tree as tree;

use arrayvec::ArrayVec;
use dc_name::Name;

/// Room for any answer, framed too.
pub(crate) const ROOM: usize = 2000;

/// An answer, or the front of one.
pub(crate) type Bytes = ArrayVec<u8, ROOM>;

/// The class of the internet.
const CLASS_IN: u16 = 1;

/// Adds bytes.
pub(crate) fn put(out: &mut Bytes, bytes: &[u8])
    requires { array_vec_len out.old + length bytes.now ≤ 2000 }
    ensures items { out.new.items ≡ out.old.items ++ bytes.now }
    ensures len { array_vec_len out.new ≡ array_vec_len out.old + length bytes.now }
{
    let _ = out.try_extend_from_slice(bytes);
}

/// Adds a number of two bytes.
pub(crate) fn put_u16(out: &mut Bytes, number: u16)
    requires { array_vec_len out.old + 2 ≤ 2000 }
    ensures items { out.new.items ≡ out.old.items ++ u16 number }
    ensures len { array_vec_len out.new ≡ array_vec_len out.old + 2 }
{
    put(out, &number.to_be_bytes());
}

/// Adds a number of four bytes.
fn put_u32(out: &mut Bytes, number: u32)
    requires { array_vec_len out.old + 4 ≤ 2000 }
    ensures items { out.new.items ≡ out.old.items ++ u32 number }
    ensures len { array_vec_len out.new ≡ array_vec_len out.old + 4 }
{
    put(out, &number.to_be_bytes());
}

/// Adds a record of class IN up to its data, which has so many bytes.
pub(crate) fn put_front(out: &mut Bytes, owner: &Name, kind: u16, ttl: u32, len: u16)
    requires { array_vec_len out.old + 265 ≤ 2000 }
    ensures items { out.new.items ≡ out.old.items ++ (wire owner.now ++ (u16 kind ++ (u16 class_in ++ (u32 ttl ++ u16 len)))) }
    ensures len { array_vec_len out.new ≤ array_vec_len out.old + 265 }
{
    put(out, owner.wire());
    put_u16(out, kind);
    put_u16(out, CLASS_IN);
    put_u32(out, ttl);
    put_u16(out, len);
}

/// Adds a record of class IN.
pub(crate) fn put_record(out: &mut Bytes, owner: &Name, kind: u16, ttl: u32, body: &[u8])
    requires most { length body.now ≤ 300 }
    requires room { array_vec_len out.old + 265 + length body.now ≤ 2000 }
    ensures items { out.new.items ≡ out.old.items ++ tree.record_bytes owner.now kind ttl body.now }
    ensures len { array_vec_len out.new ≤ array_vec_len out.old + 265 + length body.now }
{
    put_front(out, owner, kind, ttl, body.len() as u16);
    put(out, body);
}
