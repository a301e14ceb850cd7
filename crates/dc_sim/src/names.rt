//! The names of the tree.
ghost use Rattle.std.specs.Prelude.{◌≡◌, ◌≤◌, ◌+◌, ◌++◌, ◌∷◌, [], codes, decimal};
ghost use Rattle.dc_model.specs.Name as model;
ghost use Rattle.dc_simulation.specs.Tree as tree;

use arrayvec::ArrayVec;
use dc_name::Name;

/// A letter and a number.
fn label(letter: u8, number: u8) -> ArrayVec<u8, 4>
    ensures { result.items ≡ letter ∷ decimal number }
{
    let mut text = ArrayVec::new();
    text.push(letter);
    if number < 10 {
        text.push(b'0' + number);
    } else if number < 100 {
        text.push(b'0' + number / 10);
        text.push(b'0' + number % 10);
    } else {
        text.push(b'0' + number / 10 / 10);
        text.push(b'0' + number / 10 % 10);
        text.push(b'0' + number % 10);
    }
    text
}

/// Adds a letter and a number as the last label.
fn push_label(name: &mut Name, letter: u8, number: u8)
    requires { model.wire_length name.old ≤ 200 }
    ensures name { name.new ≡ name.old ++ (letter ∷ decimal number) ∷ [] }
    ensures len { model.wire_length name.new ≤ model.wire_length name.old + 5 }
{
    name.push(label(letter, number).as_slice());
}

/// `tK`
pub(crate) fn top_name(k: u8) -> Name
    ensures { result ≡ tree.top_name k }
{
    let mut name = Name::root();
    push_label(&mut name, b't', k);
    name
}

/// `zJ.tK`
pub(crate) fn zone_name(j: u8, k: u8) -> Name
    ensures { result ≡ tree.zone_name j k }
{
    let mut name = Name::root();
    push_label(&mut name, b'z', j);
    push_label(&mut name, b't', k);
    name
}

/// `hI.zJ.tK`
pub(crate) fn host_name(i: u8, j: u8, k: u8) -> Name
    ensures { result ≡ tree.host_name i j k }
{
    let mut name = Name::root();
    push_label(&mut name, b'h', i);
    push_label(&mut name, b'z', j);
    push_label(&mut name, b't', k);
    name
}

/// The label of a server's name.
fn server_label() -> Name
    ensures name { result ≡ codes "ns" ∷ [] }
    ensures len { model.wire_length result ≡ 4 }
{
    let mut name = Name::root();
    name.push(b"ns");
    name
}

/// `ns.tK`
pub(crate) fn top_server_name(k: u8) -> Name
    ensures { result ≡ tree.server_name (tree.top_name k) }
{
    let mut name = server_label();
    push_label(&mut name, b't', k);
    name
}

/// `ns.zJ.tK`
pub(crate) fn zone_server_name(j: u8, k: u8) -> Name
    ensures { result ≡ tree.server_name (tree.zone_name j k) }
{
    let mut name = server_label();
    push_label(&mut name, b'z', j);
    push_label(&mut name, b't', k);
    name
}
