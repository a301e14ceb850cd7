//! Names in text.
ghost use Rattle.std.specs.Prelude.{◌≡◌, ℕ, ◌+◌, ◌*◌, ◌≤◌, ◌++◌, flat_map, length};
ghost use Rattle.std.specs.Str.{str_to_ascii_lowercase};
ghost use Rattle.arrayvec.specs.ArrayVec.{array_vec_len};
ghost use Rattle.dc_lookup.specs.Text.{dot, dot_byte, is_plain, octal};

use arrayvec::ArrayVec;
use dc_name::Name;

/// The greatest number of bytes that a name has in text.
pub(crate) const MOST: usize = 1024;

/// Whether a byte stands in a name as it is: a small letter, a digit, `-` or `_`.
fn is_plain(byte: u8) -> bool
    ensures { result ≡ is_plain byte }
{
    byte.is_ascii_lowercase() || byte.is_ascii_digit() || byte == b'-' || byte == b'_'
}

/// A byte as a backslash and three octal digits.
pub(crate) fn octal(byte: u8) -> [u8; 4]
    ensures { result ≡ octal byte }
{
    [
        b'\\',
        b'0' + byte / 64,
        b'0' + byte / 8 % 8,
        b'0' + byte % 8,
    ]
}

/// Adds a byte of a label in lower case.
fn push_byte(out: &mut ArrayVec<u8, 1024>, byte: u8)
    requires { array_vec_len out.old + 4 ≤ 1024 }
    ensures items { out.new.items ≡ out.old.items ++ dot_byte byte }
    ensures len { array_vec_len out.new ≤ array_vec_len out.old + 4 }
{
    if is_plain(byte) {
        out.push(byte);
    } else {
        push_all(out, &octal(byte));
    }
}

/// Adds bytes.
fn push_all(out: &mut ArrayVec<u8, 1024>, bytes: &[u8])
    requires { array_vec_len out.old + length bytes.now ≤ 1024 }
    ensures items { out.new.items ≡ out.old.items ++ bytes.now }
    ensures len { array_vec_len out.new ≡ array_vec_len out.old + length bytes.now }
{
    let Ok(()) = out.try_extend_from_slice(bytes) else {
        unreachable!();
    };
}

/// Adds a label, in lower case.
fn push_label(out: &mut ArrayVec<u8, 1024>, label: &[u8])
    requires { array_vec_len out.old + 4 * length label.now ≤ 1024 }
    ensures items { out.new.items ≡ out.old.items ++ flat_map dot_byte (str_to_ascii_lowercase label.now) }
    ensures len { array_vec_len out.new ≤ array_vec_len out.old + 4 * length label.now }
{
    for byte in label {
        push_byte(out, byte.to_ascii_lowercase());
    }
}

/// Replaces what `out` holds by a name in text: in lower case and without a final dot, the root as a dot. It always fits.
pub fn dot(name: &Name, out: &mut ArrayVec<u8, 1024>)
    ensures { out.new.items ≡ dot name.now }
{
    out.clear();
    let first = name.suffix();
    let Some(mut rest) = first.parent() else {
        out.push(b'.');
        return;
    };
    push_label(out, first.label());
    while let Some(above) = rest.parent() {
        out.push(b'.');
        push_label(out, rest.label());
        rest = above;
    }
}
