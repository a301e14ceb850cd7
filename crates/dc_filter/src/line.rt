//! Lines, and their texts.
ghost use Rattle.std.specs.Prelude.{◌≡◌, ◌+◌, ◌≤◌, ◌++◌, length};
ghost use Rattle.arrayvec.specs.ArrayVec.{array_vec_len};
ghost use Rattle.dc_lookup.specs.Text.{line_end};
ghost use Rattle.dc_lookup.specs.Filter as model;
ghost use Rattle.dc_filter.specs.Lines.{is_address_byte};

use arrayvec::ArrayVec;
use dc_name::Name;
use dc_show::dot;
use dc_text::address;

/// The most bytes of a line.
pub const MOST_LINE: usize = 4096;

/// The most bytes of a line's text with its line feed: of a line, `=`, a name in text, and the line feed.
pub(crate) const MOST_TEXT: usize = 5122;

/// Whether a byte is a digit or a dot.
fn is_address_byte(byte: u8) -> bool
    ensures { result ≡ is_address_byte byte }
{
    byte.is_ascii_digit() || byte == b'.'
}

/// The digits and dots that a line begins with.
fn address_part(line: &[u8]) -> &[u8]
    ensures part { result.now ≡ model.address_part line.now }
    ensures least { length result.now ≤ length line.now }
{
    for (end, byte) in line.iter().enumerate() {
        if !is_address_byte(*byte) {
            return &line[..end];
        }
    }
    line
}

/// The address of a line.
pub(crate) fn line_address(line: &[u8]) -> Option<[u8; 4]>
    ensures { result ≡ model.line_address line.now }
{
    address(address_part(line))
}

/// Puts bytes behind a text.
fn push_all(text: &mut ArrayVec<u8, 5122>, bytes: &[u8])
    requires { array_vec_len text.old + length bytes.now ≤ 5122 }
    ensures items { text.new.items ≡ text.old.items ++ bytes.now }
    ensures len { array_vec_len text.new ≡ array_vec_len text.old + length bytes.now }
{
    let Ok(()) = text.try_extend_from_slice(bytes) else {
        unreachable!();
    };
}

/// Replaces a text by a line as it is, with a line feed.
fn set_plain(text: &mut ArrayVec<u8, 5122>, line: &[u8])
    requires { length line.now ≤ 4096 }
    ensures { text.new.items ≡ line.now ++ line_end }
{
    text.clear();
    push_all(text, line);
    push_all(text, b"\n");
}

/// Replaces a text by a line with the name of its host, and a line feed.
fn set_with_host(text: &mut ArrayVec<u8, 5122>, line: &[u8], host: &Name)
    requires { length line.now ≤ 4096 }
    ensures { text.new.items ≡ model.with_host host.now line.now ++ line_end }
{
    let mut shown = ArrayVec::new();
    dot(host, &mut shown);
    let front = address_part(line);
    text.clear();
    push_all(text, front);
    push_all(text, b"=");
    push_all(text, shown.as_slice());
    push_all(text, &line[front.len()..]);
    push_all(text, b"\n");
}

/// Replaces a text by that of a line, and a line feed.
pub(crate) fn set_text(text: &mut ArrayVec<u8, 5122>, line: &[u8], host: &Option<Name>)
    requires { length line.now ≤ 4096 }
    ensures { text.new.items ≡ model.host_shown host.now line.now ++ line_end }
{
    match host {
        Some(host) => set_with_host(text, line, host),
        None => set_plain(text, line),
    }
}
