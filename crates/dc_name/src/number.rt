//! Octets in text.
ghost use Rattle.std.specs.Prelude.{◌≡◌, decimal};

use arrayvec::ArrayVec;

/// The digits of a number from 0 to 255.
pub(crate) fn digits(octet: u8) -> ArrayVec<u8, 3>
    ensures { result.items ≡ decimal octet }
{
    let mut text = ArrayVec::new();
    if octet < 10 {
        text.push(b'0' + octet);
    } else if octet < 100 {
        text.push(b'0' + octet / 10);
        text.push(b'0' + octet % 10);
    } else {
        text.push(b'0' + octet / 10 / 10);
        text.push(b'0' + octet / 10 % 10);
        text.push(b'0' + octet % 10);
    }
    text
}
