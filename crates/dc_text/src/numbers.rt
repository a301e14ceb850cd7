//! Numbers and addresses.
ghost use Rattle.std.specs.Prelude.{◌≡◌, ◌^◌, length, Some, None, MatchOption};
ghost use Rattle.dc_model.specs.Name.{octet_of, address_of};
ghost use Rattle.dc_model.specs.Rules.{permit_of};
ghost use Rattle.dc_text.specs.Numbers.{digits_below, number_below};

use crate::parts::Parts;
use arrayvec::ArrayVec;

/// The number that these decimal digits say. None comes exactly where one isn't a digit, or the number isn't below 2^64.
fn digits(text: &[u8]) -> Option<u64>
    ensures { result ≡ digits_below (2 ^ 64) text.now }
{
    let mut value: u64 = 0;
    for digit in text {
        if !digit.is_ascii_digit() {
            return None;
        }
        value = value
            .checked_mul(10)?
            .checked_add(u64::from(*digit - b'0'))?;
    }
    Some(value)
}

/// The number that a text is: `0`, or decimal digits of which the first isn't 0. None comes exactly where it isn't such a
/// number below 2^64.
pub fn number(text: &[u8]) -> Option<u64>
    ensures { result ≡ number_below (2 ^ 64) text.now }
{
    if text.is_empty() {
        return None;
    }
    if text[0] == b'0' && text.len() > 1 {
        return None;
    }
    digits(text)
}

/// The number from 0 to 255 that a text is. None comes exactly where it isn't one.
pub fn octet(text: &[u8]) -> Option<u8>
    ensures { result ≡ octet_of text.now }
{
    u8::try_from(number(text)?).ok()
}

/// The one to four octets joined by dots that a text is. None comes exactly where it isn't such a text.
pub fn octets(text: &[u8]) -> Option<ArrayVec<u8, 4>>
    ensures { MatchOption result (permit_of text.now ≡ None) (λ o. permit_of text.now ≡ Some o.items) }
{
    let mut found = ArrayVec::new();
    let mut parts = Parts::new(text, b'.');
    while let Some(part) = parts.next_part() {
        if found.is_full() {
            return None;
        }
        found.push(octet(part)?);
    }
    Some(found)
}

/// The address that a text is: four octets joined by dots. None comes exactly where it isn't one.
pub fn address(text: &[u8]) -> Option<[u8; 4]>
    ensures { result ≡ address_of text.now }
{
    match octets(text)?.as_slice() {
        [a, b, c, d] => Some([*a, *b, *c, *d]),
        _ => None,
    }
}
