//! Bytes in hexadecimal digits.
ghost use Rattle.std.specs.Prelude.{◌≡◌, ◌*◌, ◌≤◌, length, IfSome, MatchOption, Some, None, true};
ghost use Rattle.std.specs.List.{list_all};
ghost use Rattle.dc_script.specs.Script.{is_lower_digit, spells, bytes_word, bytes_spelled, AreDigits};

/// The most digits that a word has: those of 65535 bytes.
const MOST_DIGITS: usize = 131070;

/// Whether a byte is a digit, in lower case.
fn is_lower(byte: u8) -> bool
    ensures { result ≡ is_lower_digit byte }
{
    matches!(byte, b'0'..=b'9' | b'a'..=b'f')
}

/// Whether all of these are digits.
pub(crate) fn all_digits(text: &[u8]) -> bool
    ensures { result ≡ list_all is_lower_digit text.now }
{
    for byte in text {
        if !is_lower(*byte) {
            return false;
        }
    }
    true
}

/// Whether a text is digits that spell 1 to 65535 bytes.
fn spells_bytes(text: &[u8]) -> bool
    ensures { result ≡ spells 65535 text.now }
{
    if text.len() % 2 != 0 {
        return false;
    }
    if text.is_empty() {
        return false;
    }
    if text.len() > MOST_DIGITS {
        return false;
    }
    all_digits(text)
}

/// The digits of a word: none where it is a dash. None comes exactly where the word is neither a dash nor digits that spell
/// 1 to 65535 bytes.
pub fn digits_of(word: &[u8]) -> Option<&[u8]>
    ensures bytes { MatchOption result (bytes_word word.now ≡ None) (λ d. bytes_word word.now ≡ Some (bytes_spelled d.now)) }
    ensures digits { IfSome result (λ d. AreDigits d.now) }
{
    if word == b"-".as_slice() {
        return Some(&[]);
    }
    if spells_bytes(word) { Some(word) } else { None }
}

/// Turns digits into the bytes that they spell.
pub fn decode(digits: &[u8], bytes: &mut [u8])
    requires digits { AreDigits digits.now }
    requires len { length digits.now ≡ 2 * length bytes.old }
    ensures { bytes.new ≡ bytes_spelled digits.now }
{
    let Ok(()) = hex::decode_to_slice(digits, bytes) else {
        unreachable!();
    };
}
