//! Words of a line: texts, numbers and addresses, one behind another.
ghost use Rattle.std.specs.Prelude.{◌≡◌, ◌+◌, ◌≤◌, ◌++◌, length, decimal};
ghost use Rattle.arrayvec.specs.ArrayVec.{array_vec_len};
ghost use Rattle.dc_model.specs.Address.{address_text};

use arrayvec::ArrayVec;
use itoa::Buffer as Digits;

/// How many bytes words may have together.
pub const MOST_WORDS: usize = 192;

/// Words that are gathered before they are written.
pub type Words = ArrayVec<u8, MOST_WORDS>;

/// Adds bytes for which there is room.
pub fn push_all(text: &mut Words, bytes: &[u8])
    requires { array_vec_len text.old + length bytes.now ≤ MOST_WORDS }
    ensures items { text.new.items ≡ text.old.items ++ bytes.now }
    ensures len { array_vec_len text.new ≡ array_vec_len text.old + length bytes.now }
{
    let Ok(()) = text.try_extend_from_slice(bytes) else {
        unreachable!();
    };
}

/// Adds a number in decimal, which has at most 20 digits.
pub fn push_number(text: &mut Words, number: u64)
    requires { array_vec_len text.old + 20 ≤ MOST_WORDS }
    ensures items { text.new.items ≡ text.old.items ++ decimal number }
    ensures len { array_vec_len text.new ≤ array_vec_len text.old + 20 }
{
    let mut digits = Digits::new();
    push_all(text, digits.format(number).as_bytes());
}

/// Adds an address: four numbers joined by dots.
pub fn push_address(text: &mut Words, addr: [u8; 4])
    requires { array_vec_len text.old + 83 ≤ MOST_WORDS }
    ensures items { text.new.items ≡ text.old.items ++ address_text addr }
    ensures len { array_vec_len text.new ≤ array_vec_len text.old + 83 }
{
    let [first, second, third, fourth] = addr;
    push_number(text, first.into());
    push_all(text, b".");
    push_number(text, second.into());
    push_all(text, b".");
    push_number(text, third.into());
    push_all(text, b".");
    push_number(text, fourth.into());
}
