//! The buffer of a line, and the words that are put into it.
ghost use Rattle.std.specs.Prelude.{◌≡◌, ◌+◌, ◌*◌, ◌<◌, ◌≤◌, [], ◌∷◌, ◌++◌, length, map, decimal};
ghost use Rattle.std.specs.Str.{str_to_ascii_lowercase};
ghost use Rattle.dc_model.specs.Line.{hex_digit, hex_byte, hex, hex_u16, shown_byte, shown_label, shown, shown_client, shown_data};
ghost use Rattle.dc_model.specs.Places.{addresses};
ghost use Rattle.dc_lines.specs.Words.{with_words};

use dc_name::Name;
use std::marker::Model;

/// The greatest number of bytes in a line.
const MOST: usize = 4096;

/// The greatest number of digits in a number of 64 bits.
const MOST_DIGITS: usize = 20;

/// How many bytes of a record's data a line shows.
const SHOWN: usize = 32;

/// A line of the log, without a line end: at most 4096 bytes, which every line fits into.
///
/// Contracts see its bytes.
#[derive(Drop)]
pub struct Line {
    bytes: [u8; MOST],
    len: usize,
}

impl Model for Line {
    ghost use Rattle.std.specs.Prelude.{ℕ, ◌≤◌, List, take};

    ghost Value = { List ℕ };

    ghost view = { λ a. take a.len a.bytes };

    ghost invariant = { λ a. a.len ≤ 4096 };
}

impl Default for Line {
    ghost use Rattle.std.specs.Prelude.{◌≡◌, []};

    ghost is_default = { λ line. line ≡ [] };

    /// The empty line.
    fn default() -> Line {
        Line::new()
    }
}

impl Line {
    /// The empty line.
    pub fn new() -> Line
        ensures { result ≡ [] }
    {
        Line {
            bytes: [0; MOST],
            len: 0,
        }
    }

    /// The bytes of the line.
    pub fn text(&self) -> &[u8]
        ensures bytes { result.now ≡ self.now }
        ensures most { length result.now ≤ 4096 }
    {
        &self.bytes[..self.len]
    }

    /// Empties the line, and puts its first word.
    pub(crate) fn begin(&mut self, word: &[u8])
        requires { length word.now ≤ 4096 }
        ensures bytes { self.new ≡ word.now }
        ensures len { length self.new ≡ length word.now }
    {
        self.len = 0;
        self.put(word);
    }

    /// Puts a byte behind the others.
    fn put_byte(&mut self, byte: u8)
        requires { length self.old < 4096 }
        ensures bytes { self.new ≡ self.old ++ byte ∷ [] }
        ensures len { length self.new ≡ length self.old + 1 }
    {
        self.bytes[self.len] = byte;
        self.len += 1;
    }

    /// Puts bytes behind the others.
    pub(crate) fn put(&mut self, more: &[u8])
        requires { length self.old + length more.now ≤ 4096 }
        ensures bytes { self.new ≡ self.old ++ more.now }
        ensures len { length self.new ≡ length self.old + length more.now }
    {
        let end = self.len + more.len();
        self.bytes[self.len..end].copy_from_slice(more);
        self.len = end;
    }

    /// Puts a space and a word.
    pub(crate) fn word(&mut self, word: &[u8])
        requires { length self.old + 1 + length word.now ≤ 4096 }
        ensures bytes { self.new ≡ self.old ++ 32 ∷ word.now }
        ensures len { length self.new ≡ length self.old + 1 + length word.now }
    {
        self.put_byte(b' ');
        self.put(word);
    }

    /// Puts a space and a number in decimal.
    pub(crate) fn number(&mut self, n: u64)
        requires { length self.old + 21 ≤ 4096 }
        ensures bytes { self.new ≡ self.old ++ 32 ∷ decimal n }
        ensures len { length self.new ≤ length self.old + 21 }
    {
        let mut digits = [0; MOST_DIGITS];
        let start = itoa::write_digits(n, &mut digits, MOST_DIGITS);
        self.word(&digits[start..]);
    }

    /// Puts numbers in decimal, each behind a space.
    pub(crate) fn numbers(&mut self, numbers: &[u32])
        requires { length self.old + 21 * length numbers.now ≤ 4096 }
        ensures bytes { self.new ≡ with_words self.old (map decimal numbers.now) }
        ensures len { length self.new ≤ length self.old + 21 * length numbers.now }
    {
        for number in numbers {
            self.number(u64::from(*number));
        }
    }

    /// Puts a byte as two hexadecimal digits.
    fn hex_byte(&mut self, byte: u8)
        requires { length self.old + 2 ≤ 4096 }
        ensures bytes { self.new ≡ self.old ++ hex_byte byte }
        ensures len { length self.new ≡ length self.old + 2 }
    {
        self.put_byte(hex_digit(byte / 16));
        self.put_byte(hex_digit(byte % 16));
    }

    /// Puts each byte as two hexadecimal digits.
    pub(crate) fn hex(&mut self, more: &[u8])
        requires { length self.old + 2 * length more.now ≤ 4096 }
        ensures bytes { self.new ≡ self.old ++ hex more.now }
        ensures len { length self.new ≡ length self.old + 2 * length more.now }
    {
        for byte in more {
            self.hex_byte(*byte);
        }
    }

    /// Puts a space and an address as eight hexadecimal digits.
    pub(crate) fn address(&mut self, addr: [u8; 4])
        requires { length self.old + 9 ≤ 4096 }
        ensures bytes { self.new ≡ self.old ++ 32 ∷ hex addr }
        ensures len { length self.new ≡ length self.old + 9 }
    {
        self.put_byte(b' ');
        self.hex(&addr);
    }

    /// Puts the addresses of the places that aren't empty, in order, each behind a space.
    pub(crate) fn addresses(&mut self, places: &[[u8; 4]; 16])
        requires { length self.old + 144 ≤ 4096 }
        ensures bytes { self.new ≡ with_words self.old (map hex (addresses places.now)) }
        ensures len { length self.new ≤ length self.old + 144 }
    {
        for place in places {
            self.address_unless_empty(*place);
        }
    }

    /// Puts a space and an address, or nothing at an empty place.
    fn address_unless_empty(&mut self, place: [u8; 4])
        requires { length self.old + 9 ≤ 4096 }
        ensures bytes { self.new ≡ with_words self.old (map hex (addresses (place ∷ []))) }
        ensures len { length self.new ≤ length self.old + 9 }
    {
        if place != [0; 4] {
            self.address(place);
        }
    }

    /// Puts a colon, and a number of two bytes as four hexadecimal digits.
    pub(crate) fn hex_number(&mut self, n: u16)
        requires { length self.old + 5 ≤ 4096 }
        ensures bytes { self.new ≡ self.old ++ 58 ∷ hex_u16 n }
        ensures len { length self.new ≡ length self.old + 5 }
    {
        self.put_byte(b':');
        self.hex(&n.to_be_bytes());
    }

    /// Puts a space, and the address and port of a client.
    pub(crate) fn client(&mut self, addr: [u8; 4], port: u16)
        requires { length self.old + 14 ≤ 4096 }
        ensures bytes { self.new ≡ self.old ++ 32 ∷ shown_client addr port }
        ensures len { length self.new ≡ length self.old + 14 }
    {
        self.address(addr);
        self.hex_number(port);
    }

    /// Puts a label in lower case as it is shown, and a dot.
    fn label(&mut self, label: &[u8])
        requires { length self.old + length label.now + 1 ≤ 4096 }
        ensures bytes { self.new ≡ self.old ++ shown_label (str_to_ascii_lowercase label.now) }
        ensures len { length self.new ≡ length self.old + length label.now + 1 }
    {
        for byte in label {
            self.put_byte(shown_byte(byte.to_ascii_lowercase()));
        }
        self.put_byte(b'.');
    }

    /// Puts a space and a name in lower case with a dot behind each label; the root is a dot.
    pub(crate) fn name(&mut self, name: &Name)
        requires { length self.old + 256 ≤ 4096 }
        ensures bytes { self.new ≡ self.old ++ 32 ∷ shown name.now }
        ensures len { length self.new ≤ length self.old + 256 }
    {
        self.put_byte(b' ');
        let mut rest = name.suffix();
        if rest.is_root() {
            self.put_byte(b'.');
            return;
        }
        while let Some(above) = rest.parent() {
            self.label(rest.label());
            rest = above;
        }
    }

    /// Puts a space and the first 32 bytes of a record's data, each as two hexadecimal digits; dots stand behind them where the
    /// data has 32 bytes or more.
    pub(crate) fn data(&mut self, data: &[u8])
        requires { length self.old + 68 ≤ 4096 }
        ensures bytes { self.new ≡ self.old ++ 32 ∷ shown_data «data».now }
        ensures len { length self.new ≤ length self.old + 68 }
    {
        self.put_byte(b' ');
        if data.len() < SHOWN {
            self.hex(data);
            return;
        }
        self.hex(&data[..SHOWN]);
        self.put(b"...");
    }
}

/// A hexadecimal digit in lower case.
fn hex_digit(n: u8) -> u8
    requires { n < 16 }
    ensures { result ≡ hex_digit n }
{
    if n < 10 { b'0' + n } else { b'a' - 10 + n }
}

/// A byte of a name as it is shown: `?` where it is a space, a control or not ASCII.
fn shown_byte(byte: u8) -> u8
    ensures { result ≡ shown_byte byte }
{
    if byte <= 32 || byte > 126 { b'?' } else { byte }
}
