//! The parts of a text, one after another.
ghost use Rattle.std.specs.Prelude.{◌≡◌, [], ◌∷◌, length, MatchOption};
ghost use Rattle.dc_text.specs.Parts.{parts_of};

use memchr::memchr;
use std::marker::Model;

/// The parts of a text between the places of a byte, the first one first. A text without the byte is one part.
#[derive(Drop)]
pub struct Parts<'a> {
    left: Option<&'a [u8]>,
    separator: u8,
}

impl<'a> Model for Parts<'a> {
    ghost use Rattle.std.specs.Prelude.{List, ℕ};
    ghost use Rattle.dc_text.specs.Parts.{parts_left};

    ghost Value = { List (List ℕ) };

    ghost view = { λ p. parts_left p.separator p.left };
}

impl<'a> Parts<'a> {
    /// The parts of a text between the places of this byte.
    pub fn new(text: &'a [u8], separator: u8) -> Parts<'a>
        ensures { result ≡ parts_of separator text.now }
    {
        Parts {
            left: Some(text),
            separator,
        }
    }

    /// Takes off the first part. None comes exactly where no part is left.
    pub fn next_part(&mut self) -> Option<&'a [u8]>
        ensures { MatchOption result (self.old ≡ [] × self.new ≡ []) (λ part. self.old ≡ part.now ∷ self.new) }
    {
        let text = self.left?;
        match memchr(self.separator, text) {
            Some(at) => {
                self.left = Some(&text[at + 1..]);
                Some(&text[..at])
            }
            None => {
                self.left = None;
                Some(text)
            }
        }
    }
}
