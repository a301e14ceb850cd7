//! Types by their words.
ghost use Rattle.std.specs.Prelude.{◌≡◌, bytes_eq, find, option_map};
ghost use Rattle.dc_lookup.specs.Words.{KindWord, kind_words, kind_number, kind_of};

use dc_text::number;

/// The type that has a word of its own.
fn kind_word(word: &[u8]) -> Option<u16>
    ensures { result ≡ option_map (λ (k : KindWord). k.kind) (find (λ (k : KindWord). bytes_eq k.word word.now) kind_words) }
{
    match word {
        b"a" => Some(1),
        b"ns" => Some(2),
        b"cname" => Some(5),
        b"soa" => Some(6),
        b"ptr" => Some(12),
        b"mx" => Some(15),
        b"txt" => Some(16),
        b"aaaa" => Some(28),
        b"any" => Some(255),
        _ => None,
    }
}

/// A type by its number, from 1 to 65535.
fn kind_number(word: &[u8]) -> Option<u16>
    ensures { result ≡ kind_number word.now }
{
    let number = number(word)?;
    if number == 0 {
        return None;
    }
    u16::try_from(number).ok()
}

/// The type that a word is: by its own word, or else by its number.
#[tactic(auto, unfolding(dc_lookup::specs::Words::kind_of))]
pub(crate) fn kind_of(word: &[u8]) -> Option<u16>
    ensures { result ≡ kind_of word.now }
{
    match kind_word(word) {
        Some(kind) => Some(kind),
        None => kind_number(word),
    }
}
