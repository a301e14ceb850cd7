//! The filter's words.
ghost use Rattle.std.specs.Prelude.{◌≡◌};
ghost use Rattle.dc_stub.specs.Begun.{bytes_of};
ghost use Rattle.dc_filtering.specs.Words.{slots_in, slots_of};

use dc_text::number;

/// How many hosts are asked for at once where no word says it.
const USUAL_SLOTS: usize = 10;

/// The number from 1 to 16 that a word is.
fn slots_in(word: &[u8]) -> Option<usize>
    ensures { result ≡ slots_in word.now }
{
    let slots = number(word)?;
    if slots == 0 || slots > 16 {
        return None;
    }
    Some(slots as usize)
}

/// How many hosts are asked for at once: 10, or the number behind `-c`. `None` exactly where the words aren't usable.
pub(crate) fn slots_of(words: &[String]) -> Option<usize>
    ensures slots { result ≡ slots_of (bytes_of words.now) }
{
    match words {
        [] => Some(USUAL_SLOTS),
        [option, slots] => {
            if option.as_str() == "-c" {
                slots_in(slots.as_bytes())
            } else {
                None
            }
        }
        _ => None,
    }
}
