//! The line of an event.
ghost use Rattle.std.specs.Prelude.{◌≡◌, ◌*◌, ◌≤◌, ◌<◌, ◌^◌, [], length, option_map, IfSome, MatchOption, Some, None, true, bytes_eq};
ghost use Rattle.std.specs.List.{list_all};
ghost use Rattle.dc_model.specs.Name.{address_of};
ghost use Rattle.dc_model.specs.Places.{no_address};
ghost use Rattle.dc_text.specs.Numbers.{number_below};
ghost use Rattle.dc_engine.specs.View.{kind_of};
ghost use Rattle.dc_script.specs.Script.{behind_at, moment_taken, kind_word, kind_taken, taken_if, bytes_word, bytes_spelled, event_of_line, AreDigits};
ghost use Rattle.dc_script.specs.Script as spec;
ghost use Rattle.dc_script.specs.View.{line_says};

use crate::digits::digits_of;
use dc_event::{Event, Kind};
use dc_text::{Parts, address, number};

/// Moments are below this.
const MOMENTS: u64 = 1 << 62;

/// Whether two texts are equal.
pub(crate) fn is(word: &[u8], text: &[u8]) -> bool
    ensures { result ≡ bytes_eq word.now text.now }
{
    word == text
}

/// Takes off the word `at`.
#[tactic(auto, unfolding(crate::specs::Script::behind_at))]
fn opening(words: &mut Parts<'_>) -> Option<()>
    ensures { MatchOption result (behind_at words.old ≡ None) (λ v. behind_at words.old ≡ Some words.new) }
{
    let word = words.next_part()?;
    if is(word, b"at") { Some(()) } else { None }
}

/// Takes off a moment.
#[tactic(auto, unfolding(crate::specs::Script::moment_taken))]
fn moment(words: &mut Parts<'_>) -> Option<u64>
    ensures taken { MatchOption result (moment_taken words.old ≡ None) (λ v. moment_taken words.old ≡ Some (v, words.new)) }
    ensures below { IfSome result (λ now. now < 2 ^ 62) }
{
    let now = number(words.next_part()?)?;
    if now < MOMENTS { Some(now) } else { None }
}

/// The kind that a word names.
fn kind_named(word: &[u8]) -> Option<Kind>
    ensures { option_map kind_of result ≡ kind_word word.now }
{
    if is(word, b"tick") {
        Some(Kind::Tick)
    } else if is(word, b"request") {
        Some(Kind::Request)
    } else if is(word, b"datagram") {
        Some(Kind::Datagram)
    } else if is(word, b"linkup") {
        Some(Kind::LinkUp)
    } else if is(word, b"linkbytes") {
        Some(Kind::LinkBytes)
    } else if is(word, b"linkdown") {
        Some(Kind::LinkDown)
    } else if is(word, b"bindrefused") {
        Some(Kind::BindRefused)
    } else if is(word, b"connup") {
        Some(Kind::ConnUp)
    } else if is(word, b"connbytes") {
        Some(Kind::ConnBytes)
    } else if is(word, b"conndown") {
        Some(Kind::ConnDown)
    } else {
        None
    }
}

/// Takes off the word of a kind.
#[tactic(auto, unfolding(crate::specs::Script::kind_taken))]
fn kind(words: &mut Parts<'_>) -> Option<Kind>
    ensures { MatchOption result (kind_taken words.old ≡ None) (λ k. kind_taken words.old ≡ Some (kind_of k, words.new)) }
{
    kind_named(words.next_part()?)
}

/// Takes off the number of a link or connection, if it is wanted.
#[tactic(auto, unfolding(crate::specs::Script::taken_if))]
fn number_if(wanted: bool, words: &mut Parts<'_>) -> Option<u64>
    ensures { MatchOption result (taken_if wanted 0 (number_below (2 ^ 64)) words.old ≡ None)
        (λ n. taken_if wanted 0 (number_below (2 ^ 64)) words.old ≡ Some (n, words.new)) }
{
    if wanted {
        number(words.next_part()?)
    } else {
        Some(0)
    }
}

/// Takes off an address, if it is wanted.
#[tactic(auto, unfolding(crate::specs::Script::taken_if))]
fn address_if(wanted: bool, words: &mut Parts<'_>) -> Option<[u8; 4]>
    ensures { MatchOption result (taken_if wanted no_address address_of words.old ≡ None)
        (λ a. taken_if wanted no_address address_of words.old ≡ Some (a, words.new)) }
{
    if wanted {
        address(words.next_part()?)
    } else {
        Some([0; 4])
    }
}

/// Takes off a port, if it is wanted.
#[tactic(auto, unfolding(crate::specs::Script::taken_if))]
fn port_if(wanted: bool, words: &mut Parts<'_>) -> Option<u16>
    ensures { MatchOption result (taken_if wanted 0 (number_below (2 ^ 16)) words.old ≡ None)
        (λ n. taken_if wanted 0 (number_below (2 ^ 16)) words.old ≡ Some (n, words.new)) }
{
    if wanted {
        u16::try_from(number(words.next_part()?)?).ok()
    } else {
        Some(0)
    }
}

/// Takes off the digits of bytes, if they are wanted.
#[tactic(auto, unfolding(crate::specs::Script::taken_if))]
fn digits_if<'a>(wanted: bool, words: &mut Parts<'a>) -> Option<&'a [u8]>
    ensures bytes { MatchOption result (taken_if wanted [] bytes_word words.old ≡ None)
        (λ d. taken_if wanted [] bytes_word words.old ≡ Some (bytes_spelled d.now, words.new)) }
    ensures digits { IfSome result (λ d. AreDigits d.now) }
{
    if wanted {
        digits_of(words.next_part()?)
    } else {
        Some(&[])
    }
}

/// What the line of an event says: the event, but for its bytes, which are still in digits.
#[derive(Clone, Copy)]
pub struct EventLine<'a> {
    pub event: Event,
    pub digits: &'a [u8],
}

/// Reads the line of an event. None comes exactly where the line is outside the grammar.
#[tactic(auto, unfolding(crate::specs::Script::event_of_line, crate::specs::Script::event_said, crate::specs::Script::at_end))]
pub fn event_line(line: &[u8]) -> Option<EventLine<'_>>
    ensures event { option_map line_says result ≡ event_of_line line.now }
    ensures digits { IfSome result (λ l. AreDigits l.digits.now) }
    ensures len { IfSome result (λ l. 2 * l.event.len ≡ length l.digits.now) }
    ensures moment { IfSome result (λ l. l.event.now < 2 ^ 62) }
{
    let mut words = Parts::new(line, b' ');
    opening(&mut words)?;
    let now = moment(&mut words)?;
    let kind = kind(&mut words)?;
    let id = number_if(has_number(kind), &mut words)?;
    let addr = address_if(has_sender(kind), &mut words)?;
    let port = port_if(has_sender(kind), &mut words)?;
    let digits = digits_if(has_bytes(kind), &mut words)?;
    let None = words.next_part() else {
        return None;
    };
    let len = digits.len() / 2;
    let event = Event {
        now,
        kind,
        id,
        addr,
        port,
        len,
    };
    Some(EventLine { event, digits })
}

/// Whether a link or connection is named.
fn has_number(kind: Kind) -> bool
    ensures { result ≡ spec.has_number (kind_of kind) }
{
    !matches!(kind, Kind::Tick | Kind::Request)
}

/// Whether a sender is named.
fn has_sender(kind: Kind) -> bool
    ensures { result ≡ spec.has_sender (kind_of kind) }
{
    matches!(
        kind,
        Kind::Request | Kind::Datagram | Kind::LinkBytes | Kind::ConnUp
    )
}

/// Whether there are bytes.
fn has_bytes(kind: Kind) -> bool
    ensures { result ≡ spec.has_bytes_word (kind_of kind) }
{
    matches!(
        kind,
        Kind::Request | Kind::Datagram | Kind::LinkBytes | Kind::ConnBytes
    )
}
