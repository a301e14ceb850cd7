//! The lines of a script's head.
ghost use Rattle.std.specs.Prelude.{◌≡◌, [], ◌∷◌, length, option_map, option_and_then, MatchOption, Some, None};
ghost use Rattle.dc_script.specs.Script.{at_end};
ghost use Rattle.dc_script.specs.Heading as spec;
ghost use Rattle.dc_script.specs.Heads.{heading_in};

use crate::digits::{all_digits, decode};
use crate::events::is;
use dc_limits::{LEAST_CACHE, MOST_CACHE};
use dc_name::Name;
use dc_text::{Parts, address, number};

/// How many servers a zone has, at most.
const MOST_SERVERS: usize = 16;

/// The addresses of a zone's servers. Those of no server are 0.0.0.0.
pub(crate) type Places = [[u8; 4]; MOST_SERVERS];

/// What a line says.
#[derive(Drop)]
pub(crate) enum Heading<'a> {
    /// The version of the script.
    Version(u64),
    /// The number of bytes of the cache.
    Size(u32),
    /// Whether all questions are forwarded.
    Forward(bool),
    /// Who may ask, in text.
    Allow(&'a [u8]),
    /// The servers of the root.
    Root(Places),
    /// Another zone and its servers.
    Zone(Name, Places),
    /// The seed of the random words.
    Seed([u8; 32]),
    /// The end of the head.
    Begin,
}

/// The version that a word names.
fn version_named(word: &[u8]) -> Option<u64>
    ensures { result ≡ spec.version_word word.now }
{
    if is(word, b"1") {
        Some(1)
    } else if is(word, b"2") {
        Some(2)
    } else {
        None
    }
}

/// The size of a cache that a word says, brought into 100 to 1000000000 bytes.
fn size_named(word: &[u8]) -> Option<u32>
    ensures { result ≡ spec.size_word word.now }
{
    let size = number(word)?.max(LEAST_CACHE as u64).min(MOST_CACHE as u64);
    Some(size as u32)
}

/// Whether a word says yes or no.
fn yes_or_no(word: &[u8]) -> Option<bool>
    ensures { result ≡ spec.yes_word word.now }
{
    if is(word, b"yes") {
        Some(true)
    } else if is(word, b"no") {
        Some(false)
    } else {
        None
    }
}

/// The 32 bytes that a word of 64 digits spells.
fn seed_spelled(word: &[u8]) -> Option<[u8; 32]>
    ensures { result ≡ spec.seed_word word.now }
{
    if !all_digits(word) {
        return None;
    }
    if word.len() != 64 {
        return None;
    }
    let mut seed = [0; 32];
    decode(word, &mut seed);
    Some(seed)
}

/// The address of a server, which isn't 0.0.0.0.
fn server(word: &[u8]) -> Option<[u8; 4]>
    ensures { result ≡ spec.server_word word.now }
{
    let found = address(word)?;
    if found == [0; 4] { None } else { Some(found) }
}

/// The name of a zone other than the root.
fn zone_named(word: &[u8]) -> Option<Name>
    ensures { result ≡ spec.zone_word word.now }
{
    let name = Name::from_dotted(word).ok()?;
    if name.suffix().is_root() {
        None
    } else {
        Some(name)
    }
}

/// The one word that is left.
#[tactic(auto, unfolding(crate::specs::Heading::only_word))]
fn only_word<'a>(words: &mut Parts<'a>) -> Option<&'a [u8]>
    ensures { MatchOption result (spec.only_word words.old ≡ None) (λ w. spec.only_word words.old ≡ Some w.now) }
{
    let word = words.next_part()?;
    match words.next_part() {
        Some(_) => None,
        None => Some(word),
    }
}

/// The places of the servers that words say, and how many there are. None comes exactly where a word is no server's address or
/// there are more than 16.
fn places(words: &mut Parts<'_>) -> Option<(usize, Places)>
    ensures { MatchOption result (spec.places_said words.old ≡ None) (λ p. (spec.places_said words.old ≡ Some p.1) × (p.0 ≡ length words.old)) }
{
    let mut places = [[0; 4]; MOST_SERVERS];
    let mut filled = 0;
    while let Some(word) = words.next_part() {
        if filled == MOST_SERVERS {
            return None;
        }
        places[filled] = server(word)?;
        filled += 1;
    }
    Some((filled, places))
}

/// The root's servers, of which there is one at least.
fn root<'a>(words: &mut Parts<'a>) -> Option<Heading<'a>>
    ensures { option_map heading_in result ≡ spec.root_said words.old }
{
    let (count, places) = places(words)?;
    if count == 0 {
        None
    } else {
        Some(Heading::Root(places))
    }
}

/// A zone other than the root and its servers.
fn other_zone<'a>(word: &[u8], words: &mut Parts<'a>) -> Option<Heading<'a>>
    ensures { option_map heading_in result ≡ option_and_then (λ name. option_map (spec.zone_line name) (spec.places_said words.old)) (spec.zone_word word.now) }
{
    let name = zone_named(word)?;
    let (_, places) = places(words)?;
    Some(Heading::Zone(name, places))
}

/// A zone and its servers.
#[tactic(auto, unfolding(crate::specs::Heading::zone_said))]
fn zone<'a>(words: &mut Parts<'a>) -> Option<Heading<'a>>
    ensures { option_map heading_in result ≡ spec.zone_said words.old }
{
    let word = words.next_part()?;
    if is(word, b"@") {
        root(words)
    } else {
        other_zone(word, words)
    }
}

/// The version of the script.
fn version<'a>(words: &mut Parts<'a>) -> Option<Heading<'a>>
    ensures { option_map heading_in result ≡ option_map spec.version_line (option_and_then spec.version_word (spec.only_word words.old)) }
{
    Some(Heading::Version(version_named(only_word(words)?)?))
}

/// The size of the cache.
fn size<'a>(words: &mut Parts<'a>) -> Option<Heading<'a>>
    ensures { option_map heading_in result ≡ option_map spec.size_line (option_and_then spec.size_word (spec.only_word words.old)) }
{
    Some(Heading::Size(size_named(only_word(words)?)?))
}

/// Whether all questions are forwarded.
fn forward<'a>(words: &mut Parts<'a>) -> Option<Heading<'a>>
    ensures { option_map heading_in result ≡ option_map spec.forward_line (option_and_then spec.yes_word (spec.only_word words.old)) }
{
    Some(Heading::Forward(yes_or_no(only_word(words)?)?))
}

/// Who may ask.
fn allow<'a>(words: &mut Parts<'a>) -> Option<Heading<'a>>
    ensures { option_map heading_in result ≡ option_map spec.allow_line (spec.only_word words.old) }
{
    Some(Heading::Allow(only_word(words)?))
}

/// The seed.
fn seed<'a>(words: &mut Parts<'a>) -> Option<Heading<'a>>
    ensures { option_map heading_in result ≡ option_map spec.seed_line (option_and_then spec.seed_word (spec.only_word words.old)) }
{
    Some(Heading::Seed(seed_spelled(only_word(words)?)?))
}

/// The end of the head, where no word is left.
#[tactic(auto, unfolding(crate::specs::Script::at_end))]
fn begin<'a>(words: &mut Parts<'a>) -> Option<Heading<'a>>
    ensures { option_map heading_in result ≡ at_end words.old spec.begin_line }
{
    match words.next_part() {
        Some(_) => None,
        None => Some(Heading::Begin),
    }
}

/// What words say, of which the first is this.
#[tactic(auto, unfolding(crate::specs::Heading::heading_by))]
fn heading_by<'a>(first: &[u8], words: &mut Parts<'a>) -> Option<Heading<'a>>
    ensures { option_map heading_in result ≡ spec.heading_by first.now words.old }
{
    if is(first, b"dnscache-script") {
        version(words)
    } else if is(first, b"cachesize") {
        size(words)
    } else if is(first, b"forwardonly") {
        forward(words)
    } else if is(first, b"allow") {
        allow(words)
    } else if is(first, b"zone") {
        zone(words)
    } else if is(first, b"seed") {
        seed(words)
    } else if is(first, b"begin") {
        begin(words)
    } else {
        None
    }
}

/// What a line says. None comes exactly where it is no line of a head.
#[tactic(auto, unfolding(crate::specs::Heading::heading_of))]
pub(crate) fn read_heading(line: &[u8]) -> Option<Heading<'_>>
    ensures { option_map heading_in result ≡ spec.heading_of line.now }
{
    let mut words = Parts::new(line, b' ');
    let first = words.next_part()?;
    heading_by(first, &mut words)
}
