//! The servers that a tool asks.
ghost use Rattle.std.specs.Prelude.{◌≡◌, ℕ, List, Some, None, IfOk, codes, false};
ghost use Rattle.dc_model.specs.Places.{places_of, all_empty};
ghost use Rattle.dc_event.specs.Causes.{Fares};
ghost use Rattle.dc_config.specs.Tree.{Tree};
ghost use Rattle.dc_config.specs.Environment.{value_of};
ghost use Rattle.dc_lookup.specs.Servers as tools;
ghost use Rattle.dc_stub.specs.Faults.{well_servers};

use dc_config::{Env, FileRead, Files};
use dc_rules::{address_in, if_filled};
use dc_text::{Parts, address};
use std::alloc::Global;

/// Why there are no servers.
#[derive(Clone, Copy, PartialEq, Eq, Debug)]
pub enum StubError {
    /// The file couldn't be read.
    FilesFault,
    /// There was no memory.
    NoMemory,
}

/// A space or a tab.
fn is_blank(byte: u8) -> bool
    ensures { result ≡ tools.is_blank byte }
{
    byte == b' ' || byte == b'\t'
}

/// What stands behind the blanks at the front.
fn past_blanks(text: &[u8]) -> &[u8]
    ensures { result.now ≡ tools.past_blanks text.now }
{
    for (end, byte) in text.iter().enumerate() {
        if !is_blank(*byte) {
            return &text[end..];
        }
    }
    &text[text.len()..]
}

/// The address behind blanks, of which there is one at least.
fn behind_blanks(text: &[u8]) -> Option<[u8; 4]>
    ensures { result ≡ tools.behind_blanks text.now }
{
    match text {
        [] => None,
        [first, rest @ ..] => {
            if is_blank(*first) {
                address_in(past_blanks(rest))
            } else {
                None
            }
        }
    }
}

/// The address of a line `nameserver ADDRESS`.
fn nameserver_in(line: &[u8]) -> Option<[u8; 4]>
    ensures { result ≡ tools.nameserver_in line.now }
{
    if line.starts_with(b"nameserver") {
        behind_blanks(&line[10..])
    } else {
        None
    }
}

/// The servers that a text names, or this machine where it names none.
fn read_nameservers(text: &[u8]) -> [[u8; 4]; 16]
    ensures { result ≡ places_of (tools.or_own (tools.servers_in (Some text.now))) }
{
    let mut places = [[0; 4]; 16];
    let mut filled = 0;
    let mut lines = Parts::new(text, b'\n');
    while let Some(line) = lines.next_part() {
        if let Some(found) = nameserver_in(line) {
            if filled == 16 {
                return places;
            }
            places[filled] = found;
            filled += 1;
        }
    }
    if filled == 0 {
        places[0] = [127, 0, 0, 1];
    }
    places
}

/// The server that the variable DNSCACHEIP says.
fn own_server(env: &Env) -> Option<[u8; 4]>
    ensures { result ≡ tools.own_server (value_of (codes "DNSCACHEIP") env.now) }
{
    let found = address(env.get("DNSCACHEIP")?.as_bytes())?;
    if_filled(found)
}

/// The servers that a tool asks: that of DNSCACHEIP, or those of `/etc/resolv.conf`, or this machine. `FilesFault` comes exactly where
/// the call on the files failed, which is then the last.
pub fn servers_of<F: Files>(
    alloc: Global,
    env: &Env,
    files: &mut F,
) -> Result<[[u8; 4]; 16], StubError>
    ensures servers { (t : Tree) → F.tree files.old ≡ Some t → IfOk result (λ servers. servers ≡ tools.tool_servers (value_of (codes "DNSCACHEIP") env.now) (t.bytes (codes "/etc/resolv.conf"))) }
    ensures place { IfOk result (λ servers. all_empty servers ≡ false) }
    ensures unread { (a : List ℕ) → tools.own_server (value_of (codes "DNSCACHEIP") env.now) ≡ Some a → files.new ≡ files.old }
    ensures same { F.tree files.new ≡ F.tree files.old }
    ensures fares { Fares F.asked F.refused F.faults (well_servers result) files.old files.new }
{
    if let Some(server) = own_server(env) {
        let mut places = [[0; 4]; 16];
        places[0] = server;
        return Ok(places);
    }
    match files.read(alloc, "/etc/resolv.conf") {
        FileRead::Bytes(bytes) => Ok(read_nameservers(&bytes)),
        FileRead::Absent => Ok(read_nameservers(b"")),
        FileRead::Failed => Err(StubError::FilesFault),
        FileRead::NoMemory => Err(StubError::NoMemory),
    }
}
