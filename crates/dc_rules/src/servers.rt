//! Servers in text.
ghost use Rattle.std.specs.Prelude.{◌≡◌, take_while};
ghost use Rattle.dc_model.specs.Rules as model;
ghost use Rattle.dc_rules.specs.Lines.{is_address_byte};

use dc_text::{Parts, address};

/// Whether a byte may stand in an address in text.
fn is_address_byte(byte: u8) -> bool
    ensures { result ≡ is_address_byte byte }
{
    byte.is_ascii_digit() || byte == b'.'
}

/// The digits and dots with which a line begins.
fn address_text(line: &[u8]) -> &[u8]
    ensures { result.now ≡ take_while is_address_byte line.now }
{
    for (end, byte) in line.iter().enumerate() {
        if !is_address_byte(*byte) {
            return &line[..end];
        }
    }
    line
}

/// An address, unless it is 0.0.0.0.
pub fn if_filled(found: [u8; 4]) -> Option<[u8; 4]>
    ensures { result ≡ model.if_filled found }
{
    if found == [0; 4] { None } else { Some(found) }
}

/// The address with which a line begins, unless it is 0.0.0.0: its longest prefix of digits and dots.
pub fn address_in(line: &[u8]) -> Option<[u8; 4]>
    ensures { result ≡ model.address_in line.now }
{
    let found = address(address_text(line))?;
    if_filled(found)
}

/// The servers that a text names (after djbdns' roots.c). Lines are parted by line feeds. A line counts where its longest
/// prefix of digits and dots is an address other than 0.0.0.0. The addresses fill places from the first on; those after the
/// sixteenth are ignored, as are other lines.
pub fn read_servers(text: &[u8]) -> [[u8; 4]; 16]
    ensures { result ≡ model.read_servers text.now }
{
    let mut places = [[0; 4]; 16];
    let mut filled = 0;
    let mut lines = Parts::new(text, b'\n');
    while let Some(line) = lines.next_part() {
        if let Some(found) = address_in(line) {
            if filled == 16 {
                return places;
            }
            places[filled] = found;
            filled += 1;
        }
    }
    places
}
