ghost use Rattle.std.specs.Prelude.{◌≡◌};

use crate::{Draws, id_of, port_of, shuffle};
use std::process::Abort;

/// The key stream of the key of 32 zero bytes, from the first block on (RFC 8439, A.1, test
/// vectors 1 and 2: nonce 0, block counters 0 and 1), as words low byte first.
const ZERO_KEY: [u32; 32] = [
    0xade0_b876,
    0x903d_f1a0,
    0xe56a_5d40,
    0x28bd_8653,
    0xb819_d2bd,
    0x1aed_8da0,
    0xccef_36a8,
    0xc70d_778b,
    0x7c59_41da,
    0x8d48_5751,
    0x3fe0_2477,
    0x374a_d8b8,
    0xf4b8_436a,
    0x1ca1_1815,
    0x69b6_87c3,
    0x8665_eeb2,
    0xbee7_079f,
    0x7a38_5155,
    0x7c97_ba98,
    0x0d08_2d73,
    0xa029_0fcb,
    0x6965_e348,
    0x3e53_c612,
    0xed7a_ee32,
    0x7621_b729,
    0x434e_e69c,
    0xb033_71d5,
    0xd539_d874,
    0x281f_ed31,
    0x45fb_0a51,
    0x1f0a_e1ac,
    0x6f4d_794b,
];

/// The first event has the words 0 to 16, the second goes on with word 17.
#[test]
fn published_words(rt: HostRuntime) {
    let mut draws = Draws::from_seed([0; 32]);
    let first = draws.next();
    let second = draws.next();
    for (word, expected) in first.iter().chain(second.iter()).zip(ZERO_KEY.iter()) {
        assert_eq!(rt; *word, *expected);
    }
    assert_eq!(rt; id_of(&first), 0xeeb2);
    assert_eq!(rt; port_of(&first), 1025 + (0xbee7_079f_u32 % 64510) as u16);
}

/// Words that choose place 0 each time move each server one place forward, and the first to the
/// end; words that choose the last place each time change nothing.
#[test]
fn shuffles(rt: HostRuntime) {
    let mut draws = [0; 17];
    let mut servers = numbered();
    shuffle(&mut servers, &draws);
    for (i, server) in servers.iter().enumerate() {
        let number = if i < 15 { i as u8 + 1 } else { 0 };
        assert_eq!(rt; server[3], number);
    }
    for (i, draw) in draws.iter_mut().enumerate() {
        *draw = if i < 15 { 15 - i as u32 } else { 7 };
    }
    let mut servers = numbered();
    shuffle(&mut servers, &draws);
    assert_eq!(rt; servers, numbered());
}

/// The random words may move to another thread.
#[test]
fn is_send(rt: HostRuntime) {
    fn sent<T: Send>(value: T) -> T
        ensures { result ≡ value }
    {
        value
    }
    let mut draws = sent(Draws::from_seed([7; 32]));
    let mut others = Draws::from_seed([7; 32]);
    assert_eq!(rt; draws.next(), others.next());
}

/// Sixteen servers, each with its place as last octet.
fn numbered() -> [[u8; 4]; 16] {
    let mut servers = [[10, 0, 0, 0]; 16];
    for (i, server) in servers.iter_mut().enumerate() {
        server[3] = i as u8;
    }
    servers
}
