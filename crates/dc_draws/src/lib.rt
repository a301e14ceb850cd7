//! Random words of a seed, seventeen for each event, and what they decide: the order in which
//! servers are asked, the id of a query and its local port.
#![tactic(auto)]

ghost use Rattle.std.specs.Prelude.{◌≡◌, ◌+◌, ◌^◌, ◌<◌};
ghost use Rattle.dc_model.specs.Draws.{draws_of, shuffled, id_of, port_of};

use rand_chacha::ChaCha20Rng;
use rand_core::SeedableRng;
use rand_core::utils::NextWord;
use std::marker::Model;

/// How many words an event has.
pub const WORDS: usize = 17;

/// The words of a seed, event by event: ChaCha20's key stream under the seed as key, of stream 0.
///
/// Contracts see the seed, and for how many events words were given.
#[derive(Drop)]
pub struct Draws {
    seed: [u8; 32],
    given: u64,
    rng: ChaCha20Rng,
}

impl Model for Draws {
    ghost use Rattle.std.specs.Prelude.{◌≡◌, ◌*◌};
    ghost use Rattle.rand_chacha.specs.ChaCha.{key_of};
    ghost use Rattle.dc_draws.specs.Drawn.{Drawn};

    ghost Value = { Drawn };

    ghost view = { λ a. record { seed = a.seed; given = a.given } };

    ghost invariant = { λ a. a.rng ≡ record { key = key_of a.seed; stream = 0; word_pos = 17 * a.given } };
}

impl Draws {
    /// The words of a seed, from the first event on.
    pub fn from_seed(seed: [u8; 32]) -> Draws
        ensures { result ≡ record { seed = seed; given = 0 } }
    {
        Draws {
            seed,
            given: 0,
            rng: ChaCha20Rng::from_seed(seed),
        }
    }

    /// The words of the next event: those of event i, counted from 0, are the words 17i to 17i + 16.
    pub fn next(&mut self) -> [u32; WORDS]
        requires { self.old.given < 2 ^ 60 }
        ensures words { result ≡ draws_of self.old.seed self.old.given }
        ensures given { self.new ≡ record { seed = self.old.seed; given = self.old.given + 1 } }
    {
        let mut words = [0; WORDS];
        for word in words.iter_mut() {
            *word = self.rng.next_word();
        }
        self.given += 1;
        words
    }
}

/// Shuffles the places of servers: for n = 16 down to 2, place `draws[16 - n] mod n` is swapped
/// with place n - 1 (djbdns' dns_sortip.c).
pub fn shuffle(servers: &mut [[u8; 4]; 16], draws: &[u32; WORDS])
    ensures { servers.new ≡ shuffled draws.now servers.old }
{
    for (i, draw) in draws[..15].iter().enumerate() {
        let n = 16 - i;
        servers.swap(*draw as usize % n, n - 1);
    }
}

/// The id of a query: `draws[15] mod 65536`.
pub fn id_of(draws: &[u32; WORDS]) -> u16
    ensures { result ≡ id_of draws.now }
{
    (draws[15] % 65536) as u16
}

/// The local port of a link: `1025 + draws[16] mod 64510`, so from 1025 to 65534.
pub fn port_of(draws: &[u32; WORDS]) -> u16
    ensures { result ≡ port_of draws.now }
{
    (1025 + draws[16] % 64510) as u16
}

#[cfg(test)]
mod tests;
