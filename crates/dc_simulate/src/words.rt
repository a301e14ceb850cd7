//! The words that ask for a simulation.
ghost use Rattle.std.specs.Prelude.{◌≡◌, ◌^◌, ◌<◌, map, option_map, string_bytes};
ghost use Rattle.dc_simulate.specs.Words.{simulation_of, numbers_of};

use dc_text::number;

/// The number that the world is made from, and how many events it gives.
#[derive(Clone, Copy, Debug, PartialEq, Eq)]
pub struct Simulation {
    /// The number that names are drawn from, and the front of the key of the random words.
    pub seed: u64,
    /// How many events are given.
    pub events: u64,
}

impl Simulation {
    /// What the words behind the program's name ask for: the word `simulate` and two numbers in text below 2^64. `None` comes exactly where
    /// they are others.
    pub fn of(words: &[String]) -> Option<Simulation>
        ensures { option_map numbers_of result ≡ simulation_of (map string_bytes words.now) }
    {
        if words.len() != 3 || words[0].as_bytes() != b"simulate".as_slice() {
            return None;
        }
        let seed = number(words[1].as_bytes())?;
        let events = number(words[2].as_bytes())?;
        Some(Simulation { seed, events })
    }
}
