//! The seed of the random words, which a source begins with.
ghost use Rattle.std.specs.Prelude.{ℕ, List};
ghost use Rattle.dc_event.specs.Causes.{Fares};
ghost use Rattle.dc_serving.specs.Seeded.{SeedStands, well_seed};

use dc_event::{Source, Taken};

/// How many bytes a seed has.
pub const SEED: usize = 32;

/// The seed at the front of a source.
pub enum Seed {
    /// All of it.
    Whole([u8; SEED]),
    /// The source ended before.
    Short,
    /// The source failed before.
    Failed,
}

/// Takes the seed off the front of a source.
pub fn take_seed<S: Source>(source: &mut S) -> Seed
    ensures took { (bytes : List ℕ) × S.took source.old bytes source.new × SeedStands result bytes (S.left source.new) }
    ensures fares { Fares S.took S.refused S.faults (well_seed result) source.old source.new }
{
    let mut seed = [0; SEED];
    let mut count = 0;
    while count < SEED {
        match source.take(&mut seed[count..]) {
            Taken::Bytes(0) => return Seed::Short,
            Taken::Bytes(more) => count += more,
            Taken::Failed => return Seed::Failed,
        }
    }
    Seed::Whole(seed)
}
