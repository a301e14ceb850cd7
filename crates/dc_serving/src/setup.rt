//! What is read before clients are served.
ghost use Rattle.std.specs.Prelude.{◌≡◌};
ghost use Rattle.dc_event.specs.Causes.{Fares};
ghost use Rattle.dc_status.specs.Faults.{files_well, source_well};
ghost use Rattle.dc_serving.specs.Setup.{SetsUp, fault_by};

use crate::seed::{SEED, Seed, take_seed};
use dc_config::{Env, Files, load};
use dc_event::Source;
use dc_rules::Config;
use dc_status::Status;
use std::alloc::Global;

/// What serving rests on.
#[derive(Drop)]
pub struct Basis {
    /// The configuration.
    pub config: Config,
    /// The seed of the random words.
    pub seed: [u8; SEED],
}

/// Reads the configuration that the environment and the files give, and then the seed that the source begins with.
///
/// Refusals come in this order: those of the configuration, and `SeedShort` or `ReadFault`.
pub fn set_up<F: Files, S: Source>(
    alloc: Global,
    env: &Env,
    files: &mut F,
    source: &mut S,
) -> Result<Basis, Status>
    ensures set_up { SetsUp S.took S.left env.now (F.tree files.old) source.old source.new result }
    ensures files { F.tree files.new ≡ F.tree files.old }
    ensures files_fare { Fares F.asked F.refused F.faults (files_well (fault_by result)) files.old files.new }
    ensures source_fares { Fares S.took S.refused S.faults (source_well (fault_by result)) source.old source.new }
{
    let config = match load(alloc, env, files) {
        Ok(config) => config,
        Err(error) => return Err(Status::from(error)),
    };
    match take_seed(source) {
        Seed::Whole(seed) => Ok(Basis { config, seed }),
        Seed::Short => Err(Status::SeedShort),
        Seed::Failed => Err(Status::ReadFault),
    }
}
