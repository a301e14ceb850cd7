//! All the memory that serving and replaying take.
ghost use Rattle.std.specs.Prelude.{◌≡◌, IfOk};
ghost use Rattle.dc_machine.specs.Run.{opening};
ghost use Rattle.dc_rules.specs.Settings.{rules_of};
ghost use Rattle.dc_serving.specs.Runs.{cache_of};

use dc_core::Core;
use dc_event::Inbox;
use dc_ring::ArenaStore;
use dc_rules::Config;
use std::alloc::{AllocError, Global};

/// An empty cache of the configured size.
pub fn store_of(alloc: Global, config: &Config) -> Result<ArenaStore, AllocError>
    ensures empty { IfOk result (λ s. s ≡ cache_of config.now) }
{
    ArenaStore::new(alloc, config.size)
}

/// A core with an empty cache of the configured size.
pub fn core_of(alloc: Global, config: Config) -> Result<Core<ArenaStore>, AllocError>
    ensures opening { IfOk result (λ c. c ≡ record { rules = rules_of config; machine = opening (cache_of config); handled = 0 }) }
{
    let store = store_of(alloc, &config)?;
    Core::new(alloc, config, store)
}

/// A core of a configuration that begins with this cache, and a place for its events.
pub fn memory_of(
    alloc: Global,
    config: Config,
    first: ArenaStore,
) -> Result<(Core<ArenaStore>, Inbox), AllocError>
    ensures opening { IfOk result (λ m. m.0 ≡ record { rules = rules_of config; machine = opening first; handled = 0 }) }
{
    let inbox = Inbox::new(alloc)?;
    let core = Core::new(alloc, config, first)?;
    Ok((core, inbox))
}
