//! The core of a simulation, and its random words.
ghost use Rattle.std.specs.Prelude.{◌≡◌, IfOk};
ghost use Rattle.dc_model.specs.Cache.{empty};
ghost use Rattle.dc_machine.specs.Run.{opening};
ghost use Rattle.dc_rules.specs.Settings as settings;
ghost use Rattle.dc_simulation.specs.Loop as model;

use dc_core::Core;
use dc_name::Name;
use dc_ring::ArenaStore;
use dc_rules::{Config, Permit, Zones};
use std::alloc::{AllocError, Global};

/// How many bytes the cache has.
const SIZE: u32 = 1_000_000;

/// The address of the root's server.
const ROOT: [u8; 4] = [10, 0, 0, 1];

/// The root, with its server.
fn zones(alloc: Global) -> Result<Zones, AllocError>
    ensures { IfOk result (λ z. z ≡ model.rules.zones) }
{
    let mut zones = Zones::new(alloc)?;
    let mut servers = [[0; 4]; 16];
    servers[0] = ROOT;
    let _ = zones.add(&Name::root(), &servers);
    Ok(zones)
}

/// Clients on 127.
fn permit(alloc: Global) -> Result<Permit, AllocError>
    ensures { IfOk result (λ p. p ≡ model.rules.permits) }
{
    let mut permit = Permit::new(alloc)?;
    let _ = permit.add(b"127");
    Ok(permit)
}

/// The configuration. It has no addresses, since it serves no one.
fn config(alloc: Global) -> Result<Config, AllocError>
    ensures { IfOk result (λ c. settings.rules_of c ≡ model.rules) }
{
    Ok(Config {
        size: SIZE,
        forward: false,
        ip: [0; 4],
        ipsend: [0; 4],
        zones: zones(alloc)?,
        permit: permit(alloc)?,
    })
}

/// The core, with an empty cache.
pub(crate) fn core(alloc: Global) -> Result<Core<ArenaStore>, AllocError>
    ensures { IfOk result (λ c. c ≡ record { rules = model.rules; machine = opening (empty 1000000); handled = 0 }) }
{
    let config = config(alloc)?;
    let store = ArenaStore::new(alloc, SIZE)?;
    Core::new(alloc, config, store)
}

/// The seed of the random words: the eight bytes of the number, and zeros.
pub(crate) fn seed(number: u64) -> [u8; 32]
    ensures { result ≡ model.seed_of number }
{
    let mut seed = [0; 32];
    seed[..8].copy_from_slice(&number.to_be_bytes());
    seed
}
