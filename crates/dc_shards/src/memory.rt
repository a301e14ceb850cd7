//! All the memory that several cores take before the first event.
ghost use Rattle.std.specs.Prelude.{◌≡◌, ◌≤◌, false, IfOk};
ghost use Rattle.dc_shard.specs.Bays.{states_of, outs_of, AreFree};
ghost use Rattle.dc_shard.specs.Rounds.{AreBlank};
ghost use Rattle.dc_shard.specs.Taped.{blank};
ghost use Rattle.dc_shards.specs.Serving.{core_opening, cores_opening};

use dc_core::Core;
use dc_event::Inbox;
use dc_ring::ArenaStore;
use dc_rules::Config;
use dc_serving::core_of;
use dc_shard::{Bay, Shards, Tape};
use std::alloc::{AllocError, Global};

/// A core with an empty cache, its part of the configured size where so many share it, and places for its events and its actions.
fn bay_of(
    alloc: Global,
    config: &Config,
    cores: u32,
) -> Result<Bay<Core<ArenaStore>, Tape>, AllocError>
    requires { 1 ≤ cores }
    ensures core { IfOk result (λ b. b.core ≡ core_opening cores config.now) }
    ensures free { IfOk result (λ b. b.given ≡ false) }
    ensures blank { IfOk result (λ b. b.out ≡ blank) }
{
    let mut part = config.copy(alloc)?;
    part.size = config.size / cores;
    let core = core_of(alloc, part)?;
    Ok(Bay {
        core,
        inbox: Inbox::new(alloc)?,
        draws: [0; 17],
        given: false,
        out: Tape::new(alloc)?,
    })
}

/// So many cores of a configuration, which share its cache.
fn bays_of(
    alloc: Global,
    config: &Config,
    cores: u32,
) -> Result<Vec<Bay<Core<ArenaStore>, Tape>>, AllocError>
    requires { 1 ≤ cores }
    ensures states { IfOk result (λ bays. states_of (λ r. r) bays.items ≡ cores_opening cores config.now) }
    ensures free { IfOk result (λ bays. AreFree bays.items) }
    ensures blank { IfOk result (λ bays. AreBlank (outs_of bays.items)) }
{
    let mut bays = Vec::new(alloc);
    let mut count = 0;
    while count < cores {
        bays.push(bay_of(alloc, config, cores)?)?;
        count += 1;
    }
    Ok(bays)
}

/// So many cores of a configuration, 1 to 8, which share its cache, and a place for the event that is handed out.
pub fn memory_of(
    alloc: Global,
    config: &Config,
    cores: u64,
) -> Result<(Shards<Core<ArenaStore>, Tape>, Inbox), AllocError>
    requires least { 1 ≤ cores }
    requires most { cores ≤ 8 }
    ensures states { IfOk result (λ m. states_of (λ r. r) m.0.bays.items ≡ cores_opening cores config.now) }
    ensures free { IfOk result (λ m. AreFree m.0.bays.items) }
    ensures blank { IfOk result (λ m. AreBlank (outs_of m.0.bays.items)) }
{
    let inbox = Inbox::new(alloc)?;
    let bays = bays_of(alloc, config, cores as u32)?;
    Ok((Shards::new(bays), inbox))
}
