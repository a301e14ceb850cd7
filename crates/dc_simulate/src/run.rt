//! The loop: the world's events, one by one.
ghost use Rattle.std.specs.Prelude.{◌≡◌, ◌^◌, ◌≤◌};
ghost use Rattle.dc_model.specs.Draws.{draws_of};
ghost use Rattle.dc_simulation.specs.World as world_model;
ghost use Rattle.dc_simulation.specs.Loop as model;
ghost use Rattle.dc_simulate.specs.Told.{loop_of};
ghost use Rattle.dc_simulate.specs.Going.{Next};

use dc_core::Core;
use dc_draws::Draws;
use dc_engine::{Engine, Inbox};
use dc_event::{Heard, World};
use dc_ring::ArenaStore;
use dc_sim::SimWorld;

/// Puts the next event into the inbox, where one is left.
fn next(world: &mut SimWorld, wake: Option<u64>, inbox: &mut Inbox) -> bool
    ensures { Next result inbox.new (world_model.next wake world.old) world.old world.new }
{
    match world.next(wake, inbox) {
        Heard::Event => true,
        Heard::End | Heard::Failed | Heard::Bad { .. } => false,
    }
}

/// Hands the core all events of the world.
pub(crate) fn run(
    core: &mut Core<ArenaStore>,
    world: &mut SimWorld,
    draws: &mut Draws,
    inbox: &mut Inbox,
)
    requires rules { core.old.rules ≡ model.rules }
    requires fresh { core.old.handled ≡ 0 }
    requires given { world.old.given ≡ 0 }
    requires words { draws.old.given ≡ 0 }
    requires few { world.old.events ≤ 2 ^ 46 }
    ensures { loop_of core.new world.new ≡ model.loops (draws_of draws.old.seed) world.old.events (loop_of core.old world.old) }
{
    core.launch(world);
    'events: while next(world, core.wake(), inbox) {
        let words = draws.next();
        core.step(inbox, &words, world);
    }
}
