//! Which core wants a tick first.
ghost use Rattle.std.specs.Prelude.{◌≡◌, ◌<◌, ◌+◌, ◌^◌, ℕ, length, map, IfSome};
ghost use Rattle.dc_split.specs.Split as split;
ghost use Rattle.dc_shard.specs.Bays.{states_of};
ghost use Rattle.dc_shard.specs.Dues.{due_as};

use crate::bay::Bay;
use dc_engine::{Effects, Engine};

/// A core, by its place, and the moment at which it wants a tick.
#[derive(Clone, Copy)]
pub(crate) struct Due {
    pub(crate) core: usize,
    pub(crate) moment: u64,
}

/// The earlier of a core's moment, where it has one, and that of the cores behind it. Where they are equal it is the core's.
fn earlier(core: usize, wake: Option<u64>, behind: Option<Due>) -> Option<Due>
    ensures { due_as result ≡ split.earlier core wake (due_as behind) }
{
    let Some(moment) = wake else {
        return behind;
    };
    match behind {
        Some(due) if due.moment < moment => Some(due),
        _ => Some(Due { core, moment }),
    }
}

/// The core with the least moment, the lowest where some are equal. The first of these stands at this place.
#[tactic(auto, unfolding(dc_split::specs::Split::due_from))]
pub(crate) fn due_from<E: Engine, O: Effects>(core: usize, bays: &[Bay<E, O>]) -> Option<Due>
    requires { core + length bays.now < 2 ^ 64 }
    ensures due { due_as result ≡ split.due_from core (map E.machine.wake (states_of E.state bays.now)) }
    ensures within { IfSome result (λ d. d.core < core + length bays.now) }
{
    let Some((bay, behind)) = bays.split_first() else {
        return None;
    };
    earlier(core, bay.core.wake(), due_from(core + 1, behind))
}

/// The core that a tick goes to: the first, where none is due.
pub(crate) fn due_core(due: Option<Due>) -> usize
    ensures core { result ≡ split.due_core (due_as due) }
    ensures within { (n : ℕ) → 0 < n → IfSome due (λ d. d.core < n) → result < n }
{
    match due {
        Some(due) => due.core,
        None => 0,
    }
}
