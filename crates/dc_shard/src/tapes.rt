//! Tapes of all cores: they are played in an order, and cleared.
ghost use Rattle.std.specs.Prelude.{◌≡◌, ◌<◌, ℕ, length, true, false, List, slice_index_or};
ghost use Rattle.dc_shard.specs.Bays.{states_of, outs_of, AreFree};
ghost use Rattle.dc_shard.specs.Rounds.{AreBlank, AreWhole, AllBelow, Cleared, played_by};

use crate::bay::Bay;
use crate::shards::Shards;
use crate::tape::Tape;
use dc_engine::{Effects, Engine};

/// Whether no tape wanted for memory.
fn are_whole<E: Engine>(bays: &[Bay<E, Tape>]) -> bool
    ensures { result ≡ true → AreWhole (outs_of bays.now) }
{
    let Some((bay, behind)) = bays.split_first() else {
        return true;
    };
    if bay.out.short() {
        return false;
    }
    are_whole(behind)
}

/// Gives the actions of these cores' tapes, one after the other.
fn play_each<E: Engine, O: Effects>(bays: &[Bay<E, Tape>], order: &[usize], out: &mut O)
    requires whole { AreWhole (outs_of bays.now) }
    requires places { AllBelow (length bays.now) order.now }
    ensures { O.acted out.old (played_by (outs_of bays.now) order.now) out.new }
{
    let Some((core, behind)) = order.split_first() else {
        return;
    };
    bays[*core].out.play(out);
    play_each(bays, behind, out);
}

/// Empties all tapes.
fn clear_each<E: Engine>(bays: &mut [Bay<E, Tape>])
    ensures { Cleared bays.old bays.new }
{
    let Some((bay, behind)) = bays.split_first_mut() else {
        return;
    };
    bay.out.clear();
    clear_each(behind);
}

impl<E: Engine> Shards<E, Tape> {
    /// Gives the actions of these cores' tapes, one after the other, or nothing where a tape wanted for memory.
    pub(crate) fn play<O: Effects>(&self, order: &[usize], out: &mut O) -> bool
        requires { AllBelow (length self.now.bays.items) order.now }
        ensures short { result ≡ false → out.new ≡ out.old }
        ensures whole { result ≡ true → AreWhole (outs_of self.now.bays.items) }
        ensures acted { result ≡ true → O.acted out.old (played_by (outs_of self.now.bays.items) order.now) out.new }
    {
        let bays = self.bays.as_slice();
        if !are_whole(bays) {
            return false;
        }
        play_each(bays, order, out);
        true
    }

    /// Empties all tapes.
    pub(crate) fn clear(&mut self)
        ensures { Cleared self.old.bays.items self.new.bays.items }
    {
        clear_each(&mut self.bays);
    }
}
