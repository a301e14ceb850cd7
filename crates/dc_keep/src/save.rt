//! The cache that a service leaves.
ghost use Rattle.std.specs.Prelude.{◌≡◌, ◌↔◌, true, IsTrue};
ghost use Rattle.dc_event.specs.Causes.{Fares};
ghost use Rattle.dc_status.specs.Faults.{fault_of, sink_well};
ghost use Rattle.dc_keep.specs.Left.{HasEnded, Leaves};

use dc_event::Sink;
use dc_image::{Saved, save_image};
use dc_ring::ArenaStore;
use dc_status::Status;

/// Whether serving ended without a fault.
fn has_ended(status: &Status) -> bool
    ensures { IsTrue result ↔ HasEnded status.now }
{
    *status == Status::Done || *status == Status::Spent
}

/// Saves a store where serving ended with `Done` or `Spent`. The status is then that, or `WriteFault` in its place where the sink failed. After
/// any other status nothing is saved, and the status stays.
pub fn save_where_ended<O: Sink>(status: Status, store: &ArenaStore, image: &mut O) -> Status
    requires unsaved { sink_well (fault_of status) ≡ true }
    ensures leaves { Leaves O.gained store.now image.old image.new status result }
    ensures fares { Fares O.gained O.refused O.faults (sink_well (fault_of result)) image.old image.new }
{
    if !has_ended(&status) {
        return status;
    }
    match save_image(store, image) {
        Saved::Whole => status,
        Saved::Failed => Status::WriteFault,
    }
}
