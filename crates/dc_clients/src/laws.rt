//! Laws that the core's clients stand on.

ghost use Rattle.std.specs.Prelude.{◌≤◌, length};
ghost use Rattle.dc_model.specs.Limits.{most_active};
ghost use Rattle.dc_machine.specs.Machine.{Machine};
ghost use Rattle.dc_machine.specs.Kept.{IsSound, IsRoomy};

/// There are at most 220 active queries: 200 of clients over UDP, and one for each of twenty connections.
pub fn queries_are_few()
    ensures { (m : Machine) → IsSound m → IsRoomy m → length m.queries ≤ most_active }
{}
