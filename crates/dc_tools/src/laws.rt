//! A law on how a tool ends.

ghost use Rattle.std.specs.Prelude.{◌≡◌, ◌≢◌, ◌⊎◌, ℕ, List};
ghost use Rattle.dc_lookup.specs.Lookup.{Lookup, ended, complete};
ghost use Rattle.dc_stub.specs.Look.{Closes};
ghost use Rattle.dc_stub.specs.declared.status.ToolStatus.{ToolStatus};

use dc_event::World;

/// Where each word has had its answer, a tool is done, unless a write failed or there wasn't memory enough.
pub fn answered_words_are_done<W: World>()
    ensures { (status : ToolStatus) (l : Lookup) (text : List ℕ) (count limit : ℕ) (world : W)
        → Closes status l text count limit (W.used_up world) (W.broken world) → l.stage ≡ ended complete → status ≢ ToolStatus.WriteFault
        → (status ≡ ToolStatus.Done) ⊎ (status ≡ ToolStatus.NoMemory) }
{}
