//! A law on how filtering ends.

ghost use Rattle.std.specs.Prelude.{◌≡◌, ◌≢◌, ◌≤◌, ◌^◌, ℕ, List, length, true};
ghost use Rattle.std.specs.Io.KnownBytes.{IsAtEnd};
ghost use Rattle.std.specs.List.{AllByRecursion};
ghost use Rattle.dc_lookup.specs.Filter.{Filter, is_at_end};
ghost use Rattle.dc_sieve.specs.Input.{IsShort};
ghost use Rattle.dc_sieve.specs.Sifted.{Closes};
ghost use Rattle.dc_stub.specs.declared.status.ToolStatus.{ToolStatus};

use dc_event::{Source, World};

/// Where the input has at most 2^60 lines, of at most 4096 bytes each, and the events have led the filter to its end, filtering is done,
/// unless the input or the output failed.
pub fn filtered_lines_are_done<S: Source, W: World>()
    ensures { (status : ToolStatus) (lines : List (List ℕ)) (f : Filter) (text : List ℕ) (count limit : ℕ) (source : S) (world : W)
        → Closes status lines f text count limit (W.used_up world) (W.broken world) (IsAtEnd (S.left source)) → is_at_end f ≡ true
        → AllByRecursion IsShort lines → length lines ≤ 2 ^ 60 → status ≢ ToolStatus.ReadFault → status ≢ ToolStatus.WriteFault
        → status ≡ ToolStatus.Done }
{}
