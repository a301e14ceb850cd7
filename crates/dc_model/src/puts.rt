//! Laws on what a message leaves in the cache.

ghost use Rattle.std.specs.Prelude.{◌≡◌, ◌<◌, ◌^◌, ℕ, List, ◌++◌, IsTrue};
ghost use Rattle.std.specs.List.{AllByRecursion};
ghost use Rattle.std.specs.List.Sorted.{IsStrictlySortedBy};
ghost use Rattle.dc_model.specs.Name.{Name, IsName, same};
ghost use Rattle.dc_model.specs.Message.{Record};
ghost use Rattle.dc_model.specs.Cache.{Cache};
ghost use Rattle.dc_model.specs.Puts.{Put, Given, key_of, all_put, pair_of, pair_cmp, pairs_of, HasRecord, HasPair, lines_given, puts_given};

/// The pairs of records stand in order, each once; each is that of a record, and each record has its pair among them.
pub fn pairs_stand_once()
    ensures order { (rs : List Record) → IsStrictlySortedBy pair_cmp (pairs_of rs) }
    ensures from { (rs : List Record) → AllByRecursion (HasRecord rs) (pairs_of rs) }
    ensures all { (rs : List Record) → AllByRecursion (λ r. HasPair (pairs_of rs) (pair_of r)) rs }
{}

/// A key is that of one type and one owner, case aside.
pub fn keys_are_own()
    ensures { (kind other : ℕ) (owner name : Name) → kind < 2 ^ 16 → other < 2 ^ 16 → IsName owner → IsName name → key_of kind owner ≡ key_of other name → (kind ≡ other) × IsTrue (same owner name) }
{}

/// Puts and groups one after another: the cache after the first ones is where the others begin.
pub fn puts_go_on()
    ensures put { (ps qs : List Put) (second : ℕ) (c : Cache) → all_put (ps ++ qs) second c ≡ all_put qs second (all_put ps second c) }
    ensures lines { (gs hs : List Given) → lines_given (gs ++ hs) ≡ lines_given gs ++ lines_given hs }
    ensures puts { (gs hs : List Given) → puts_given (gs ++ hs) ≡ puts_given gs ++ puts_given hs }
{}
