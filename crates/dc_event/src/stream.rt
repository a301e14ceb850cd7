//! Where bytes come from and go to.
ghost use Rattle.std.specs.Prelude.{◌≡◌, ℕ, ◌<◌, List, [], ◌++◌, length};
ghost use Rattle.std.specs.declared.option.Option.{Option};
ghost use Rattle.std.specs.Io.KnownBytes.{IsAtEnd, Consumes};
ghost use Rattle.dc_event.specs.Answers.{taken_by, TakesAtMost, count_taken, IfTakeFailed, put_by, PutsSome, count_put, IfPutFailed};

use crate::{Put, Taken};

/// Where bytes come from.
pub trait Source {
    /// Between these two states these bytes were taken.
    ghost took: { Self → List ℕ → Self → Type 0 };
    /// The bytes that are left, where told.
    ghost left: { Self → Option (List ℕ) };
    /// How often the source has failed.
    ghost faults: { Self → ℕ };
    /// Between these two states one call failed, and nothing else was done.
    ghost refused: { Self → Self → Type 0 };

    /// Takes the next bytes, as many as the source gives at once. None are taken at the end, and where the source fails.
    fn take(&mut self, into: &mut [u8]) -> Taken
        requires { 0 < length into.old }
        ensures took { took self.old (taken_by result into.new) self.new }
        ensures bound { TakesAtMost result (length into.new) }
        ensures end { result ≡ Taken.Bytes 0 → IsAtEnd (left self.new) }
        ensures count { faults self.new ≡ count_taken result (faults self.old) }
        ensures failed { IfTakeFailed result (refused self.old self.new) };

    /// How often the source has failed. The count stands still at 2^64 - 1.
    fn faults(&self) -> u64
        ensures { result ≡ faults self.now };

    ghost took_none: { (a : Self) → took a [] a };

    ghost took_both: { (a b c : Self) (xs ys : List ℕ) → took a xs b → took b ys c → took a (xs ++ ys) c };

    /// Where the bytes left are told, they begin with those taken.
    ghost took_left: { (a b : Self) (xs : List ℕ) → took a xs b → Consumes (left a) (left b) xs };
}

/// Where bytes go to.
pub trait Sink {
    /// Between these two states these bytes were put.
    ghost gained: { Self → List ℕ → Self → Type 0 };
    /// How often the sink has failed.
    ghost faults: { Self → ℕ };
    /// Between these two states one call failed, and nothing else was done.
    ghost refused: { Self → Self → Type 0 };

    /// Puts the first bytes, at least one, as many as the sink takes at once. None are put where the sink fails.
    fn put(&mut self, bytes: &[u8]) -> Put
        requires { 0 < length bytes.now }
        ensures gained { gained self.old (put_by result bytes.now) self.new }
        ensures bound { PutsSome result (length bytes.now) }
        ensures count { faults self.new ≡ count_put result (faults self.old) }
        ensures failed { IfPutFailed result (refused self.old self.new) };

    /// How often the sink has failed. The count stands still at 2^64 - 1.
    fn faults(&self) -> u64
        ensures { result ≡ faults self.now };

    ghost gained_none: { (a : Self) → gained a [] a };

    ghost gained_both: { (a b c : Self) (xs ys : List ℕ) → gained a xs b → gained b ys c → gained a (xs ++ ys) c };
}
