//! A script in memory, as a source.
ghost use Rattle.std.specs.Prelude.{◌≡◌, ℕ, ◌≤◌, ◌<◌, List, [], ◌++◌, length, Some, refl};
ghost use Rattle.std.proofs.Common.{◌∙◌, ap, sym, append_assoc};
ghost use Rattle.std.specs.Io.KnownBytes.{IsAtEnd};
ghost use Rattle.dc_event.specs.Answers.{taken_by, TakesAtMost, count_taken, IfTakeFailed};

use dc_event::{Source, Taken};
use std::marker::Model;

/// Bytes in memory that are lent. It never fails.
#[derive(Drop)]
pub struct Reading<'a> {
    rest: &'a [u8],
}

impl<'a> Model for Reading<'a> {
    ghost use Rattle.std.specs.Prelude.{ℕ, List};

    ghost Value = { List ℕ };

    ghost view = { λ a. a.rest.now };
}

impl<'a> Reading<'a> {
    /// A source of these bytes.
    pub fn new(bytes: &'a [u8]) -> Reading<'a>
        ensures { result ≡ bytes.now }
    {
        Reading { rest: bytes }
    }
}

impl Source for Reading<'_> {
    ghost took = { λ a xs b. a ≡ xs ++ b };

    ghost left = { λ a. Some a };

    ghost faults = { λ _. 0 };

    ghost refused = { λ a b. ⊥ };

    fn take(&mut self, into: &mut [u8]) -> Taken {
        let count = self.rest.len().min(into.len());
        into[..count].copy_from_slice(&self.rest[..count]);
        self.rest = &self.rest[count..];
        Taken::Bytes(count)
    }

    fn faults(&self) -> u64 {
        0
    }

    ghost took_none = { λ a. refl };

    ghost took_both = { λ a b c xs ys p q. p ∙ ap (λ l. xs ++ l) q ∙ sym (append_assoc xs ys c) };

    ghost took_left = { λ a b xs p. p };
}
