//! What a program was started with.
ghost use Rattle.std.specs.Prelude.{◌≡◌, ℕ, List, Option, Some};
ghost use Rattle.dc_program.specs.Invoked.{IsTexts, IsValue};

use crate::NoMemory;
use std::alloc::Global;

/// Why arguments weren't read.
#[derive(Clone, Copy, Debug, PartialEq, Eq)]
pub enum Unread {
    /// One of them isn't UTF-8, or the system doesn't give them.
    Strange,
    /// There is no memory.
    NoMemory,
}

/// What a program was started with: its arguments, and the variables of its environment.
pub trait Invocation {
    /// The arguments, the program's name first, where they are told.
    ghost arguments: { Self → Option (List (List ℕ)) };
    /// For each name the value of the variable, or nothing where it isn't set; where that is told. A value that isn't UTF-8 counts as none.
    ghost values: { Self → Option (List ℕ → Option (List ℕ)) };

    /// The arguments, the program's name first.
    fn arguments(&self, alloc: Global) -> Result<Vec<String>, Unread>
        ensures { (texts : List (List ℕ)) → arguments self.now ≡ Some texts → IsTexts result texts };

    /// The value of a variable, if it is set.
    fn value(&self, alloc: Global, name: &str) -> Result<Option<String>, NoMemory>
        ensures { (value : List ℕ → Option (List ℕ)) → values self.now ≡ Some value → IsValue result (value name.now) };
}
