//! Folders and files.
ghost use Rattle.std.specs.Prelude.{◌≡◌, ℕ, List, [], ◌∷◌, ◌++◌, Option, Some};
ghost use Rattle.dc_config.specs.Tree.{Tree};
ghost use Rattle.dc_config.specs.Told.{IsListing, IsReading, count_listed, count_read, IfListed, IfRead, IfListFailed, IfReadFailed};

use crate::FileName;
use std::alloc::Global;

/// The answer of `Files::list`.
#[derive(Drop)]
pub enum Listed {
    /// The names of the folder's files, in any order.
    Names(Vec<FileName>),
    /// There is no such folder.
    Absent,
    /// The folder couldn't be read. The count of faults is one higher.
    Failed,
    /// There is no memory.
    NoMemory,
}

/// The answer of `Files::read`.
#[derive(Drop)]
pub enum FileRead {
    /// The bytes of the file.
    Bytes(Vec<u8>),
    /// There is no such file.
    Absent,
    /// The file couldn't be read. The count of faults is one higher.
    Failed,
    /// There is no memory.
    NoMemory,
}

/// Folders and files, which no call changes.
pub trait Files {
    /// What they hold, where that is told.
    ghost tree: { Self → Option Tree };
    /// How often a call failed.
    ghost faults: { Self → ℕ };
    /// Between these two states these folders and files were asked for, in this order, and no call failed.
    ghost asked: { Self → List (List ℕ) → Self → Type 0 };
    /// Between these two states one call failed, and nothing else was done.
    ghost refused: { Self → Self → Type 0 };

    /// The names of a folder's files.
    fn list(&mut self, alloc: Global, folder: &str) -> Listed
        ensures same { tree self.new ≡ tree self.old }
        ensures names { (t : Tree) → tree self.old ≡ Some t → IsListing result (t.names folder.now) }
        ensures asked { IfListed result (asked self.old (folder.now ∷ []) self.new) }
        ensures count { faults self.new ≡ count_listed result (faults self.old) }
        ensures failed { IfListFailed result (refused self.old self.new) };

    /// The bytes of a file.
    fn read(&mut self, alloc: Global, path: &str) -> FileRead
        ensures same { tree self.new ≡ tree self.old }
        ensures bytes { (t : Tree) → tree self.old ≡ Some t → IsReading result (t.bytes path.now) }
        ensures asked { IfRead result (asked self.old (path.now ∷ []) self.new) }
        ensures count { faults self.new ≡ count_read result (faults self.old) }
        ensures failed { IfReadFailed result (refused self.old self.new) };

    /// How often a call failed. The count stands still at 2^64 - 1.
    fn faults(&self) -> u64
        ensures { result ≡ faults self.now };

    ghost asked_none: { (a : Self) → asked a [] a };

    ghost asked_both: { (a b c : Self) (xs ys : List (List ℕ)) → asked a xs b → asked b ys c → asked a (xs ++ ys) c };
}
