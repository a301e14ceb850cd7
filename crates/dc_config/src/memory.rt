//! Files in memory.
ghost use Rattle.std.specs.Prelude.{◌≡◌, ◌≢◌, ℕ, ◌↔◌, [], ◌∷◌, IfOk, IsTrue, Option, Some, refl};
ghost use Rattle.std.specs.Option.{option_copied};
ghost use Rattle.std.proofs.Common.{◌∙◌};
ghost use Rattle.dc_config.specs.Tree.{Tree};
ghost use Rattle.dc_config.specs.Told.{IsListing, IsReading, count_listed, count_read, IfListed, IfRead, IfListFailed, IfReadFailed};
ghost use Rattle.dc_config.specs.Kept as kept;

use crate::{FileName, FileRead, Files, Listed, NoMemory};
use std::alloc::Global;
use std::marker::Model;

/// The name under which a path lies in a folder: the folder stands before its first slash, and the name behind.
fn name_in<'a>(path: &'a str, folder: &str) -> Option<&'a str>
    ensures { option_copied result ≡ kept.name_in folder.now path.now }
{
    let (first, name) = path.split_once('/')?;
    if first == folder { Some(name) } else { None }
}

/// The names in a folder, in the order of the files.
fn names_in(
    alloc: Global,
    files: &[(String, Vec<u8>)],
    folder: &str,
) -> Result<Vec<FileName>, NoMemory>
    ensures { IfOk result (λ names. names.items ≡ kept.names_in folder.now (kept.entries_of files.now)) }
{
    let mut names = Vec::new(alloc);
    for file in files {
        if let Some(name) = name_in(file.0.as_str(), folder) {
            names.push(FileName::new(String::from_str(alloc, name)?))?;
        }
    }
    Ok(names)
}

/// What a folder lists.
fn list_of(alloc: Global, files: &[(String, Vec<u8>)], folder: &str) -> Listed
    ensures names { IsListing result (kept.if_any (kept.names_in folder.now (kept.entries_of files.now))) }
    ensures quiet { result ≢ Listed.Failed }
{
    match names_in(alloc, files, folder) {
        Ok(names) if names.is_empty() => Listed::Absent,
        Ok(names) => Listed::Names(names),
        Err(_) => Listed::NoMemory,
    }
}

/// The bytes of the first file of this path.
fn bytes_at<'a>(files: &'a [(String, Vec<u8>)], path: &str) -> Option<&'a [u8]>
    ensures { option_copied result ≡ kept.bytes_at path.now (kept.entries_of files.now) }
{
    for file in files {
        if file.0.as_str() == path {
            return Some(file.1.as_slice());
        }
    }
    None
}

/// What a path reads.
fn read_of(alloc: Global, files: &[(String, Vec<u8>)], path: &str) -> FileRead
    ensures bytes { IsReading result (kept.bytes_at path.now (kept.entries_of files.now)) }
    ensures quiet { result ≢ FileRead.Failed }
{
    match bytes_at(files, path) {
        None => FileRead::Absent,
        Some(found) => match Vec::from_slice(alloc, found) {
            Ok(bytes) => FileRead::Bytes(bytes),
            Err(_) => FileRead::NoMemory,
        },
    }
}

/// Files in memory. The calls whose numbers are in a list fail, counted from 1 over both kinds of call.
///
/// The folder of a file stands before the first slash of its path, and its name behind. A folder is there exactly where a
/// file lies in it.
#[derive(Drop)]
pub struct MemoryFiles {
    files: Vec<(String, Vec<u8>)>,
    fails: Vec<u64>,
    calls: u64,
    faults: u64,
}

impl Model for MemoryFiles {
    ghost use Rattle.dc_config.specs.Kept.{Drawer, entries_of};

    ghost Value = { Drawer };

    ghost view = { λ a. record { entries = entries_of a.files.items; fails = a.fails.items; calls = a.calls; faults = a.faults } };
}

impl MemoryFiles {
    /// Files of these paths and bytes.
    pub fn new(files: Vec<(String, Vec<u8>)>, fails: Vec<u64>) -> MemoryFiles
        ensures { result ≡ record { entries = kept.entries_of files.items; fails = fails.items; calls = 0; faults = 0 } }
    {
        MemoryFiles {
            files,
            fails,
            calls: 0,
            faults: 0,
        }
    }

    /// Counts a call, and whether it is to fail.
    fn is_failing(&mut self) -> bool
        ensures fails { result ≡ kept.fails_next self.old }
        ensures state { self.new ≡ kept.called self.old }
    {
        self.calls = self.calls.saturating_add(1);
        if self.fails.contains(&self.calls) {
            self.faults = self.faults.saturating_add(1);
            return true;
        }
        false
    }
}

impl Files for MemoryFiles {
    ghost tree = { λ s. Some (kept.tree_of s.entries) };

    ghost faults = { λ s. s.faults };

    ghost asked = { kept.Asked };

    ghost refused = { λ a b. b ≡ kept.refused a };

    fn list(&mut self, alloc: Global, folder: &str) -> Listed
        ensures same { Some (kept.tree_of self.new.entries) ≡ Some (kept.tree_of self.old.entries) }
        ensures names { (t : Tree) → Some (kept.tree_of self.old.entries) ≡ Some t → IsListing result (t.names folder.now) }
        ensures asked { IfListed result (kept.Asked self.old (folder.now ∷ []) self.new) }
        ensures count { self.new.faults ≡ count_listed result self.old.faults }
        ensures failed { IfListFailed result (self.new ≡ kept.refused self.old) }
        ensures fails { (result ≡ Listed.Failed) ↔ IsTrue (kept.fails_next self.old) }
        ensures state { self.new ≡ kept.called self.old }
    {
        if self.is_failing() {
            return Listed::Failed;
        }
        list_of(alloc, &self.files, folder)
    }

    fn read(&mut self, alloc: Global, path: &str) -> FileRead
        ensures same { Some (kept.tree_of self.new.entries) ≡ Some (kept.tree_of self.old.entries) }
        ensures bytes { (t : Tree) → Some (kept.tree_of self.old.entries) ≡ Some t → IsReading result (t.bytes path.now) }
        ensures asked { IfRead result (kept.Asked self.old (path.now ∷ []) self.new) }
        ensures count { self.new.faults ≡ count_read result self.old.faults }
        ensures failed { IfReadFailed result (self.new ≡ kept.refused self.old) }
        ensures fails { (result ≡ FileRead.Failed) ↔ IsTrue (kept.fails_next self.old) }
        ensures state { self.new ≡ kept.called self.old }
    {
        if self.is_failing() {
            return FileRead::Failed;
        }
        read_of(alloc, &self.files, path)
    }

    fn faults(&self) -> u64 {
        self.faults
    }

    ghost asked_none = { kept.Asked-none };

    ghost asked_both = { kept.Asked-both };
}

/// Files in memory that never fail. Folders are as those of `MemoryFiles`.
#[derive(Drop)]
pub struct QuietFiles {
    files: Vec<(String, Vec<u8>)>,
}

impl Model for QuietFiles {
    ghost use Rattle.std.specs.Prelude.{List};
    ghost use Rattle.dc_config.specs.Kept.{Entry, entries_of};

    ghost Value = { List Entry };

    ghost view = { λ a. entries_of a.files.items };
}

impl QuietFiles {
    /// Files of these paths and bytes.
    pub fn new(files: Vec<(String, Vec<u8>)>) -> QuietFiles
        ensures { result ≡ kept.entries_of files.items }
    {
        QuietFiles { files }
    }
}

impl Files for QuietFiles {
    ghost tree = { λ s. Some (kept.tree_of s) };

    ghost faults = { λ _. 0 };

    ghost asked = { λ a paths b. b ≡ a };

    ghost refused = { λ a b. ⊥ };

    fn list(&mut self, alloc: Global, folder: &str) -> Listed
        ensures same { Some (kept.tree_of self.new) ≡ Some (kept.tree_of self.old) }
        ensures names { (t : Tree) → Some (kept.tree_of self.old) ≡ Some t → IsListing result (t.names folder.now) }
        ensures asked { IfListed result (self.new ≡ self.old) }
        ensures count { 0 ≡ count_listed result 0 }
        ensures failed { IfListFailed result ⊥ }
        ensures unchanged { self.new ≡ self.old }
    {
        list_of(alloc, &self.files, folder)
    }

    fn read(&mut self, alloc: Global, path: &str) -> FileRead
        ensures same { Some (kept.tree_of self.new) ≡ Some (kept.tree_of self.old) }
        ensures bytes { (t : Tree) → Some (kept.tree_of self.old) ≡ Some t → IsReading result (t.bytes path.now) }
        ensures asked { IfRead result (self.new ≡ self.old) }
        ensures count { 0 ≡ count_read result 0 }
        ensures failed { IfReadFailed result ⊥ }
        ensures unchanged { self.new ≡ self.old }
    {
        read_of(alloc, &self.files, path)
    }

    fn faults(&self) -> u64 {
        0
    }

    ghost asked_none = { λ a. refl };

    ghost asked_both = { λ a b c xs ys p q. q ∙ p };
}
