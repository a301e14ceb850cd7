//! Files of the system.
ghost use Rattle.std.specs.Prelude.{◌≡◌, ℕ, None, Option, refl};
ghost use Rattle.std.proofs.Common.{◌∙◌};
ghost use Rattle.dc_event.specs.Causes.{counted};

use crate::unreadable::{Cause, Unreadable};
use crate::{FileName, FileRead, Files, Listed};
use std::alloc::Global;
use std::io::{ErrorKind, Read};
use std::marker::Model;
use std::rt::Files as FileSystem;
use std::{fs, io};

/// The most bytes of a file.
const MOST_BYTES: usize = 64_000_000;

/// The most bytes of all files that are read.
const MOST_READ: usize = 1_000_000_000;

/// The folders and files of a runtime. They tell nothing. A folder or file that can't be read, a name that isn't UTF-8, a file of over
/// 64000000 bytes, and one with which all bytes that were read pass 1000000000 are faults. Which of them was the last one, and why, is kept.
#[derive(Drop)]
pub struct HostFiles<R> {
    rt: R,
    faults: u64,
    read: usize,
    unreadable: Option<Unreadable>,
}

impl<R> Model for HostFiles<R> {
    ghost use Rattle.std.specs.Prelude.{ℕ};

    ghost Value = { ℕ };

    ghost view = { λ a. a.faults };
}

impl<R> HostFiles<R> {
    /// The folders and files of this runtime.
    pub fn new(rt: R) -> HostFiles<R>
        ensures { result ≡ 0 }
    {
        HostFiles {
            rt,
            faults: 0,
            read: 0,
            unreadable: None,
        }
    }

    /// The most bytes that the next file may have.
    fn room(&self) -> usize {
        MOST_BYTES.min(MOST_READ.saturating_sub(self.read))
    }

    /// The folder or file that couldn't be read, where there was one: the last one.
    pub fn unreadable(&self) -> Option<&Unreadable> {
        self.unreadable.as_ref()
    }

    /// Counts a fault, and keeps which path it was and why.
    fn fail(&mut self, alloc: Global, path: &str, cause: Cause)
        ensures { self.new ≡ counted self.old }
    {
        self.faults = self.faults.saturating_add(1);
        self.unreadable = Some(Unreadable {
            path: String::from_str(alloc, path).ok(),
            cause,
        });
    }
}

/// The names of a folder's files.
fn names_in<R: FileSystem + Alloc + Clone + Drop>(
    rt: &R,
    alloc: Global,
    folder: &str,
) -> io::Result<Vec<FileName>> {
    let mut names = Vec::new(alloc);
    for entry in fs::read_dir(rt, folder)? {
        let entry = entry?;
        names.push(FileName::new(String::from_str(alloc, entry.file_name())?))?;
    }
    Ok(names)
}

/// The first bytes of a file, at most one more than `most`.
fn bytes_at<R: FileSystem>(rt: &R, alloc: Global, path: &str, most: usize) -> io::Result<Vec<u8>> {
    let mut bytes = Vec::new(alloc);
    fs::open(rt, path)?
        .take((most as u64).saturating_add(1))
        .read_to_end(&mut bytes)?;
    Ok(bytes)
}

impl<R: FileSystem + Alloc + Clone + Drop> Files for HostFiles<R> {
    ghost tree = { λ _. None };

    ghost faults = { λ s. s };

    ghost asked = { λ a paths b. b ≡ a };

    ghost refused = { λ a b. b ≡ counted a };

    fn list(&mut self, alloc: Global, folder: &str) -> Listed {
        match names_in(&self.rt, alloc, folder) {
            Ok(names) => Listed::Names(names),
            Err(why) => match why.kind() {
                ErrorKind::NotFound => Listed::Absent,
                ErrorKind::OutOfMemory => Listed::NoMemory,
                _ => {
                    self.fail(alloc, folder, Cause::System(why));
                    Listed::Failed
                }
            },
        }
    }

    fn read(&mut self, alloc: Global, path: &str) -> FileRead {
        let room = self.room();
        match bytes_at(&self.rt, alloc, path, room) {
            Ok(bytes) if bytes.len() <= room => {
                self.read = self.read.saturating_add(bytes.len());
                FileRead::Bytes(bytes)
            }
            Ok(_) => {
                self.fail(alloc, path, Cause::TooLong);
                FileRead::Failed
            }
            Err(why) => match why.kind() {
                ErrorKind::NotFound => FileRead::Absent,
                ErrorKind::OutOfMemory => FileRead::NoMemory,
                _ => {
                    self.fail(alloc, path, Cause::System(why));
                    FileRead::Failed
                }
            },
        }
    }

    fn faults(&self) -> u64 {
        self.faults
    }

    ghost asked_none = { λ a. refl };

    ghost asked_both = { λ a b c xs ys p q. q ∙ p };
}
