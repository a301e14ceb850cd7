//! Which folder or file couldn't be read, and why.

use std::{fmt, io};

/// Why it couldn't be read.
#[derive(Clone, Copy)]
pub(crate) enum Cause {
    /// The reason that the system gave.
    System(io::Error),
    /// It has more bytes than there is room for.
    TooLong,
}

/// A folder or file that couldn't be read.
#[derive(Drop)]
pub struct Unreadable {
    /// Its path, where there was memory to keep it.
    pub(crate) path: Option<String>,
    pub(crate) cause: Cause,
}

impl fmt::Display for Unreadable {
    /// The path and the reason.
    fn fmt<W: fmt::Write>(&self, f: &mut fmt::Formatter<W>) -> fmt::Result {
        let path = match &self.path {
            Some(path) => path.as_str(),
            None => "a file",
        };
        match self.cause {
            Cause::System(reason) => write!(f, "unable to read {path}: {reason}"),
            Cause::TooLong => write!(f, "unable to read {path}: file too large"),
        }
    }
}
