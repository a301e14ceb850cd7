//! What the process was started with.
ghost use Rattle.std.specs.Prelude.{None};

use crate::{Invocation, NoMemory, Unread};
use std::alloc::Global;
use std::env::{self, VarError};
use std::io::ErrorKind;

/// What the process of a runtime was started with. It tells nothing.
#[derive(Drop)]
pub struct ProcessInvocation<'a> {
    rt: &'a HostRuntime,
}

impl ProcessInvocation<'_> {
    /// What the process of this runtime was started with.
    pub fn new(rt: &HostRuntime) -> ProcessInvocation<'_> {
        ProcessInvocation { rt }
    }
}

impl Invocation for ProcessInvocation<'_> {
    ghost arguments = { λ _. None };

    ghost values = { λ _. None };

    fn arguments(&self, alloc: Global) -> Result<Vec<String>, Unread> {
        let arguments = match env::args(self.rt) {
            Ok(arguments) => arguments,
            Err(why) if why.kind() == ErrorKind::OutOfMemory => return Err(Unread::NoMemory),
            Err(_) => return Err(Unread::Strange),
        };
        let mut texts = Vec::new(alloc);
        for argument in arguments {
            if texts.push(argument).is_err() {
                return Err(Unread::NoMemory);
            }
        }
        Ok(texts)
    }

    fn value(&self, _alloc: Global, name: &str) -> Result<Option<String>, NoMemory> {
        match env::var(self.rt, name) {
            Ok(value) => Ok(Some(value)),
            Err(VarError::OutOfMemory) => Err(NoMemory),
            Err(_) => Ok(None),
        }
    }
}
