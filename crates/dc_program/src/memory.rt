//! Arguments and variables in memory.
ghost use Rattle.std.specs.Prelude.{◌≡◌, List, ℕ, Option, Some, IfOk, map, string_bytes};
ghost use Rattle.dc_config.specs.Environment.{value_of};
ghost use Rattle.dc_program.specs.Invoked.{IsTexts, IsValue};

use crate::{Invocation, NoMemory, Unread};
use dc_config::Env;
use std::alloc::Global;
use std::marker::Model;

/// Arguments and variables in memory.
#[derive(Drop)]
pub struct MemoryInvocation {
    arguments: Vec<String>,
    variables: Env,
}

impl Model for MemoryInvocation {
    ghost use Rattle.std.specs.Prelude.{List, ℕ, map, string_bytes};
    ghost use Rattle.dc_config.specs.Environment.{Environment};

    ghost Value = { List (List ℕ) × Environment };

    ghost view = { λ a. (map string_bytes a.arguments.items, a.variables) };
}

impl MemoryInvocation {
    /// These arguments, the program's name first, and these variables.
    pub fn new(arguments: Vec<String>, variables: Env) -> MemoryInvocation
        ensures { result ≡ (map string_bytes arguments.items, variables) }
    {
        MemoryInvocation {
            arguments,
            variables,
        }
    }
}

/// Copies of texts.
fn copies(alloc: Global, texts: &[String]) -> Result<Vec<String>, NoMemory>
    ensures { IfOk result (λ copies. map string_bytes copies.items ≡ map string_bytes texts.now) }
{
    let mut copies = Vec::new(alloc);
    for text in texts {
        copies.push(String::from_str(alloc, text.as_str())?)?;
    }
    Ok(copies)
}

impl Invocation for MemoryInvocation {
    ghost arguments = { λ s. Some s.0 };

    ghost values = { λ s. Some (λ name. value_of name s.1) };

    fn arguments(&self, alloc: Global) -> Result<Vec<String>, Unread> {
        match copies(alloc, &self.arguments) {
            Ok(texts) => Ok(texts),
            Err(_) => Err(Unread::NoMemory),
        }
    }

    fn value(&self, alloc: Global, name: &str) -> Result<Option<String>, NoMemory> {
        match self.variables.get(name) {
            None => Ok(None),
            Some(value) => Ok(Some(String::from_str(alloc, value)?)),
        }
    }
}
