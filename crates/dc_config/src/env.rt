//! Environment variables.
ghost use Rattle.std.specs.Prelude.{◌≡◌, ◌<◌, [], ◌∷◌, length, IfOk, option_map, string_bytes};
ghost use Rattle.std.specs.Option.{option_copied};
ghost use Rattle.dc_config.specs.Environment.{value_of};

use crate::NoMemory;
use std::alloc::Global;
use std::marker::Model;

/// How many variables may be set.
const MOST_SETTINGS: usize = 16;

/// A variable that was set.
#[derive(Drop)]
pub struct Setting {
    name: String,
    value: String,
}

/// Environment variables, of which up to 16 are set. It takes its memory in `new`.
///
/// Contracts see the variables in the order in which they were set, the last one first.
#[derive(Drop)]
pub struct Env {
    settings: Vec<Setting>,
}

impl Model for Env {
    ghost use Rattle.dc_config.specs.Environment.{Environment};

    ghost Value = { Environment };

    ghost use Rattle.dc_config.specs.Settings.{settings_of, HasRoom};

    ghost view = { settings_of };

    ghost invariant = { HasRoom };
}

impl Env {
    /// No variables.
    pub fn new(alloc: Global) -> Result<Env, NoMemory>
        ensures { IfOk result (λ env. env ≡ []) }
    {
        Ok(Env {
            settings: Vec::with_capacity(alloc, MOST_SETTINGS)?,
        })
    }

    /// Sets a variable, of which fewer than 16 were set.
    pub fn set(&mut self, name: String, value: String)
        requires { length self.old < 16 }
        ensures { self.new ≡ record { name = string_bytes name; value = string_bytes value } ∷ self.old }
    {
        self.settings.insert(0, Setting { name, value }).unwrap();
    }

    /// The value that was set last for a name. `None` comes exactly where none was set.
    pub fn get(&self, name: &str) -> Option<&str>
        ensures { option_copied result ≡ value_of name.now self.now }
    {
        for setting in &self.settings {
            if setting.name.as_str() == name {
                return Some(setting.value.as_str());
            }
        }
        None
    }
}
