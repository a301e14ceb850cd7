//! The whole configuration.
ghost use Rattle.std.specs.Prelude.{◌≡◌, ◌↔◌, [], ◌∷◌, Some, IfOk, codes};
ghost use Rattle.dc_event.specs.Causes.{Fares};
ghost use Rattle.dc_config.specs.Tree.{Tree};
ghost use Rattle.dc_config.specs.Answered.{Answers};
ghost use Rattle.dc_config.specs.Asked.{well, AskedZones};
ghost use Rattle.dc_config.specs.Variables.{bad_variable};
ghost use Rattle.dc_config.specs.Conf.{conf_of};
ghost use Rattle.dc_config.specs.declared.error.Variable.{Variable as Named};

use crate::folders::{permit_of, zones_of};
use crate::variables::read_variables;
use crate::{ConfigError, Env, Files};
use dc_rules::Config;
use std::alloc::Global;

/// The configuration that the environment and the files give, or the first refusal: of a variable, then of a zone, then
/// that the root has no server, then of a permission. `FilesFault` comes exactly where a call on the files failed, which is then the last.
pub fn load<F: Files>(alloc: Global, env: &Env, files: &mut F) -> Result<Config, ConfigError>
    ensures conf { (t : Tree) → F.tree files.old ≡ Some t → Answers result (conf_of env.now t) }
    ensures variable { (v : Named) → (result ≡ Err (ConfigError.BadVariable v)) ↔ (bad_variable env.now ≡ Some v) }
    ensures same { F.tree files.new ≡ F.tree files.old }
    ensures unasked { (v : Named) → result ≡ Err (ConfigError.BadVariable v) → files.new ≡ files.old }
    ensures asked { IfOk result (λ _. AskedZones F.tree F.asked (codes "ip" ∷ []) files.old files.new) }
    ensures fares { Fares F.asked F.refused F.faults (well result) files.old files.new }
{
    let read = read_variables(env)?;
    let zones = zones_of(alloc, files)?;
    let permit = permit_of(alloc, files)?;
    let ip = read.ip;
    let ipsend = read.ipsend;
    Ok(Config {
        size: read.size,
        forward: read.forward,
        ip,
        ipsend,
        zones,
        permit,
    })
}
