//! What is read of an invocation.
ghost use Rattle.std.specs.Prelude.{◌≡◌, ℕ, ◌+◌, ◌<◌, ◌≤◌, List, length, drop, codes, is_some, Option, Some, IfOk};
ghost use Rattle.dc_config.specs.Environment.{value_of};
ghost use Rattle.dc_config.specs.Variables as defined;
ghost use Rattle.dc_program.specs.Invoked.{IsTexts, with_value, value_among};

use crate::{Invocation, NoMemory, Unread};
use dc_config::{Env, names};
use std::alloc::Global;

/// The words behind the program's name, in order.
pub fn words<P: Invocation>(alloc: Global, process: &P) -> Result<Vec<String>, Unread>
    ensures { (texts : List (List ℕ)) → P.arguments process.now ≡ Some texts → IsTexts result (drop 1 texts) }
{
    let mut words = process.arguments(alloc)?;
    if !words.is_empty() {
        let _name = words.remove(0);
    }
    Ok(words)
}

/// Sets a variable in an environment, if it is set.
fn read_variable<P: Invocation>(
    alloc: Global,
    process: &P,
    name: &str,
    environment: &mut Env,
) -> Result<(), NoMemory>
    requires { length environment.old < 16 }
    ensures few { length environment.new ≤ length environment.old + 1 }
    ensures set { (value : List ℕ → Option (List ℕ)) → P.values process.now ≡ Some value → IfOk result (λ _. environment.new ≡ with_value name.now (value name.now) environment.old) }
{
    match process.value(alloc, name)? {
        None => {}
        Some(value) => environment.set(String::from_str(alloc, name)?, value),
    }
    Ok(())
}

/// The environment: the variables that are read and are set, each under its own name with its own value.
pub fn environment<P: Invocation>(alloc: Global, process: &P) -> Result<Env, NoMemory>
    ensures { (value : List ℕ → Option (List ℕ)) → P.values process.now ≡ Some value → IfOk result (λ env. (name : List ℕ) → value_of name env ≡ value_among value defined.names name) }
{
    let mut environment = Env::new(alloc)?;
    for name in names() {
        read_variable(alloc, process, name, &mut environment)?;
    }
    Ok(environment)
}

/// The variable that lets several services of one user serve on one address.
const SHAREPORT: &str = "SHAREPORT";

/// Whether clients' sockets share their port with those of other processes: where SHAREPORT is set, with any value.
pub fn shares_port<P: Invocation>(alloc: Global, process: &P) -> Result<bool, NoMemory>
    ensures { (value : List ℕ → Option (List ℕ)) → P.values process.now ≡ Some value → IfOk result (λ shares. shares ≡ is_some (value (codes "SHAREPORT"))) }
{
    Ok(process.value(alloc, SHAREPORT)?.is_some())
}
