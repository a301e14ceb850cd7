//! Over how many cores the names are split.
ghost use Rattle.std.specs.Prelude.{◌≡◌, ◌≤◌, IfOk, IfErr, Some, None};
ghost use Rattle.dc_config.specs.Modes.{cores_in, bad_split};

use dc_config::{Env, Variable, cores_in, first_bad};

/// Over how many cores the names are split, as CORES says it: 1 to 8. It is refused where a variable is bad: of IP, IPSEND, CACHESIZE and
/// CORES the first that is absent or unreadable.
pub(crate) fn cores_asked(env: &Env) -> Result<u64, Variable>
    ensures cores { IfOk result (λ cores. cores_in env.now ≡ Some cores) }
    ensures none { IfOk result (λ _. bad_split env.now ≡ None) }
    ensures least { IfOk result (λ cores. 1 ≤ cores) }
    ensures most { IfOk result (λ cores. cores ≤ 8) }
    ensures bad { IfErr result (λ variable. bad_split env.now ≡ Some variable) }
{
    if let Some(variable) = first_bad(env) {
        return Err(variable);
    }
    match cores_in(env) {
        Some(cores) => Ok(cores),
        None => Err(Variable::Cores),
    }
}
