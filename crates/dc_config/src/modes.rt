//! The variables that choose how clients are served.
ghost use Rattle.std.specs.Prelude.{◌≡◌};
ghost use Rattle.dc_config.specs.Modes as defined;

use crate::{Env, Variable, first_bad};
use dc_text::number;

/// The most cores over which names are split.
pub const MOST_CORES: u64 = 8;

/// Whether a variable is set, with any value.
pub fn is_set(variable: Variable, env: &Env) -> bool
    ensures set { result ≡ defined.is_set variable env.now }
{
    env.get(variable.name()).is_some()
}

/// The number from 1 to 8 that a text says.
fn cores_of(text: &[u8]) -> Option<u64>
    ensures { result ≡ defined.cores_of text.now }
{
    let count = number(text)?;
    if 1 <= count && count <= MOST_CORES {
        Some(count)
    } else {
        None
    }
}

/// Over how many cores the names are split. `None` comes exactly where CORES isn't set, or isn't a number from 1 to 8.
pub fn cores_in(env: &Env) -> Option<u64>
    ensures cores { result ≡ defined.cores_in env.now }
{
    cores_of(env.get(Variable::Cores.name())?.as_bytes())
}

/// After how many events a service ends. `None` comes exactly where EVENTS isn't set, or isn't a number below 2^64.
pub fn events_in(env: &Env) -> Option<u64>
    ensures events { result ≡ defined.events_in env.now }
{
    number(env.get(Variable::Events.name())?.as_bytes())
}

/// The first bad variable where names are split over cores: of IP, IPSEND, CACHESIZE and CORES the first that is absent or unreadable.
/// It takes no memory.
pub fn first_bad_split(env: &Env) -> Option<Variable>
    ensures bad { result ≡ defined.bad_split env.now }
{
    if let Some(variable) = first_bad(env) {
        return Some(variable);
    }
    if cores_in(env).is_none() {
        return Some(Variable::Cores);
    }
    None
}

/// The first bad variable where the cache is kept: of IP, IPSEND and CACHESIZE the first that is absent or unreadable; then IMAGE, where
/// CORES is set too; then EVENTS, where it is set and unreadable. It takes no memory.
pub fn first_bad_kept(env: &Env) -> Option<Variable>
    ensures bad { result ≡ defined.bad_kept env.now }
{
    if let Some(variable) = first_bad(env) {
        return Some(variable);
    }
    if is_set(Variable::Cores, env) {
        return Some(Variable::Image);
    }
    if is_set(Variable::Events, env) && events_in(env).is_none() {
        return Some(Variable::Events);
    }
    None
}

/// The first bad variable where the service writes its run: of IP, IPSEND and CACHESIZE the first that is absent or unreadable; then RECORD,
/// where CORES or IMAGE is set too. It takes no memory.
pub fn first_bad_recorded(env: &Env) -> Option<Variable>
    ensures bad { result ≡ defined.bad_recorded env.now }
{
    if let Some(variable) = first_bad(env) {
        return Some(variable);
    }
    if is_set(Variable::Cores, env) || is_set(Variable::Image, env) {
        return Some(Variable::Record);
    }
    None
}
