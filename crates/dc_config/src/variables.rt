//! The variables that are read.
ghost use Rattle.std.specs.Prelude.{◌≡◌, map};
ghost use Rattle.dc_config.specs.Variables as defined;

use crate::{ConfigError, Env, Variable};
use dc_limits::MOST_CACHE;
use dc_text::address;

/// The most bytes of a cache.
const MOST_SIZE: u64 = MOST_CACHE as u64;

/// The variable that makes all questions forwarded, when it is set at all.
const FORWARDONLY: &str = "FORWARDONLY";

/// The names of all variables that are read.
pub fn names() -> [&'static str; 8]
    ensures { map (λ name. name.now) result ≡ defined.names }
{
    [
        Variable::Ip.name(),
        Variable::Ipsend.name(),
        Variable::Cachesize.name(),
        FORWARDONLY,
        Variable::Cores.name(),
        Variable::Image.name(),
        Variable::Events.name(),
        Variable::Record.name(),
    ]
}

/// What the variables say.
#[derive(Clone, Copy, Debug)]
pub struct Variables {
    pub size: u32,
    pub forward: bool,
    pub ip: [u8; 4],
    pub ipsend: [u8; 4],
}

/// The address that a variable says.
fn address_in(env: &Env, name: &str) -> Option<[u8; 4]>
    ensures { result ≡ defined.address_in name.now env.now }
{
    address(env.get(name)?.as_bytes())
}

/// The cache size that 1 to 18 digits say, brought into 100 to 1000000000 bytes.
fn size_of(text: &[u8]) -> Option<u32>
    ensures { result ≡ defined.size_of text.now }
{
    if text.is_empty() || text.len() > 18 {
        return None;
    }
    let mut size: u64 = 0;
    for digit in text {
        if !digit.is_ascii_digit() {
            return None;
        }
        size = (10 * size + u64::from(*digit - b'0')).min(MOST_SIZE);
    }
    Some(size.max(100) as u32)
}

/// The size of the cache in bytes.
fn size_in(env: &Env) -> Option<u32>
    ensures { result ≡ defined.size_in env.now }
{
    size_of(env.get(Variable::Cachesize.name())?.as_bytes())
}

/// What the variables say, or the first of IP, IPSEND and CACHESIZE that is absent or unreadable.
pub(crate) fn read_variables(env: &Env) -> Result<Variables, ConfigError>
    ensures { result ≡ defined.variables_of env.now }
{
    let Some(ip) = address_in(env, Variable::Ip.name()) else {
        return Err(ConfigError::BadVariable(Variable::Ip));
    };
    let Some(ipsend) = address_in(env, Variable::Ipsend.name()) else {
        return Err(ConfigError::BadVariable(Variable::Ipsend));
    };
    let Some(size) = size_in(env) else {
        return Err(ConfigError::BadVariable(Variable::Cachesize));
    };
    Ok(Variables {
        size,
        forward: env.get(FORWARDONLY).is_some(),
        ip,
        ipsend,
    })
}

/// The first of IP, IPSEND and CACHESIZE that is absent or unreadable. `None` comes exactly where all three can be read. It
/// takes no memory.
pub fn first_bad(env: &Env) -> Option<Variable>
    ensures { result ≡ defined.bad_variable env.now }
{
    if address_in(env, Variable::Ip.name()).is_none() {
        Some(Variable::Ip)
    } else if address_in(env, Variable::Ipsend.name()).is_none() {
        Some(Variable::Ipsend)
    } else if size_in(env).is_none() {
        Some(Variable::Cachesize)
    } else {
        None
    }
}
