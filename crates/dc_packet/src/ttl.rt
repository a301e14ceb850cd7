//! Lifetimes of records.
ghost use Rattle.std.specs.Prelude.{◌≡◌};
ghost use Rattle.dc_model.specs.Message as model;

use dc_limits::{LONGEST_KEPT, MOST_TTL};

/// How long a record of this TTL is kept, in seconds: a week at most, and not at all where its TTL is over 1000000000
/// (after djbdns' query.c).
pub fn kept_ttl(ttl: u32) -> u32
    ensures { result ≡ model.kept_ttl ttl }
{
    if ttl > MOST_TTL {
        0
    } else {
        ttl.min(LONGEST_KEPT)
    }
}
