//! The cache: what is known of a key, for how long, and what leaves to make room.
//!
//! Any store is the ideal cache of `dc_model`, with its motion, however it keeps its entries.
#![tactic(auto)]

ghost use Rattle.std.specs.Prelude.{◌≡◌, ◌*◌, ◌^◌, ◌<◌, option_map};
ghost use Rattle.dc_model.specs.Cache.{Cache, Entry, put, get, hit_of, KeepsFirst};
ghost use Rattle.dc_store.specs.Lent.{hit_value};

mod plain;

use dc_limits::LONGEST_KEPT;
pub use plain::PlainStore;
pub use std::alloc::AllocError as NoMemory;

/// What a look-up found: the body, lent by the store, and for how many seconds it is still known.
#[derive(Clone, Copy)]
pub struct Hit<'a> {
    pub body: &'a [u8],
    pub ttl: u32,
}

impl<'a> Hit<'a> {
    /// What an entry with this body and expiry gives at the second `now`: nothing where it expired before, and a week
    /// at most.
    pub fn of(body: &'a [u8], expiry: u64, now: u64) -> Option<Hit<'a>>
        ensures { (e : Entry) → e.body ≡ body.now → e.expiry ≡ expiry → option_map hit_value result ≡ hit_of now e }
    {
        if expiry < now {
            return None;
        }
        Some(Hit {
            body,
            ttl: (expiry - now).min(LONGEST_KEPT as u64) as u32,
        })
    }
}

/// A cache of bytes. Moments are in seconds.
pub trait Store {
    /// The cache that it is, with its motion.
    ghost cache: { Self → Cache };

    /// What is known of a key at the second `now`, and for how many seconds more. It is `None` exactly where none of
    /// the first 101 entries of the key's bucket has the key, or the first that has it expired before `now`.
    fn get(&self, key: &[u8], now: u64) -> Option<Hit<'_>>
        ensures { option_map hit_value result ≡ get key.now now (cache self.now) };

    /// Keeps a body under a key for `ttl` seconds from the second `now` on, a week at most. The oldest entries leave
    /// to make room. Nothing changes where the key has over 1000 bytes, the body over 1000000, or `ttl` is 0.
    fn put(&mut self, key: &[u8], body: &[u8], ttl: u32, now: u64)
        requires { now * 1000 < 2 ^ 62 }
        ensures put { cache self.new ≡ put key.now body.now ttl now (cache self.old) }
        ensures keeps_first { KeepsFirst key.now body.now ttl now (cache self.old) (cache self.new) };

    /// How many bytes the entries had that were ever written, up to the greatest number.
    fn motion(&self) -> u64
        ensures { result ≡ (cache self.now).motion };
}
