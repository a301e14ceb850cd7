//! Which bucket of the cache a key belongs to.
#![tactic(auto)]

ghost use Rattle.std.specs.Prelude.{◌≡◌, ℕ, ◌*◌, ◌-◌, ◌^◌, ◌≤◌};
ghost use Rattle.dc_model.specs.Cache.{hash, hsize, bucket};

/// The hash of a key (djbdns' cache.c).
pub fn hash_of(key: &[u8]) -> u32
    ensures { result ≡ hash key.now }
{
    key.iter().fold(
        5381u32,
        |hash, byte| hash.wrapping_mul(33) ^ u32::from(*byte),
    )
}

/// How many bytes the head links of a cache of `size` bytes take.
pub fn hsize_of(size: u32) -> u32
    requires { size ≤ 1000000000 }
    ensures { result ≡ hsize size }
{
    let mut heads: u32 = 4;
    while heads <= size / 32 {
        heads *= 2;
    }
    heads
}

/// The place of the head of a key's bucket, in a cache whose head links take `heads` bytes.
#[tactic(auto, unfolding(dc_model::specs::Cache::bucket))]
pub fn bucket_of(heads: u32, key: &[u8]) -> u32
    requires { 4 ≤ heads }
    ensures { (size : ℕ) → heads ≡ hsize size → result ≡ bucket size key.now }
{
    hash_of(key).wrapping_mul(4) & (heads - 4)
}
