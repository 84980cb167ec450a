//! The buckets that hashes fall into.

ghost use Rattle.std.specs.Prelude.{◌≡◌, ◌<◌, ◌≤◌, ◌^◌};
ghost use Rattle.castor_dir.specs.Buckets.{IsLeastPowerOfTwo, bucket, bucket_count};

/// The bucket that a hash falls into, of so many: the remainder of the hash by their number.
pub fn bucket(hash: u64, buckets: u64) -> u64
    requires { 0 < buckets }
    ensures value { result ≡ bucket hash buckets }
    ensures within { result < buckets }
{
    hash % buckets
}

/// The number of buckets for so many entries: the least power of two that is at least 1 and at
/// least as large.
pub fn bucket_count(entries: u64) -> u64
    requires { entries ≤ 2 ^ 63 }
    ensures value { result ≡ bucket_count entries }
    ensures least { IsLeastPowerOfTwo entries result }
{
    entries.next_power_of_two()
}
