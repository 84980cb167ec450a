//! The hashes of keys, the buckets that they fall into, and the order of entries by bucket.
#![tactic(auto)]

pub mod buckets;
pub mod hash;
pub mod plan;

pub use buckets::{bucket, bucket_count};
pub use hash::key_hash;
pub use plan::{Plan, plan_hash};
