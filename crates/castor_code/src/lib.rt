//! Reader code: how stored data is laid out in bytes and read.
#![tactic(auto)]

pub mod code;
pub mod decoding;
pub mod encoding;
pub mod fields;
pub mod skips;
pub mod tag;

pub use code::{Code, Range};
pub use decoding::{CodeError, decode};
pub use encoding::encode;
pub use skips::skip_reads;
