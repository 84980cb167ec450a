//! Codes with the sizes of what they are for.

use castor_code::Code;
use sqlite_items::Items;

/// The code for what stands at a place, and for each of it, in order, the number of its bytes.
#[derive(Drop)]
pub struct Laid {
    pub code: Code,
    pub sizes: Vec<u64>,
}

/// The codes of parts, and for each of what has them, in order, the number of bytes of its parts.
#[derive(Drop)]
pub struct LaidParts {
    pub codes: Items<Code>,
    pub sizes: Vec<u64>,
}
