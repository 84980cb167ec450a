//! The limits of the language and of what is stored, each with one meaning.

/// The most bytes that a text value has.
pub const MAX_TEXT: usize = 65_535;

/// The most bytes that a name has.
pub const MAX_NAME: usize = 64;

/// The most columns that a table or relation has.
pub const MAX_COLUMNS: usize = 64;

/// The most keys that an `orderby` has.
pub const MAX_SORTING_KEYS: usize = 65_535;

/// The most key columns that a hash index has.
pub const MAX_HASH_COLUMNS: usize = 4;

/// The most tables that a query has.
pub const MAX_TABLES: usize = 16;

/// The most parameters that a query has.
pub const MAX_PARAMS: usize = 16;

/// The most nodes that a query has, relations and expressions together.
pub const MAX_QUERY_NODES: u64 = 4_096;

/// The most nodes that a code has, codes and expressions together.
pub const MAX_CODE_NODES: u64 = 8_192;

/// The greatest depth of a query or a code.
pub const MAX_DEPTH: u64 = 64;

/// The most bytes that a query or a script has.
pub const MAX_SOURCE_BYTES: u64 = 1_048_576;

/// The most bytes that a table or an image has.
pub const MAX_FILE_BYTES: u64 = 268_435_456;

/// The most bytes that the input has.
pub const MAX_INPUT_BYTES: u64 = 67_108_864;
