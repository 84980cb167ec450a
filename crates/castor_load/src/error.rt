//! Why a file is no table.

use castor_val::Memory as NoMemory;
use thiserror::Error;

/// Why the bytes of a file are no table of some columns. Records are numbered from 0, which is the
/// header, and columns from 0.
#[derive(Clone, Copy, Debug, PartialEq, Eq, Error)]
pub enum LoadError {
    /// There is no record, or the first one is not the names of the columns in their order.
    #[error("the header is not the names of the columns")]
    BadHeader,
    /// The record has more fields than there are columns, or fewer.
    #[error("record {number} has another number of fields than the header")]
    BadRecord {
        /// The record's number.
        number: u64,
    },
    /// The field of the record is not of its column's type.
    #[error("field {column} of record {number} is not of the type of its column")]
    BadField {
        /// The record's number.
        number: u64,
        /// The number of the field and its column.
        column: u32,
    },
    /// There was no memory for the table.
    #[error("out of memory")]
    Memory,
}

impl From<NoMemory> for LoadError {
    ghost use Rattle.std.specs.Prelude.{◌≡◌};
    ghost use Rattle.castor_load.specs.declared.error.LoadError.TheVariants.{Memory};

    ghost from_gives = { λ _ e. e ≡ Memory };

    fn from(_: NoMemory) -> LoadError {
        LoadError::Memory
    }
}
