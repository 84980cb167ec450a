//! Why a query file is refused.

use castor_val::Memory as NoMemory;
use std::alloc::AllocError;

/// Why a file that is a query by its grammar is none by its names, numbers and types.
#[derive(Clone, Copy, Debug, PartialEq, Eq)]
pub enum SchemaError {
    /// No table has the name.
    UnknownTable,
    /// No column has the name or the number.
    UnknownColumn,
    /// The name before a dot is that of no scope in force and the qualifier of no column.
    UnknownScope,
    /// No parameter has the name.
    UnknownParam,
    /// Several columns have the name.
    Ambiguous,
    /// Another table, parameter or column of the table has the name.
    DuplicateName,
    /// An operand is of a type that its operator doesn't take.
    TypeMismatch,
    /// The numbers of columns or keys don't fit.
    WrongCount,
    /// There are too many tables, parameters, columns or sorting keys.
    TooLarge,
    /// There was no memory for the answer.
    Memory,
}

impl From<NoMemory> for SchemaError {
    ghost use Rattle.std.specs.Prelude.{◌≡◌};
    ghost use Rattle.castor_names.specs.declared.error.SchemaError.TheVariants.{Memory};

    ghost from_gives = { λ _ e. e ≡ Memory };

    fn from(_: NoMemory) -> SchemaError {
        SchemaError::Memory
    }
}

impl From<AllocError> for SchemaError {
    ghost use Rattle.std.specs.Prelude.{◌≡◌};
    ghost use Rattle.castor_names.specs.declared.error.SchemaError.TheVariants.{Memory};

    ghost from_gives = { λ _ e. e ≡ Memory };

    fn from(_: AllocError) -> SchemaError {
        SchemaError::Memory
    }
}
