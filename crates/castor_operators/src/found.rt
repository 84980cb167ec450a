//! What a relation of names is found to mean.

ghost use Rattle.std.specs.Prelude.{◌≡◌};
ghost use Rattle.castor_operators.specs.Operators.{limited};

use castor_alg::Rel;
use castor_names::{NamedColumn, SchemaError};
use castor_val::MAX_COLUMNS;
use sqlite_items::Items;

/// A relation, its columns, and the number that the next binder takes.
#[derive(Drop)]
pub struct Found {
    pub query: Rel,
    pub columns: Items<NamedColumn>,
    pub next: u32,
}

/// A relation with its columns, which are at most 64, else TooLarge.
#[tactic(auto, unfolding(crate::specs::Operators::limited))]
pub fn limited(query: Rel, columns: Items<NamedColumn>, next: u32) -> Result<Found, SchemaError>
    ensures { result ≡ limited query columns next }
{
    if columns.len() > MAX_COLUMNS {
        return Err(SchemaError::TooLarge);
    }
    Ok(Found {
        query,
        columns,
        next,
    })
}
