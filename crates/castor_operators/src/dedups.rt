//! `dedup`.

ghost use Rattle.castor_val.specs.Gives.{Gives};
ghost use Rattle.castor_names.specs.declared.error.SchemaError.TheVariants as error;
ghost use Rattle.castor_operators.specs.Operators.{deduped};

use crate::found::Found;
use castor_alg::Rel;
use castor_names::SchemaError;
use sqlite_items::Boxed;
use std::alloc::Global;

/// `dedup`: the operand's columns.
#[tactic(auto, unfolding(crate::specs::Operators::deduped))]
pub fn deduped(alloc: Global, from: Found) -> Result<Found, SchemaError>
    ensures { Gives (λ found. found) error.Memory (deduped from) result }
{
    let operand = Boxed::new(alloc, from.query)?;
    Ok(Found {
        query: Rel::Dedup(operand),
        columns: from.columns,
        next: from.next,
    })
}
