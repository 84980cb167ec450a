//! Binders over their source and body: `depjoin` and `list`.

ghost use Rattle.castor_val.specs.Gives.{Gives};
ghost use Rattle.castor_names.specs.declared.error.SchemaError.TheVariants as error;
ghost use Rattle.castor_operators.specs.Operators.{depjoined, listed};

use crate::found::Found;
use crate::kept::pair;
use castor_alg::Rel;
use castor_names::{NamedColumn, SchemaError};
use sqlite_items::Items;
use std::alloc::Global;

/// A binder: the number of its scope, its source with its columns, and its body.
#[derive(Drop)]
pub struct Binding {
    pub number: u32,
    pub source: Rel,
    pub columns: Items<NamedColumn>,
    pub body: Found,
}

/// `depjoin`: the columns of the body.
#[tactic(auto, unfolding(crate::specs::Operators::depjoined))]
pub fn depjoined(alloc: Global, binding: Binding) -> Result<Found, SchemaError>
    ensures { Gives (λ found. found) error.Memory (depjoined binding) result }
{
    let Binding {
        number,
        source,
        columns: _,
        body,
    } = binding;
    let Found {
        query,
        columns,
        next,
    } = body;
    let (source, body) = pair(alloc, source, query)?;
    Ok(Found {
        query: Rel::DepJoin(number, source, body),
        columns,
        next,
    })
}

/// `list`: the columns of the body.
#[tactic(auto, unfolding(crate::specs::Operators::listed))]
pub fn listed(alloc: Global, binding: Binding) -> Result<Found, SchemaError>
    ensures { Gives (λ found. found) error.Memory (listed binding) result }
{
    let Binding {
        number,
        source,
        columns: _,
        body,
    } = binding;
    let Found {
        query,
        columns,
        next,
    } = body;
    let (source, body) = pair(alloc, source, query)?;
    Ok(Found {
        query: Rel::List(number, source, body),
        columns,
        next,
    })
}
