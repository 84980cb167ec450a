//! The rule `store`: a relation becomes a list of its rows, in which each value is a scalar.

ghost use Rattle.std.specs.Prelude.{◌≡◌, ◌<◌, ◌^◌, IfOk, IsOkAnd, OnOk, map};
ghost use Rattle.castor_alg.specs.declared.rel.Rel.{Cross, List as Listed, Scalar};
ghost use Rattle.castor_nest.specs.ScopeColumns.{scope_columns};
ghost use Rattle.castor_nest.specs.Store.{stored};

use castor_alg::{Expr, Rel, both, boxed, column_count};
use castor_val::{Memory, Ty};
use sqlite_items::Items;
use std::alloc::Global;

/// The relation stored as `list(query as scope, cross(scalar(scope.0), ..))`, with a scalar for each of
/// its columns. Moves the relation. Linear in the relation, for its columns are counted.
pub fn store_rows(
    alloc: Global,
    query: Rel,
    scope: u32,
    tables: &[Items<Ty>],
) -> Result<Rel, Memory>
    ensures { IfOk result (λ r. r ≡ stored tables.now scope query) }
{
    let scalars = scalars(alloc, scope, column_count(&query, tables));
    Ok(listed(alloc, query, scope, scalars)?)
}

fn listed(
    alloc: Global,
    query: Rel,
    scope: u32,
    scalars: Result<Items<Rel>, Memory>,
) -> Result<Rel, Memory>
    ensures { IfOk result (λ r. IsOkAnd scalars (λ rs. r ≡ Listed scope query (Cross rs))) }
{
    let body = boxed(alloc, crossed(scalars));
    let (source, body) = both(boxed(alloc, Ok(query)), body)?;
    Ok(Rel::List(scope, source, body))
}

fn crossed(scalars: Result<Items<Rel>, Memory>) -> Result<Rel, Memory>
    ensures { IfOk result (λ r. IsOkAnd scalars (λ rs. r ≡ Cross rs)) }
{
    Ok(Rel::Cross(scalars?))
}

/// A scalar for each of the first columns of a scope. Columns have numbers of 32 bits, and no memory holds
/// more scalars than that.
fn scalars(alloc: Global, scope: u32, count: u64) -> Result<Items<Rel>, Memory>
    ensures made { IfOk result (λ rs. rs ≡ map Scalar (scope_columns scope count)) }
    ensures numbered { OnOk result (count < 2 ^ 32) }
{
    let Ok(columns) = u32::try_from(count) else {
        return Err(Memory);
    };
    let mut scalars = Items::new(alloc);
    for at in 0..columns {
        scalars.push(Rel::Scalar(Expr::Scope(scope, at)))?;
    }
    Ok(scalars)
}
