//! `ordered`.

ghost use Rattle.castor_val.specs.Gives.{Gives};
ghost use Rattle.castor_names.specs.Scopes.{scopes_of};
ghost use Rattle.castor_names.specs.declared.error.SchemaError.TheVariants as error;
ghost use Rattle.castor_operators.specs.Operators.{ordered, ordered_by};

use crate::binders::Binding;
use crate::found::Found;
use crate::kept::beside;
use castor_alg::Rel;
use castor_exprs::{TypedRange, is_bound_of, range_found};
use castor_names::{Declarations, SchemaError, Scopes};
use castor_tree::PBound;
use sqlite_items::Boxed;
use std::alloc::Global;

/// `ordered`: a source of one column, and bounds of its type.
#[tactic(auto, unfolding(crate::specs::Operators::ordered))]
fn ordered(alloc: Global, binding: Binding, range: TypedRange) -> Result<Found, SchemaError>
    ensures { Gives (λ found. found) error.Memory (ordered binding range binding.columns) result }
{
    let ty = match binding.columns.as_slice() {
        [column] => column.ty,
        _ => return Err(SchemaError::WrongCount),
    };
    if !is_bound_of(ty, &range.lower) || !is_bound_of(ty, &range.upper) {
        return Err(SchemaError::TypeMismatch);
    }
    let inner = binding.body;
    let source = Boxed::new(alloc, binding.source)?;
    let body = Boxed::new(alloc, inner.query)?;
    Ok(Found {
        query: Rel::Ord(
            binding.number,
            source,
            body,
            range.lower.bound,
            range.upper.bound,
        ),
        columns: inner.columns,
        next: inner.next,
    })
}

/// `ordered`: its bounds over no columns.
#[tactic(auto, unfolding(crate::specs::Operators::ordered_by))]
pub fn ordered_by(
    alloc: Global,
    known: &Declarations,
    scopes: &Scopes<'_>,
    lo: &PBound,
    hi: &PBound,
    binding: Binding,
) -> Result<Found, SchemaError>
    ensures { Gives (λ found. found) error.Memory (ordered_by known.now (scopes_of scopes.now) lo.now hi.now binding) result }
{
    let range = range_found(alloc, known, scopes, lo, hi);
    let (binding, range) = beside(binding, range)?;
    ordered(alloc, binding, range)
}
