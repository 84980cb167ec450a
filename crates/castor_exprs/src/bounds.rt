//! The bounds of `ordered`.

ghost use Rattle.std.specs.Prelude.{◌≡◌};
ghost use Rattle.castor_val.specs.Gives.{Gives};
ghost use Rattle.castor_exprs.specs.Bounds.{bound_found, is_bound_of, range_found};
ghost use Rattle.castor_names.specs.Scopes.{scopes_of};
ghost use Rattle.castor_names.specs.declared.error.SchemaError.TheVariants as error;

use crate::expression::expression;
use crate::types::is_same_type;
use castor_alg::Bound;
use castor_names::{Declarations, SchemaError, Scopes};
use castor_tree::PBound;
use castor_val::Ty;
use std::alloc::Global;

/// One end of a range, and its type where it is a limit.
#[derive(Drop)]
pub struct TypedBound {
    pub bound: Bound,
    pub ty: Option<Ty>,
}

/// Both ends of a range.
#[derive(Drop)]
pub struct TypedRange {
    pub lower: TypedBound,
    pub upper: TypedBound,
}

/// What one end of a range means, or the first refusal. It reads no columns.
#[tactic(auto, unfolding(crate::specs::Bounds::bound_found))]
pub fn bound_found(
    alloc: Global,
    known: &Declarations,
    scopes: &Scopes<'_>,
    bound: &PBound,
) -> Result<TypedBound, SchemaError>
    ensures { Gives (λ found. found) error.Memory (bound_found known.now (scopes_of scopes.now) bound.now) result }
{
    match bound {
        PBound::Any => Ok(TypedBound {
            bound: Bound::Any,
            ty: None,
        }),
        PBound::Incl(e) => {
            let end = expression(alloc, known, scopes, &[], e)?;
            Ok(TypedBound {
                bound: Bound::Incl(end.expr),
                ty: Some(end.ty),
            })
        }
        PBound::Excl(e) => {
            let end = expression(alloc, known, scopes, &[], e)?;
            Ok(TypedBound {
                bound: Bound::Excl(end.expr),
                ty: Some(end.ty),
            })
        }
    }
}

/// What both ends of a range mean, or the first refusal.
#[tactic(auto, unfolding(crate::specs::Bounds::range_found))]
pub fn range_found(
    alloc: Global,
    known: &Declarations,
    scopes: &Scopes<'_>,
    lo: &PBound,
    hi: &PBound,
) -> Result<TypedRange, SchemaError>
    ensures { Gives (λ range. range) error.Memory (range_found known.now (scopes_of scopes.now) lo.now hi.now) result }
{
    let lower = bound_found(alloc, known, scopes, lo)?;
    let upper = bound_found(alloc, known, scopes, hi)?;
    Ok(TypedRange { lower, upper })
}

/// Whether it is no limit, or one of the type.
pub fn is_bound_of(ty: Ty, end: &TypedBound) -> bool
    ensures { result ≡ is_bound_of ty end.now }
{
    match end.ty {
        Some(own) => is_same_type(ty, own),
        None => true,
    }
}
