//! `join`.

ghost use Rattle.std.specs.Prelude.{◌≡◌, ◌++◌, IfOk};
ghost use Rattle.castor_val.specs.Gives.{Gives};
ghost use Rattle.castor_alg.specs.declared.rel.Rel as core;
ghost use Rattle.castor_names.specs.Scopes.{scopes_of};
ghost use Rattle.castor_names.specs.declared.error.SchemaError.TheVariants as error;
ghost use Rattle.castor_operators.specs.Operators.{limited, side_by_side, joined_by, joined};

use crate::found::{Found, limited};
use crate::kept::{beside, kept_where, pair};
use castor_alg::{Expr, Rel, both};
use castor_exprs::expression::expression;
use castor_exprs::{Typed, is_same_type};
use castor_names::{Declarations, NamedColumn, SchemaError, Scopes};
use castor_tree::PExpr;
use castor_val::{Memory, Ty};
use sqlite_items::Items;
use std::alloc::Global;

/// The operands of a `join`, and the columns of both.
#[derive(Drop)]
pub struct Joining {
    pub left: Rel,
    pub right: Rel,
    pub columns: Items<NamedColumn>,
    pub next: u32,
}

fn appended(
    mut columns: Items<NamedColumn>,
    more: Items<NamedColumn>,
) -> Result<Items<NamedColumn>, Memory>
    ensures { IfOk result (λ all. all ≡ columns ++ more) }
{
    columns.append(more)?;
    Ok(columns)
}

fn side_by_side(left: Found, right: Found) -> Result<Joining, Memory>
    ensures { IfOk result (λ both. both ≡ side_by_side left right) }
{
    let Found {
        query: left,
        columns,
        next: _,
    } = left;
    let Found {
        query: right,
        columns: more,
        next,
    } = right;
    let ((left, right), columns) = both(Ok((left, right)), appended(columns, more))?;
    Ok(Joining {
        left,
        right,
        columns,
        next,
    })
}

fn join_of(alloc: Global, e: Expr, left: Rel, right: Rel) -> Result<Rel, Memory>
    ensures { IfOk result (λ query. query ≡ core.Join e left right) }
{
    let (e, (left, right)) = both(Ok(e), pair(alloc, left, right))?;
    Ok(Rel::Join(e, left, right))
}

fn join_found(alloc: Global, e: Expr, sides: Joining) -> Result<Found, SchemaError>
    ensures { Gives (λ found. found) error.Memory (limited (core.Join e sides.left sides.right) sides.columns sides.next) result }
{
    let Joining {
        left,
        right,
        columns,
        next,
    } = sides;
    let (query, columns) = both(join_of(alloc, e, left, right), Ok(columns))?;
    limited(query, columns, next)
}

#[tactic(auto, unfolding(crate::specs::Operators::joined_by))]
fn joined_by(alloc: Global, both: Joining, test: Typed) -> Result<Found, SchemaError>
    ensures { Gives (λ found. found) error.Memory (joined_by both test) result }
{
    let is_bool = is_same_type(Ty::Bool, test.ty);
    let (both, test) = kept_where((both, test), is_bool, SchemaError::TypeMismatch)?;
    join_found(alloc, test.expr, both)
}

/// `join`: a bool over the columns of both operands.
#[tactic(auto, unfolding(crate::specs::Operators::joined))]
pub fn joined(
    alloc: Global,
    known: &Declarations,
    scopes: &Scopes<'_>,
    e: &PExpr,
    left: Found,
    right: Found,
) -> Result<Found, SchemaError>
    ensures { Gives (λ found. found) error.Memory (joined known.now (scopes_of scopes.now) e.now left right) result }
{
    let both = side_by_side(left, right)?;
    let test = expression(alloc, known, scopes, both.columns.as_slice(), e);
    let (both, test) = beside(both, test)?;
    joined_by(alloc, both, test)
}
