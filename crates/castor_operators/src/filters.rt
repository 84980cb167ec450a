//! `filter`.

ghost use Rattle.std.specs.Prelude.{◌≡◌, IfOk};
ghost use Rattle.castor_val.specs.Gives.{Gives};
ghost use Rattle.castor_alg.specs.declared.rel.Rel as core;
ghost use Rattle.castor_names.specs.Scopes.{scopes_of};
ghost use Rattle.castor_names.specs.declared.error.SchemaError.TheVariants as error;
ghost use Rattle.castor_operators.specs.Operators.{filtered_by, filtered};

use crate::found::Found;
use crate::kept::beside;
use castor_alg::{Expr, Rel, both, boxed};
use castor_exprs::expression::expression;
use castor_exprs::{Typed, is_same_type};
use castor_names::{Declarations, SchemaError, Scopes};
use castor_tree::PExpr;
use castor_val::{Memory, Ty};
use std::alloc::Global;

fn filter_of(alloc: Global, test: Expr, query: Rel) -> Result<Rel, Memory>
    ensures { IfOk result (λ made. made ≡ core.Filter test query) }
{
    let (test, operand) = both(Ok(test), boxed(alloc, Ok(query)))?;
    Ok(Rel::Filter(test, operand))
}

fn filter_found(alloc: Global, test: Expr, from: Found) -> Result<Found, Memory>
    ensures { IfOk result (λ found. found ≡ record { query = core.Filter test from.query; columns = from.columns; next = from.next }) }
{
    let Found {
        query,
        columns,
        next,
    } = from;
    let (query, columns) = both(filter_of(alloc, test, query), Ok(columns))?;
    Ok(Found {
        query,
        columns,
        next,
    })
}

#[tactic(auto, unfolding(crate::specs::Operators::filtered_by))]
fn filtered_by(alloc: Global, from: Found, test: Typed) -> Result<Found, SchemaError>
    ensures { Gives (λ found. found) error.Memory (filtered_by from test) result }
{
    if is_same_type(Ty::Bool, test.ty) {
        Ok(filter_found(alloc, test.expr, from)?)
    } else {
        Err(SchemaError::TypeMismatch)
    }
}

/// `filter`: a bool over the operand's columns.
#[tactic(auto, unfolding(crate::specs::Operators::filtered))]
pub fn filtered(
    alloc: Global,
    known: &Declarations,
    scopes: &Scopes<'_>,
    e: &PExpr,
    from: Found,
) -> Result<Found, SchemaError>
    ensures { Gives (λ found. found) error.Memory (filtered known.now (scopes_of scopes.now) e.now from) result }
{
    let test = expression(alloc, known, scopes, from.columns.as_slice(), e);
    let (from, test) = beside(from, test)?;
    filtered_by(alloc, from, test)
}
