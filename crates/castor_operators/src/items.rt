//! `scalar` and `select`.

ghost use Rattle.castor_val.specs.Gives.{Gives};
ghost use Rattle.castor_alg.specs.declared.rel.Rel as core;
ghost use Rattle.castor_names.specs.Scopes.{scopes_of};
ghost use Rattle.castor_names.specs.declared.error.SchemaError.TheVariants as error;
ghost use Rattle.castor_operators.specs.Operators.{limited, scalar_of, scalar_found, selected};

use crate::found::{Found, limited};
use crate::kept::beside;
use castor_alg::{Rel, both, boxed};
use castor_exprs::{Output, Selection, item_output, items_selected};
use castor_names::{Declarations, SchemaError, Scopes};
use castor_tree::Item;
use sqlite_items::Items;
use std::alloc::Global;

#[tactic(auto, unfolding(crate::specs::Operators::scalar_of))]
fn scalar_of(alloc: Global, next: u32, output: Output) -> Result<Found, SchemaError>
    ensures { Gives (λ found. found) error.Memory (scalar_of next output) result }
{
    let mut columns = Items::new(alloc);
    columns.push(output.column)?;
    Ok(Found {
        query: Rel::Scalar(output.expr),
        columns,
        next,
    })
}

/// `scalar`: one item, which reads no columns.
#[tactic(auto, unfolding(crate::specs::Operators::scalar_found))]
pub fn scalar_found(
    alloc: Global,
    known: &Declarations,
    scopes: &Scopes<'_>,
    next: u32,
    item: &Item,
) -> Result<Found, SchemaError>
    ensures { Gives (λ found. found) error.Memory (scalar_found known.now (scopes_of scopes.now) next item.now) result }
{
    let output = item_output(alloc, known, scopes, &[], 0, item)?;
    scalar_of(alloc, next, output)
}

fn select_of(alloc: Global, from: Found, all: Selection) -> Result<Found, SchemaError>
    ensures { Gives (λ found. found) error.Memory (limited (core.Select all.exprs from.query) all.columns from.next) result }
{
    let Found {
        query,
        columns: _,
        next,
    } = from;
    let Selection { exprs, columns } = all;
    let (exprs, operand) = both(Ok(exprs), boxed(alloc, Ok(query)))?;
    limited(Rel::Select(exprs, operand), columns, next)
}

/// `select`: items over the operand's columns.
#[tactic(auto, unfolding(crate::specs::Operators::selected))]
pub fn selected(
    alloc: Global,
    known: &Declarations,
    scopes: &Scopes<'_>,
    items: &[Item],
    from: Found,
) -> Result<Found, SchemaError>
    ensures { Gives (λ found. found) error.Memory (selected known.now (scopes_of scopes.now) items.now from) result }
{
    let all = items_selected(alloc, known, scopes, from.columns.as_slice(), items);
    let (from, all) = beside(from, all)?;
    select_of(alloc, from, all)
}
