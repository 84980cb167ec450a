//! The items of `select` and `scalar`.

ghost use Rattle.std.specs.Prelude.{◌≡◌, IfOk};
ghost use Rattle.castor_val.specs.Gives.{Gives};
ghost use Rattle.castor_alg.specs.declared.expr.Expr.{out-Expr};
ghost use Rattle.castor_exprs.specs.Items.{bare_column, item_column, item_output, items_selected, kept_column, output_of, unqualified_column};
ghost use Rattle.castor_names.specs.Scopes.{scopes_of};
ghost use Rattle.castor_names.specs.declared.error.SchemaError.TheVariants as error;

use crate::expression::{Typed, expression};
use castor_alg::Expr;
use castor_names::{
    Declarations, NamedColumn, SchemaError, Scopes, column_called, column_kept, column_numbered,
    scope_column,
};
use castor_tree::{Item, Word};
use castor_val::{Memory, Ty};
use sqlite_items::{Items, at};
use std::alloc::Global;

/// An item: its expression and the column that it puts out.
#[derive(Drop)]
pub struct Output {
    pub expr: Expr,
    pub column: NamedColumn,
}

/// Items: their expressions and the columns that they put out.
#[derive(Drop)]
pub struct Selection {
    pub exprs: Items<Expr>,
    pub columns: Items<NamedColumn>,
}

fn kept_column(
    alloc: Global,
    columns: &[NamedColumn],
    number: usize,
    ty: Ty,
    place: u32,
) -> Result<NamedColumn, Memory>
    ensures { IfOk result (λ c. c ≡ kept_column columns.now number ty place) }
{
    match at(columns, place as usize) {
        Some(column) => Ok(column_kept(alloc, column, ty)?),
        None => Ok(column_numbered(alloc, number, ty)?),
    }
}

fn unqualified_column(
    alloc: Global,
    scopes: &Scopes<'_>,
    number: usize,
    ty: Ty,
    scope: u32,
    place: u32,
) -> Result<NamedColumn, Memory>
    ensures { IfOk result (λ c. c ≡ unqualified_column (scopes_of scopes.now) number ty scope place) }
{
    match scope_column(scopes, scope, place) {
        Some(column) => Ok(column_called(alloc, &column.name, ty)?),
        None => Ok(column_numbered(alloc, number, ty)?),
    }
}

#[tactic(auto, unfolding(crate::specs::Items::bare_column))]
fn bare_column(
    alloc: Global,
    scopes: &Scopes<'_>,
    columns: &[NamedColumn],
    number: usize,
    found: &Typed,
) -> Result<NamedColumn, Memory>
    ensures { IfOk result (λ c. c ≡ bare_column (scopes_of scopes.now) columns.now number found.now.ty (out-Expr found.now.expr)) }
{
    match &found.expr {
        Expr::Col(place) => Ok(kept_column(alloc, columns, number, found.ty, *place)?),
        Expr::Scope(scope, place) => {
            Ok(unqualified_column(alloc, scopes, number, found.ty, *scope, *place)?)
        }
        _ => Ok(column_numbered(alloc, number, found.ty)?),
    }
}

#[tactic(auto, unfolding(crate::specs::Items::item_column))]
fn item_column(
    alloc: Global,
    scopes: &Scopes<'_>,
    columns: &[NamedColumn],
    number: usize,
    name: &Option<Word>,
    found: &Typed,
) -> Result<NamedColumn, Memory>
    ensures { IfOk result (λ c. c ≡ item_column (scopes_of scopes.now) columns.now number name.now found.now) }
{
    match name {
        Some(word) => Ok(column_called(alloc, &word.text, found.ty)?),
        None => Ok(bare_column(alloc, scopes, columns, number, found)?),
    }
}

#[tactic(auto, unfolding(crate::specs::Items::output_of))]
fn output_of(
    alloc: Global,
    scopes: &Scopes<'_>,
    columns: &[NamedColumn],
    number: usize,
    name: &Option<Word>,
    found: Typed,
) -> Result<Output, SchemaError>
    ensures { Gives (λ output. output) error.Memory (output_of (scopes_of scopes.now) columns.now number name.now found) result }
{
    let column = item_column(alloc, scopes, columns, number, name, &found)?;
    Ok(Output {
        expr: found.expr,
        column,
    })
}

/// An item under its number in the output, from 0, over the columns of a row, or the first refusal.
#[tactic(auto, unfolding(crate::specs::Items::item_output))]
pub fn item_output(
    alloc: Global,
    known: &Declarations,
    scopes: &Scopes<'_>,
    columns: &[NamedColumn],
    number: usize,
    item: &Item,
) -> Result<Output, SchemaError>
    ensures { Gives (λ output. output) error.Memory (item_output known.now (scopes_of scopes.now) columns.now number item.now) result }
{
    let found = expression(alloc, known, scopes, columns, &item.expr)?;
    output_of(alloc, scopes, columns, number, &item.name, found)
}

/// Items over the columns of a row, or the first refusal.
#[tactic(auto, unfolding(crate::specs::Items::items_selected))]
pub fn items_selected(
    alloc: Global,
    known: &Declarations,
    scopes: &Scopes<'_>,
    columns: &[NamedColumn],
    items: &[Item],
) -> Result<Selection, SchemaError>
    ensures { Gives (λ selection. selection) error.Memory (items_selected known.now (scopes_of scopes.now) columns.now items.now) result }
{
    let mut found = Selection {
        exprs: Items::new(alloc),
        columns: Items::new(alloc),
    };
    for item in items {
        let number = found.columns.len();
        let output = item_output(alloc, known, scopes, columns, number, item)?;
        found.exprs.push(output.expr)?;
        found.columns.push(output.column)?;
    }
    Ok(found)
}
