//! The operands of `cross` and `concat`, and what a `concat` makes of them.

ghost use Rattle.std.specs.Prelude.{◌≡◌, ◌==◌, List, length};
ghost use Rattle.std.specs.List.{list_all};
ghost use Rattle.castor_alg.specs.Typing.{same_types};
ghost use Rattle.castor_names.specs.Names.{types_of};
ghost use Rattle.castor_names.specs.declared.column.NamedColumn.{NamedColumn};
ghost use Rattle.castor_operators.specs.Operators.{first_columns, same_widths, same_column_types, concatenated};

use crate::found::Found;
use castor_alg::Rel;
use castor_exprs::have_same_types;
use castor_names::{NamedColumn, SchemaError};
use sqlite_items::Items;
use std::alloc::Global;

/// The operands of a `cross`: their columns are appended.
#[derive(Drop)]
pub struct Crossing {
    pub queries: Items<Rel>,
    pub columns: Items<NamedColumn>,
    pub next: u32,
}

/// The operands of a `concat`, and the columns of each.
#[derive(Drop)]
pub struct Operands {
    pub queries: Items<Rel>,
    pub columns: Items<Items<NamedColumn>>,
    pub next: u32,
}

fn are_all_as_wide(operands: &[Items<NamedColumn>], width: usize) -> bool
    ensures { result ≡ list_all (λ (columns : List NamedColumn). length columns == width) operands.now }
{
    operands.iter().all(|columns| columns.len() == width)
}

fn have_same_widths(operands: &[Items<NamedColumn>]) -> bool
    ensures { result ≡ same_widths operands.now }
{
    match operands.first() {
        Some(first) => are_all_as_wide(operands, first.len()),
        None => true,
    }
}

fn have_all_types_of(operands: &[Items<NamedColumn>], first: &[NamedColumn]) -> bool
    ensures { result ≡ list_all (λ (columns : List NamedColumn). same_types (types_of first.now) (types_of columns)) operands.now }
{
    operands
        .iter()
        .all(|columns| have_same_types(first, columns.as_slice()))
}

fn have_same_column_types(operands: &[Items<NamedColumn>]) -> bool
    ensures { result ≡ same_column_types operands.now }
{
    match operands.first() {
        Some(first) => have_all_types_of(operands, first.as_slice()),
        None => true,
    }
}

fn first_columns(alloc: Global, mut operands: Items<Items<NamedColumn>>) -> Items<NamedColumn>
    ensures { result ≡ first_columns operands }
{
    if operands.len() == 0 {
        return Items::new(alloc);
    }
    operands.remove(0)
}

/// `concat`: operands of the same column types.
#[tactic(auto, unfolding(crate::specs::Operators::concatenated))]
pub fn concatenated(alloc: Global, all: Operands) -> Result<Found, SchemaError>
    ensures { result ≡ concatenated all }
{
    if !have_same_widths(all.columns.as_slice()) {
        return Err(SchemaError::WrongCount);
    }
    if !have_same_column_types(all.columns.as_slice()) {
        return Err(SchemaError::TypeMismatch);
    }
    Ok(Found {
        query: Rel::Concat(all.queries),
        columns: first_columns(alloc, all.columns),
        next: all.next,
    })
}
