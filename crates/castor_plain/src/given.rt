//! What relations and expressions are evaluated under.

use castor_val::{Cell, Memory, Table};
use std::alloc::Global;

/// The values of a row, one by one.
pub type Line<'a> = Vec<Cell<'a>>;

/// A scope and the row that it is bound to.
#[derive(Drop)]
pub struct Binding<'a> {
    pub scope: u32,
    pub row: Line<'a>,
}

/// The tables, the bindings of scopes, the innermost last, and the parameters.
#[derive(Clone, Copy)]
pub struct Given<'b, 'a> {
    pub alloc: Global,
    pub tables: &'a [Table],
    pub scopes: &'b [Binding<'a>],
    pub params: &'b [Cell<'a>],
}

/// An equal row.
pub fn copied<'a>(alloc: Global, row: &[Cell<'a>]) -> Result<Line<'a>, Memory> {
    Ok(Vec::from_slice(alloc, row)?)
}

fn bind<'a>(alloc: Global, scope: u32, row: &[Cell<'a>]) -> Result<Binding<'a>, Memory> {
    let row = copied(alloc, row)?;
    Ok(Binding { scope, row })
}

/// The bindings and one more.
pub fn extended<'a>(
    alloc: Global,
    scopes: &[Binding<'a>],
    scope: u32,
    row: &[Cell<'a>],
) -> Result<Vec<Binding<'a>>, Memory> {
    let mut all = Vec::new(alloc);
    for outer in scopes {
        all.push(bind(alloc, outer.scope, outer.row.as_slice())?)?;
    }
    all.push(bind(alloc, scope, row)?)?;
    Ok(all)
}

/// The value in a column, false where there is none.
pub fn column<'a>(row: &[Cell<'a>], at: u32) -> Cell<'a> {
    match row.get(at as usize) {
        Some(cell) => *cell,
        None => Cell::Bool(false),
    }
}

/// The value in a column of a scope's innermost row.
pub fn bound_column<'a>(scopes: &[Binding<'a>], scope: u32, at: u32) -> Cell<'a> {
    let mut found = Cell::Bool(false);
    for binding in scopes {
        if binding.scope == scope {
            found = column(binding.row.as_slice(), at);
        }
    }
    found
}
