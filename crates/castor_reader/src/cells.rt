//! Rows of cells.

ghost use Rattle.std.specs.Prelude.{◌≡◌, IfOk, map};
ghost use Rattle.castor_val.specs.Values.{column, value_of};

use castor_val::{Cell, Memory};
use std::alloc::Global;

/// The same cells. Linear in their number; copies no text.
pub fn copy_cells<'a>(alloc: Global, cells: &[Cell<'a>]) -> Result<Vec<Cell<'a>>, Memory>
    ensures { IfOk result (λ copy. copy.items ≡ cells.now) }
{
    let mut copy = Vec::new(alloc);
    copy.extend_from_slice(cells)?;
    Ok(copy)
}

/// The cell of a row in a column, from 0, and false where the row has no such column.
pub fn cell_at<'a>(row: &[Cell<'a>], at: u32) -> Cell<'a>
    ensures { value_of result ≡ column (map value_of row.now) at }
{
    match row.get(at as usize) {
        Some(cell) => *cell,
        None => Cell::Bool(false),
    }
}
