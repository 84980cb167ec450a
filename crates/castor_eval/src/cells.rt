//! Rows as cells, which borrow their texts.

ghost use Rattle.std.specs.Prelude.{◌≡◌, ◌++◌, OnOk, map};
ghost use Rattle.castor_val.specs.Values.{value_of};

use castor_val::{Cell, Memory, Row};

/// Puts the values of a row behind the cells. Linear in their number.
pub fn append_cells<'a>(cells: &mut Vec<Cell<'a>>, row: &'a Row) -> Result<(), Memory>
    ensures { OnOk result (map value_of cells.new.items ≡ map value_of cells.old.items ++ row.now) }
{
    for value in row.as_slice() {
        cells.push(value.cell())?;
    }
    Ok(())
}

/// Puts the values of a row in place of the cells. Linear in their number; takes memory only for a row
/// that is longer than those before.
pub fn load_cells<'a>(cells: &mut Vec<Cell<'a>>, row: &'a Row) -> Result<(), Memory>
    ensures { OnOk result (map value_of cells.new.items ≡ row.now) }
{
    cells.clear();
    append_cells(cells, row)?;
    Ok(())
}
