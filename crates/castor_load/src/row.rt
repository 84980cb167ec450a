//! The row of a record.

ghost use Rattle.std.specs.Prelude.{◌≡◌, ◌≤◌, IfOk, [], length};
ghost use Rattle.csv.specs.Records.{fields_of};
ghost use Rattle.castor_val.specs.Columns.{types_of};
ghost use Rattle.castor_val.specs.Gives.{Gives};
ghost use Rattle.castor_val.specs.Limits.{most_columns};
ghost use Rattle.castor_load.specs.Rows.{field_read, row_of};
ghost use Rattle.castor_load.specs.declared.error.LoadError.TheVariants as error;

use crate::cells::cell_of_field;
use crate::error::LoadError;
use castor_val::{Column, Memory, Row, Ty, Value};
use csv::ByteRecord;
use std::alloc::Global;

// The value that a field is read as, if it is of the type. Linear in its bytes.
fn read_field(alloc: Global, ty: Ty, field: &[u8]) -> Result<Option<Value>, Memory>
    ensures { IfOk result (λ value. value ≡ field_read ty field.now) }
{
    match cell_of_field(ty, field) {
        Some(cell) => Ok(Some(cell.to_value(alloc)?)),
        None => Ok(None),
    }
}

// A row of no values, with room for this many.
fn row_with_room(alloc: Global, values: usize) -> Result<Row, Memory>
    ensures { IfOk result (λ row. row ≡ []) }
{
    Ok(Row::from_vec(Vec::with_capacity(alloc, values)?))
}

/// The row of the record with this number: as many fields as columns, each of its column's type.
///
/// `BadRecord` comes exactly where the number of fields differs, else `BadField` at the first field
/// that isn't of its type. Linear in the bytes of the record.
pub(crate) fn read_row(
    alloc: Global,
    columns: &[Column],
    number: u64,
    fields: &ByteRecord,
) -> Result<Row, LoadError>
    requires { length columns.now ≤ most_columns }
    ensures { Gives (λ row. row) error.Memory
        (row_of number (types_of columns.now) (fields_of fields.now)) result }
{
    if fields.len() != columns.len() {
        return Err(LoadError::BadRecord { number });
    }
    let mut row = row_with_room(alloc, columns.len())?;
    for (i, column) in columns.iter().enumerate() {
        let Some(field) = fields.get(i) else {
            return Err(LoadError::BadRecord { number });
        };
        let Some(value) = read_field(alloc, column.ty, field)? else {
            return Err(LoadError::BadField {
                number,
                column: i as u32,
            });
        };
        row.push(value)?;
    }
    Ok(row)
}
