//! The table of a file of records.

ghost use Rattle.std.specs.Prelude.{◌≡◌, ◌≤◌, IfOk, IsTrue, length};
ghost use Rattle.std.specs.Cmp.Lexicographic.{pointwise};
ghost use Rattle.std.specs.Str.{bytes_eq};
ghost use Rattle.csv.specs.Records.{fields_of};
ghost use Rattle.castor_val.specs.Columns.{types_of};
ghost use Rattle.castor_val.specs.Gives.{Gives};
ghost use Rattle.castor_val.specs.Limits.{most_columns};
ghost use Rattle.castor_val.specs.Values.{table_fits};
ghost use Rattle.castor_load.specs.Rows.{names_of, table_of};
ghost use Rattle.castor_load.specs.declared.error.LoadError.TheVariants as error;

use crate::error::LoadError;
use crate::records::Records;
use crate::row::read_row;
use castor_val::{Column, Table};
use csv::ByteRecord;
use std::alloc::Global;

// Whether the fields are the names of the columns in their order.
fn is_header(columns: &[Column], fields: &ByteRecord) -> bool
    ensures { result ≡ pointwise bytes_eq (fields_of fields.now) (names_of columns.now) }
{
    if fields.len() != columns.len() {
        return false;
    }
    for (i, column) in columns.iter().enumerate() {
        let Some(field) = fields.get(i) else {
            return false;
        };
        if field != column.name.as_str().as_bytes() {
            return false;
        }
    }
    true
}

/// The table of a file of records: the header, and then the rows.
///
/// The records are those that `csv` reads with its defaults, numbered from 0. A byte order mark at
/// the start is dropped, and empty lines are no records. Record 0 is the header, which must be the
/// names of the columns in their order; each later record is a row, which must have as many fields
/// as there are columns, each of its column's type by `Cell::from_field`.
///
/// `BadHeader` comes exactly where record 0 is missing or isn't the names. Of the first record
/// after it that doesn't fit, `BadRecord` tells where its number of fields differs, and else
/// `BadField` tells its first field that isn't of its type, with the columns counted from 0.
///
/// One record is read at a time. Time is linear in the bytes. Beside the bytes and one record the
/// memory is that of the rows alone: 24 bytes a row, 32 a value, and the bytes of its texts, with
/// an allocation for each row and each text. The list of rows grows by doubling.
pub fn load(alloc: Global, columns: &[Column], bytes: &[u8]) -> Result<Table, LoadError>
    requires { length columns.now ≤ most_columns }
    ensures exact { Gives (λ table. table) error.Memory (table_of columns.now bytes.now) result }
    ensures fits { IfOk result (λ table. IsTrue (table_fits table (types_of columns.now))) }
{
    let mut records = Records::new(alloc, bytes);
    let mut fields = ByteRecord::new(alloc);
    if !records.next(&mut fields)? || !is_header(columns, &fields) {
        return Err(LoadError::BadHeader);
    }
    let mut table = Table::new(alloc);
    for number in 1..u64::MAX {
        if !records.next(&mut fields)? {
            return Ok(table);
        }
        let row = read_row(alloc, columns, number, &fields)?;
        table.push(row)?;
    }
    // No text that memory holds has so many records.
    Err(LoadError::Memory)
}
