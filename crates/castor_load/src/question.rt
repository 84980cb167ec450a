//! The values of a question line.

ghost use Rattle.std.specs.Prelude.{◌≡◌, ◌≤◌, IfOk, IfSome, IsTrue, length};
ghost use Rattle.castor_val.specs.Columns.{types_of};
ghost use Rattle.castor_val.specs.Limits.{most_columns};
ghost use Rattle.castor_val.specs.Values.{row_fits};
ghost use Rattle.castor_load.specs.Lines.{line_values};
ghost use Rattle.castor_load.specs.Plain.{is_plain};

use crate::cells::read_cells;
use crate::error::LoadError;
use crate::plain::is_plain;
use crate::records::Records;
use crate::row::read_row;
use castor_val::{Column, Memory, Row};
use csv::ByteRecord;
use std::alloc::Global;

// The values of a plain line, cut at its commas.
fn cut_line(alloc: Global, params: &[Column], line: &[u8]) -> Result<Option<Row>, Memory>
    requires { IsTrue (is_plain line.now) }
    ensures { IfOk result (λ values. values ≡ line_values params.now line.now) }
{
    let mut cells = Vec::new(alloc);
    if read_cells(params, line, &mut cells)? {
        Ok(Some(Row::from_cells(alloc, &cells)?))
    } else {
        Ok(None)
    }
}

// The values of any line, by `csv`.
fn parse_line(alloc: Global, params: &[Column], line: &[u8]) -> Result<Option<Row>, Memory>
    requires { length params.now ≤ most_columns }
    ensures { IfOk result (λ values. values ≡ line_values params.now line.now) }
{
    let mut records = Records::new(alloc, line);
    let mut fields = ByteRecord::new(alloc);
    if !records.next(&mut fields)? {
        return if params.is_empty() {
            Ok(Some(Row::new(alloc)))
        } else {
            Ok(None)
        };
    }
    let mut more = ByteRecord::new(alloc);
    if records.next(&mut more)? {
        return Ok(None);
    }
    match read_row(alloc, params, 0, &fields) {
        Ok(row) => Ok(Some(row)),
        Err(LoadError::Memory) => Err(Memory),
        Err(_) => Ok(None),
    }
}

/// The values that a line gives to parameters, or None where it isn't accepted.
///
/// The line, without its line end, is read by `csv` as a text of its own. It is accepted exactly
/// where there are no parameters and it holds no record, or where it holds one record of as many
/// fields as there are parameters, each of its parameter's type by `Cell::from_field`. So a byte
/// order mark at its start is dropped, a line that is a CR alone holds no record, and an empty text
/// is written `""`. Linear in the bytes of the line. A plain line is cut at its commas in place;
/// any other costs a reader of `csv`, which is some ten thousand bytes to fill.
pub fn read_line(alloc: Global, params: &[Column], line: &[u8]) -> Result<Option<Row>, Memory>
    requires { length params.now ≤ most_columns }
    ensures exact { IfOk result (λ values. values ≡ line_values params.now line.now) }
    ensures fits { IfOk result (λ values. IfSome values (λ row.
        IsTrue (row_fits row (types_of params.now)))) }
{
    if is_plain(line) {
        cut_line(alloc, params, line)
    } else {
        parse_line(alloc, params, line)
    }
}
