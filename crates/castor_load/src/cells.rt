//! The values of a plain line, as cells that borrow it.

ghost use Rattle.std.specs.Prelude.{◌≡◌, None, Some, IfOk, IsTrue, map, option_map};
ghost use Rattle.std.specs.Bool.{MatchBool};
ghost use Rattle.std.specs.Result.{result_ok};
ghost use Rattle.castor_val.specs.Columns.{types_of};
ghost use Rattle.castor_val.specs.Values.{value_of};
ghost use Rattle.castor_load.specs.Lines.{line_values};
ghost use Rattle.castor_load.specs.Plain.{fields_left, is_plain};
ghost use Rattle.castor_load.specs.Rows.{field_read, row_of};

use crate::fields::Fields;
use castor_val::{Cell, Column, Memory, Ty};
use std::str;

/// The value that a field is read as, if it is of the type. Linear in its bytes.
pub(crate) fn cell_of_field(ty: Ty, field: &[u8]) -> Option<Cell<'_>>
    ensures { option_map value_of result ≡ field_read ty field.now }
{
    match str::from_utf8(field) {
        Ok(text) => Cell::from_field(ty, text),
        Err(_) => None,
    }
}

// Puts the values of fields into `into` in the place of what it held, if there are as many fields
// as parameters and each is of its parameter's type, and says whether it is so.
fn take_cells<'a>(
    params: &[Column],
    mut fields: Fields<'a>,
    into: &mut Vec<Cell<'a>>,
) -> Result<bool, Memory>
    ensures { IfOk result (λ accepted. MatchBool accepted
        (result_ok (row_of 0 (types_of params.now) (fields_left fields.entry)) ≡ Some (map value_of into.new.items))
        (result_ok (row_of 0 (types_of params.now) (fields_left fields.entry)) ≡ None)) }
{
    into.clear();
    for param in params {
        let Some(field) = fields.next() else {
            return Ok(false);
        };
        let Some(cell) = cell_of_field(param.ty, field) else {
            return Ok(false);
        };
        into.push(cell)?;
    }
    Ok(fields.next().is_none())
}

/// Puts the values that a plain line gives to parameters into `into`, in the place of what it held,
/// and says whether the line is accepted, as `read_line` says. If it isn't, what `into` holds says
/// nothing.
///
/// Linear in the bytes of the line. Takes memory only where `into` has too little room.
pub fn read_cells<'a>(
    params: &[Column],
    line: &'a [u8],
    into: &mut Vec<Cell<'a>>,
) -> Result<bool, Memory>
    requires { IsTrue (is_plain line.now) }
    ensures { IfOk result (λ accepted. MatchBool accepted
        (line_values params.now line.now ≡ Some (map value_of into.new.items))
        (line_values params.now line.now ≡ None)) }
{
    take_cells(params, Fields::of_line(line), into)
}
