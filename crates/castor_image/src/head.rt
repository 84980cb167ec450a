//! The heads of images.

ghost use Rattle.std.specs.Prelude.{◌≡◌, ◌≤◌, ◌++◌, OnOk, length, true};
ghost use Rattle.castor_val.specs.Limits.{most_columns};
ghost use Rattle.castor_image.specs.Heads.{column_piece, columns_piece, head_bytes, is_head, type_number};

use castor_val::{Column, Memory, Ty};
use sqlite_items::Items;

/// What an image says of the query that it answers.
#[derive(Drop)]
pub struct Head {
    /// The parameters, 0 to 16, with distinct names.
    pub params: Items<Column>,
    /// The columns of each answer, 1 to 64.
    pub columns: Items<Column>,
}

/// Puts the bytes of a head at the end: those of its parameters, then those of its columns.
pub(crate) fn put_head(out: &mut Vec<u8>, head: &Head) -> Result<(), Memory>
    requires { is_head head.now ≡ true }
    ensures { OnOk result (out.new.items ≡ out.old.items ++ head_bytes head.now) }
{
    put_columns(out, head.params.as_slice())?;
    put_columns(out, head.columns.as_slice())
}

/// The number of columns, and the columns.
fn put_columns(out: &mut Vec<u8>, columns: &[Column]) -> Result<(), Memory>
    requires few { length columns.now ≤ most_columns }
    requires names { (columns_piece columns.now).fits ≡ true }
    ensures { OnOk result (out.new.items ≡ out.old.items ++ (columns_piece columns.now).bytes) }
{
    out.push(columns.len() as u8)?;
    for column in columns {
        put_column(out, column)?;
    }
    Ok(())
}

/// The number of a column's type, the length of its name, and the name.
fn put_column(out: &mut Vec<u8>, column: &Column) -> Result<(), Memory>
    requires { (column_piece column.now).fits ≡ true }
    ensures { OnOk result (out.new.items ≡ out.old.items ++ (column_piece column.now).bytes) }
{
    let name = column.name.as_str();
    out.push(type_number(column.ty))?;
    out.push(name.len() as u8)?;
    out.extend_from_slice(name.as_bytes())?;
    Ok(())
}

fn type_number(ty: Ty) -> u8
    ensures { result ≡ type_number ty }
{
    match ty {
        Ty::Int => 0,
        Ty::Bool => 1,
        Ty::Text => 2,
    }
}
