//! The columns of a relation while names are found.

ghost use Rattle.std.specs.Prelude.{◌≡◌, ◌++◌, IfOk, None, Some, codes, decimal, map, option_map};
ghost use Rattle.castor_names.specs.Names.{called_or_numbered, column_called, column_numbered, columns_of_table, plain_columns};

use crate::table::Declared;
use castor_tree::Word;
use castor_val::{Column, Memory, Text, Ty};
use sqlite_items::Items;
use std::alloc::Global;

/// A column of a relation: its name, the name that may stand before it with a dot, and its type.
#[derive(Drop)]
pub struct NamedColumn {
    pub name: Text,
    pub qualifier: Option<Text>,
    pub ty: Ty,
}

impl NamedColumn {
    /// An equal column. Linear in the length of its names.
    pub fn copy(&self, alloc: Global) -> Result<NamedColumn, Memory>
        ensures { IfOk result (λ c. c ≡ self.now) }
    {
        let name = self.name.copy(alloc)?;
        let qualifier = copy_qualifier(alloc, &self.qualifier)?;
        Ok(NamedColumn {
            name,
            qualifier,
            ty: self.ty,
        })
    }
}

fn copy_qualifier(alloc: Global, qualifier: &Option<Text>) -> Result<Option<Text>, Memory>
    ensures { IfOk result (λ q. q ≡ qualifier.now) }
{
    match qualifier {
        None => Ok(None),
        Some(text) => Ok(Some(text.copy(alloc)?)),
    }
}

/// A column of this type, with the name and the qualifier of another.
pub fn column_kept(alloc: Global, column: &NamedColumn, ty: Ty) -> Result<NamedColumn, Memory>
    ensures { IfOk result (λ c. c ≡ record { name = column.now.name; qualifier = column.now.qualifier; ty = ty }) }
{
    let name = column.name.copy(alloc)?;
    let qualifier = copy_qualifier(alloc, &column.qualifier)?;
    Ok(NamedColumn {
        name,
        qualifier,
        ty,
    })
}

/// A column that is named so.
pub fn column_called(alloc: Global, name: &Text, ty: Ty) -> Result<NamedColumn, Memory>
    ensures { IfOk result (λ c. c ≡ column_called name.now ty) }
{
    Ok(NamedColumn {
        name: name.copy(alloc)?,
        qualifier: None,
        ty,
    })
}

/// A column that has its number for a name.
pub fn column_numbered(alloc: Global, number: usize, ty: Ty) -> Result<NamedColumn, Memory>
    ensures { IfOk result (λ c. c ≡ column_numbered number ty) }
{
    Ok(NamedColumn {
        name: Text::new(format!(in alloc; "c{number}")?),
        qualifier: None,
        ty,
    })
}

/// A column with the name that `as` gives it, if there is one, and else its number.
pub fn called_or_numbered(
    alloc: Global,
    name: &Option<Word>,
    number: usize,
    ty: Ty,
) -> Result<NamedColumn, Memory>
    ensures { IfOk result (λ c. c ≡ called_or_numbered name.now number ty) }
{
    match name {
        Some(word) => Ok(column_called(alloc, &word.text, ty)?),
        None => Ok(column_numbered(alloc, number, ty)?),
    }
}

/// The columns of a table. Linear in the length of their names.
pub fn columns_of_table(alloc: Global, table: &Declared) -> Result<Items<NamedColumn>, Memory>
    ensures { IfOk result (λ columns. columns ≡ columns_of_table table.now) }
{
    let mut columns = Items::new(alloc);
    for column in table.columns.as_slice() {
        columns.push(NamedColumn {
            name: column.name.copy(alloc)?,
            qualifier: Some(table.name.copy(alloc)?),
            ty: column.ty,
        })?;
    }
    Ok(columns)
}

/// The columns without their qualifiers. Linear in the length of their names.
pub fn plain_columns(alloc: Global, columns: &[NamedColumn]) -> Result<Items<Column>, Memory>
    ensures { IfOk result (λ plain. plain ≡ plain_columns columns.now) }
{
    let mut plain = Items::new(alloc);
    for column in columns {
        plain.push(Column {
            name: column.name.copy(alloc)?,
            ty: column.ty,
        })?;
    }
    Ok(plain)
}
