//! The tables and parameters that a file declares.

ghost use Rattle.std.specs.Prelude.{◌≡◌};
ghost use Rattle.castor_val.specs.Gives.{Gives};
ghost use Rattle.castor_names.specs.Declarations.{columns_declared, declared, is_column_name, is_table_name, with_declaration, with_param, with_table};
ghost use Rattle.castor_names.specs.declared.error.SchemaError.TheVariants as error;

use crate::error::SchemaError;
use crate::names::is_same;
use crate::table::Declared;
use castor_tree::{Decl, Word};
use castor_val::{Column, MAX_COLUMNS, MAX_PARAMS, MAX_TABLES, Text, Ty};
use sqlite_items::Items;
use std::alloc::Global;

/// The tables and parameters that are declared so far.
#[derive(Drop)]
pub struct Declarations {
    pub tables: Items<Declared>,
    pub params: Items<Column>,
}

fn is_column_name(columns: &[Column], name: &Text) -> bool
    ensures { result ≡ is_column_name columns.now name.now }
{
    columns.iter().any(|c| is_same(&c.name, name))
}

fn is_table_name(tables: &[Declared], name: &Text) -> bool
    ensures { result ≡ is_table_name tables.now name.now }
{
    tables.iter().any(|t| is_same(&t.name, name))
}

#[tactic(auto, unfolding(crate::specs::Declarations::with_column))]
fn columns_declared(alloc: Global, columns: &[(Word, Ty)]) -> Result<Items<Column>, SchemaError>
    ensures { Gives (λ columns. columns) error.Memory (columns_declared columns.now) result }
{
    let mut found = Items::new(alloc);
    for (word, ty) in columns {
        if is_column_name(found.as_slice(), &word.text) {
            return Err(SchemaError::DuplicateName);
        }
        let name = word.text.copy(alloc)?;
        found.push(Column { name, ty: *ty })?;
    }
    Ok(found)
}

#[tactic(auto, unfolding(crate::specs::Declarations::with_table))]
fn with_table(
    alloc: Global,
    mut found: Declarations,
    word: &Word,
    columns: &[(Word, Ty)],
) -> Result<Declarations, SchemaError>
    ensures { Gives (λ found. found) error.Memory (with_table found word.now columns.now) result }
{
    if is_table_name(found.tables.as_slice(), &word.text) {
        return Err(SchemaError::DuplicateName);
    }
    let columns = columns_declared(alloc, columns)?;
    if columns.len() > MAX_COLUMNS || found.tables.len() >= MAX_TABLES {
        return Err(SchemaError::TooLarge);
    }
    let name = word.text.copy(alloc)?;
    found.tables.push(Declared { name, columns })?;
    Ok(found)
}

#[tactic(auto, unfolding(crate::specs::Declarations::with_param))]
fn with_param(
    alloc: Global,
    mut found: Declarations,
    word: &Word,
    ty: Ty,
) -> Result<Declarations, SchemaError>
    ensures { Gives (λ found. found) error.Memory (with_param found word.now ty) result }
{
    if is_column_name(found.params.as_slice(), &word.text) {
        return Err(SchemaError::DuplicateName);
    }
    if found.params.len() >= MAX_PARAMS {
        return Err(SchemaError::TooLarge);
    }
    let name = word.text.copy(alloc)?;
    found.params.push(Column { name, ty })?;
    Ok(found)
}

#[tactic(auto, unfolding(crate::specs::Declarations::with_declaration))]
fn with_declaration(
    alloc: Global,
    found: Declarations,
    decl: &Decl,
) -> Result<Declarations, SchemaError>
    ensures { Gives (λ found. found) error.Memory (with_declaration found decl.now) result }
{
    match decl {
        Decl::Table(word, columns) => with_table(alloc, found, word, columns.as_slice()),
        Decl::Param(word, ty) => with_param(alloc, found, word, *ty),
    }
}

/// The tables and parameters of declarations, in their order, or the first refusal.
pub fn declared(alloc: Global, decls: &[Decl]) -> Result<Declarations, SchemaError>
    ensures { Gives (λ found. found) error.Memory (declared decls.now) result }
{
    let mut found = Declarations {
        tables: Items::new(alloc),
        params: Items::new(alloc),
    };
    for decl in decls {
        found = with_declaration(alloc, found, decl)?;
    }
    Ok(found)
}
