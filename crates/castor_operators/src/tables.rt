//! Tables as relations.

ghost use Rattle.std.specs.Prelude.{◌≡◌, IfOk, position};
ghost use Rattle.std.specs.Str.{bytes_eq};
ghost use Rattle.castor_val.specs.Gives.{Gives};
ghost use Rattle.castor_alg.specs.declared.rel.Rel as core;
ghost use Rattle.castor_names.specs.Names.{columns_of_table};
ghost use Rattle.castor_names.specs.declared.error.SchemaError.TheVariants as error;
ghost use Rattle.castor_names.specs.declared.table.Declared.{Declared};
ghost use Rattle.castor_operators.specs.Operators.{table_found};

use crate::found::Found;
use castor_alg::Rel;
use castor_names::{Declared, SchemaError, columns_of_table, is_same, number_of};
use castor_val::{Memory, Text};
use sqlite_items::at;
use std::alloc::Global;

fn place_of_table(tables: &[Declared], name: &Text) -> Option<usize>
    ensures { result ≡ position (λ (t : Declared). bytes_eq t.name name.now) tables.now }
{
    tables.iter().position(|t| is_same(&t.name, name))
}

fn table_at(alloc: Global, table: &Declared, number: u32, next: u32) -> Result<Found, Memory>
    ensures { IfOk result (λ found. found ≡ record { query = core.Table number; columns = columns_of_table table.now; next = next }) }
{
    let columns = columns_of_table(alloc, table)?;
    Ok(Found {
        query: Rel::Table(number),
        columns,
        next,
    })
}

/// The table of a name, or UnknownTable.
#[tactic(auto, unfolding(crate::specs::Operators::table_found))]
pub fn table_found(
    alloc: Global,
    tables: &[Declared],
    next: u32,
    name: &Text,
) -> Result<Found, SchemaError>
    ensures { Gives (λ found. found) error.Memory (table_found tables.now next name.now) result }
{
    let Some(place) = place_of_table(tables, name) else {
        return Err(SchemaError::UnknownTable);
    };
    match at(tables, place) {
        Some(table) => Ok(table_at(alloc, table, number_of(place)?, next)?),
        None => Err(SchemaError::UnknownTable),
    }
}
