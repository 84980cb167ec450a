//! The check of a query file.

ghost use Rattle.std.specs.Prelude.{IfOk};
ghost use Rattle.castor_val.specs.Gives.{Gives};
ghost use Rattle.castor_tree.specs.Formed.{IsFormed};
ghost use Rattle.castor_schema.specs.Check.{checked};
ghost use Rattle.castor_schema.specs.WellTyped.{AreNamed, AreWithinLimits, IsAsLarge, IsClosed, IsWellTyped};
ghost use Rattle.castor_names.specs.declared.error.SchemaError.TheVariants as error;

use crate::checked::Checked;
use castor_names::declarations::declared;
use castor_names::{SchemaError, Scopes, plain_columns};
use castor_relations::relation::relation;
use castor_tree::File;
use std::alloc::Global;

fn checked(alloc: Global, file: &File) -> Result<Checked, SchemaError>
    ensures { Gives (λ c. c) error.Memory (checked file.now) result }
{
    let known = declared(alloc, file.decls.as_slice())?;
    let found = relation(alloc, &known, &Scopes::NoScope, 0, &file.query)?;
    let columns = plain_columns(alloc, found.columns.as_slice())?;
    Ok(Checked {
        tables: known.tables,
        params: known.params,
        columns,
        query: found.query,
    })
}

/// What a query file means: its tables, its parameters, the columns of its answer, and its query with
/// numbers in the place of names; or the first refusal. `castor_parse::parse` answers with formed files.
///
/// Declarations come in their order, then the query. Of a relation come its operands left to right, then
/// its lists and expressions left to right, then its own conditions: WrongCount, TypeMismatch, TooLarge.
/// Of an expression come its operands left to right, then itself. Binders are numbered from 0 in preorder.
///
/// The query is closed and well typed over the tables and parameters, and as large as the file's tree.
/// There are at most 16 tables and 16 parameters, and each table and the answer have 1 to 64 columns.
/// Tables have names of their own, and so have parameters and the columns of a table. A name is a letter or
/// `_`, then letters, digits and `_`, in all 1 to 64 bytes.
///
/// Linear in the tree times the number of columns and scopes that a name is sought among, which is a scan
/// over at most 64 columns, or 128 in a `join`. Quadratic in the number of columns of one declaration.
pub fn check(alloc: Global, file: &File) -> Result<Checked, SchemaError>
    requires formed { IsFormed file.now }
    ensures exact { Gives (λ c. c) error.Memory (checked file.now) result }
    ensures typed { IfOk result IsWellTyped }
    ensures closed { IfOk result IsClosed }
    ensures large { IfOk result (IsAsLarge file.now.query) }
    ensures limits { IfOk result AreWithinLimits }
    ensures names { IfOk result AreNamed }
{
    match checked(alloc, file) {
        Ok(checked) => Ok(checked),
        Err(why) => Err(why),
    }
}
