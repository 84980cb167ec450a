//! The keys of an index.

ghost use Rattle.std.specs.Prelude.{◌≡◌, [], IfOk, OnOk};
ghost use Rattle.castor_alg.specs.Meaning.{meaning};
ghost use Rattle.castor_alg.specs.Scopes.{scopes_of};
ghost use Rattle.castor_alg.specs.Sorting.{row_lt, sorted};
ghost use Rattle.castor_alg.specs.HeldData.{keys_of};

use crate::source::distinct_rows;
use castor_alg::{Env, Out, Rel};
use castor_val::{Memory, Row, Table, compare_values};
use std::alloc::Global;

/// The distinct rows of a relation, ascending, and its faults. Besides the evaluation of the order
/// n log n in the distinct rows, which are moved.
pub fn key_rows<'e, 'a>(
    alloc: Global,
    r: &Rel,
    tables: &[Table],
    env: &Env<'e, 'a>,
) -> Result<Out, Memory>
    ensures { IfOk result (λ out. out ≡ keys_of (meaning r.now tables.now (scopes_of env.now) [])) }
{
    let Out { rows, faults } = distinct_rows(alloc, r, tables, env)?;
    let mut rows = rows.into_rows();
    sort_ascending(&mut rows)?;
    Ok(Out {
        rows: Table::from_vec(rows),
        faults,
    })
}

fn sort_ascending(rows: &mut Vec<Row>) -> Result<(), Memory>
    ensures { OnOk result (rows.new.items ≡ sorted row_lt rows.old.items) }
{
    rows.sort_by(|a, b| compare_values(a.as_slice(), b.as_slice()))?;
    Ok(())
}
