//! The distinct rows, by first appearance.

ghost use Rattle.std.specs.Prelude.{◌≡◌, IfOk};
ghost use Rattle.castor_val.specs.Values.{same_row};
ghost use Rattle.castor_alg.specs.Distinct.{deduped, distinct};
ghost use Rattle.castor_eval.specs.Marks.{marked};
ghost use Rattle.castor_eval.specs.Parts.{out_of};

use crate::keep::keep_marked;
use crate::part::Part;
use castor_alg::Out;
use castor_val::{Memory, Row};
use indexmap::IndexSet;
use std::alloc::Global;

/// `dedup`: the distinct rows, the first of equal rows. Linear in the rows and their values, on average; moves
/// rows that were made, and copies those of a table that it keeps.
pub fn dedup<'t>(alloc: Global, from: Part<'t>) -> Result<Part<'t>, Memory>
    ensures { IfOk result (λ part. out_of part ≡ deduped (out_of from.entry)) }
{
    let marks = first_marks(alloc, from.as_slice())?;
    let Part { rows, faults } = from;
    Ok(Part::made(Out {
        rows: keep_marked(alloc, rows, marks.as_slice())?,
        faults,
    }))
}

/// For each row whether no row before it equals it. Linear in the rows and their values, on average.
pub fn first_marks(alloc: Global, rows: &[Row]) -> Result<Vec<bool>, Memory>
    ensures { IfOk result (λ marks. marked marks.items rows.now ≡ distinct same_row rows.now) }
{
    let mut seen = IndexSet::new(alloc);
    let mut marks = Vec::new(alloc);
    for row in rows {
        let cells = row.cells(alloc)?;
        let Ok(is_new) = seen.insert(cells) else {
            return Err(Memory);
        };
        marks.push(is_new)?;
    }
    Ok(marks)
}
