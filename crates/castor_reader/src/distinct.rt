//! The distinct rows, by first appearance.

ghost use Rattle.std.specs.Prelude.{◌≡◌, IfOk, map};
ghost use Rattle.castor_val.specs.Values.{same_row};
ghost use Rattle.castor_alg.specs.Distinct.{deduped, distinct};
ghost use Rattle.castor_eval.specs.Marks.{marked};
ghost use Rattle.castor_reader.specs.Answers.{out_of, values_in};

use crate::answer::Answer;
use crate::cells::copy_cells;
use crate::keep::keep_marked;
use castor_val::{Cell, Memory};
use indexmap::IndexSet;
use std::alloc::Global;

/// `dedup`: the distinct rows, the first of equal rows, moved. Linear in the rows and their cells, on average.
pub fn dedup<'a>(alloc: Global, from: Answer<'a>) -> Result<Answer<'a>, Memory>
    ensures { IfOk result (λ answer. out_of answer ≡ deduped (out_of from.entry)) }
{
    let Answer { rows, faults } = from;
    let marks = first_marks(alloc, rows.as_slice())?;
    Ok(Answer {
        rows: keep_marked(alloc, rows, marks.as_slice())?,
        faults,
    })
}

/// For each row whether no row before it equals it. Linear in the rows and their cells, on average.
fn first_marks(alloc: Global, rows: &[Vec<Cell>]) -> Result<Vec<bool>, Memory>
    ensures { IfOk result (λ marks. marked marks.items (map values_in rows.now) ≡ distinct same_row (map values_in rows.now)) }
{
    let mut seen = IndexSet::new(alloc);
    let mut marks = Vec::new(alloc);
    for row in rows {
        let cells = copy_cells(alloc, row.as_slice())?;
        let Ok(is_new) = seen.insert(cells) else {
            return Err(Memory);
        };
        marks.push(is_new)?;
    }
    Ok(marks)
}
