//! Rows that are kept by marks.

ghost use Rattle.std.specs.Prelude.{◌≡◌, IfOk};
ghost use Rattle.castor_eval.specs.Marks.{marked};

use castor_val::{Cell, Memory};
use std::alloc::Global;

/// The rows whose mark is true, moved. Linear in the rows.
pub fn keep_marked<'a>(
    alloc: Global,
    rows: Vec<Vec<Cell<'a>>>,
    marks: &[bool],
) -> Result<Vec<Vec<Cell<'a>>>, Memory>
    ensures { IfOk result (λ kept. kept.items ≡ marked marks.now rows.entry.items) }
{
    let mut rest = rows.into_iter();
    let mut kept = Vec::new(alloc);
    for mark in marks {
        if let Some(row) = rest.next() {
            if *mark {
                kept.push(row)?;
            }
        }
    }
    Ok(kept)
}
