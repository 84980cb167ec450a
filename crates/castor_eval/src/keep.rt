//! Rows that are kept by marks.

ghost use Rattle.std.specs.Prelude.{◌≡◌, IfOk, false, slice_index_or};
ghost use Rattle.std.specs.Cow.{cow_slice_items};
ghost use Rattle.castor_eval.specs.Marks.{marked};

use castor_val::{Memory, Row, Table};
use std::alloc::Global;
use std::borrow::CowSlice;

/// The rows whose mark is true. Moves rows that were made, and copies those of a table: linear in all
/// rows, and in the values and texts of the rows that are kept and copied.
pub fn keep_marked(alloc: Global, rows: CowSlice<Row>, marks: &[bool]) -> Result<Table, Memory>
    ensures { IfOk result (λ t. t ≡ marked marks.now (cow_slice_items rows.entry)) }
{
    match rows {
        CowSlice::Borrowed(rows) => Ok(copy_marked(alloc, rows, marks)?),
        CowSlice::Owned(rows) => Ok(move_marked(alloc, rows, marks)?),
    }
}

/// Whether there is a mark at a place, and it is true.
pub fn is_marked(marks: &[bool], at: usize) -> bool
    ensures { result ≡ slice_index_or marks.now at false }
{
    match marks.get(at) {
        Some(mark) => *mark,
        None => false,
    }
}

fn copy_marked(alloc: Global, rows: &[Row], marks: &[bool]) -> Result<Table, Memory>
    ensures { IfOk result (λ t. t ≡ marked marks.now rows.now) }
{
    let mut kept = Table::new(alloc);
    for (at, row) in rows.iter().enumerate() {
        if is_marked(marks, at) {
            kept.push(row.copy(alloc)?)?;
        }
    }
    Ok(kept)
}

fn move_marked(alloc: Global, rows: Vec<Row>, marks: &[bool]) -> Result<Table, Memory>
    ensures { IfOk result (λ t. t ≡ marked marks.now rows.items) }
{
    let mut rest = rows.into_iter();
    let mut kept = Table::new(alloc);
    for mark in marks {
        if let Some(row) = rest.next() {
            if *mark {
                kept.push(row)?;
            }
        }
    }
    Ok(kept)
}
