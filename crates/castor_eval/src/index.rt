//! Look-ups: rows that equal the values looked up, and distinct rows within a range.

ghost use Rattle.std.specs.Prelude.{◌≡◌, ◌&&◌, IfOk, OnOk, false, map, slice_index_or};
ghost use Rattle.std.specs.Prelude.{filter as passing};
ghost use Rattle.std.specs.List.{list_any};
ghost use Rattle.castor_val.specs.Values.{column, same_row};
ghost use Rattle.castor_alg.specs.Distinct.{distinct};
ghost use Rattle.castor_alg.specs.Sorting.{row_lt, sorted};
ghost use Rattle.castor_eval.specs.Ranges.{above, below};

use crate::distinct::first_marks;
use crate::keep::is_marked;
use crate::limits::{Limit, is_above, is_below};
use crate::order::cell_at;
use castor_val::{Memory, Row, compare_values};
use std::alloc::Global;

/// Whether a row equals the key. Linear in the rows.
pub fn has_row(rows: &[Row], key: &Row) -> bool
    ensures { result ≡ list_any (same_row key.now) rows.now }
{
    for row in rows {
        if compare_values(key.as_slice(), row.as_slice()).is_eq() {
            return true;
        }
    }
    false
}

/// The distinct rows whose first value is within the limits, ascending. Linear in the rows on average,
/// and of the order n log n in the rows within the limits.
pub fn rows_within<'a>(
    alloc: Global,
    rows: &'a [Row],
    from: &Limit,
    to: &Limit,
) -> Result<Vec<&'a Row>, Memory>
    ensures { IfOk result (λ found. map (λ row. row.now) found.items ≡ sorted row_lt (passing (λ a. above from.now (column a 0) && below to.now (column a 0)) (distinct same_row rows.now))) }
{
    let mut found = distinct_within(alloc, rows, from, to)?;
    sort_ascending(&mut found)?;
    Ok(found)
}

fn distinct_within<'a>(
    alloc: Global,
    rows: &'a [Row],
    from: &Limit,
    to: &Limit,
) -> Result<Vec<&'a Row>, Memory>
    ensures { IfOk result (λ found. map (λ row. row.now) found.items ≡ passing (λ a. above from.now (column a 0) && below to.now (column a 0)) (distinct same_row rows.now)) }
{
    let marks = first_marks(alloc, rows)?;
    let mut found = Vec::new(alloc);
    for (at, row) in rows.iter().enumerate() {
        if is_picked(marks.as_slice(), at, row, from, to) {
            found.push(row)?;
        }
    }
    Ok(found)
}

// Whether a row is marked and its first value is within the limits.
fn is_picked(marks: &[bool], at: usize, row: &Row, from: &Limit, to: &Limit) -> bool
    ensures { result ≡ (slice_index_or marks.now at false && (above from.now (column row.now 0) && below to.now (column row.now 0))) }
{
    is_marked(marks, at) && is_within(row, from, to)
}

fn is_within(row: &Row, from: &Limit, to: &Limit) -> bool
    ensures { result ≡ (above from.now (column row.now 0) && below to.now (column row.now 0)) }
{
    let cell = cell_at(row, 0);
    is_above(cell, from) && is_below(cell, to)
}

fn sort_ascending(rows: &mut Vec<&Row>) -> Result<(), Memory>
    ensures { OnOk result (map (λ row. row.now) rows.new.items ≡ sorted row_lt (map (λ row. row.now) rows.old.items)) }
{
    rows.sort_by(|a, b| compare_values(a.as_slice(), b.as_slice()))?;
    Ok(())
}
