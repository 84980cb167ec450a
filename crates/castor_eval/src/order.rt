//! Rows sorted stably by keys.

ghost use Rattle.std.specs.Prelude.{◌≡◌, IfOk, OnOk};
ghost use Rattle.std.specs.Ordering.{is_lt};
ghost use Rattle.castor_val.specs.Values.{column, value_of};
ghost use Rattle.castor_alg.specs.Sorting.{by_key, by_keys, sorted, sorted_by};
ghost use Rattle.castor_eval.specs.Parts.{out_of};

use crate::part::{Part, into_rows};
use castor_alg::Key;
use castor_val::{Cell, Memory, Row, compare};
use std::alloc::Global;
use std::borrow::CowSlice;
use std::cmp::Ordering;

/// `orderby`: the rows sorted by the keys, where equal rows stay in their order. Of the order n log n in the rows;
/// moves rows that were made, and copies those of a table.
pub fn order<'t>(alloc: Global, keys: &[Key], from: Part<'t>) -> Result<Part<'t>, Memory>
    ensures { IfOk result (λ part. out_of part ≡ sorted_by keys.now (out_of from.entry)) }
{
    let Part { rows, faults } = from;
    let mut rows = into_rows(alloc, rows)?;
    sort_rows(&mut rows, keys)?;
    Ok(Part {
        rows: CowSlice::Owned(rows),
        faults,
    })
}

fn sort_rows(rows: &mut Vec<Row>, keys: &[Key]) -> Result<(), Memory>
    ensures { OnOk result (rows.new.items ≡ sorted (λ a b. is_lt (by_keys keys.now a b)) rows.old.items) }
{
    rows.sort_by(|a, b| compare_by_keys(keys, a, b))?;
    Ok(())
}

/// How two rows are ordered by the keys, the first difference deciding.
fn compare_by_keys(keys: &[Key], a: &Row, b: &Row) -> Ordering
    ensures { result ≡ by_keys keys.now a.now b.now }
{
    match keys {
        [] => Ordering::Equal,
        [key, rest @ ..] => match compare_by_key(*key, a, b) {
            Ordering::Less => Ordering::Less,
            Ordering::Equal => compare_by_keys(rest, a, b),
            Ordering::Greater => Ordering::Greater,
        },
    }
}

fn compare_by_key(key: Key, a: &Row, b: &Row) -> Ordering
    ensures { result ≡ by_key key a.now b.now }
{
    if key.desc {
        compare(cell_at(b, key.col), cell_at(a, key.col))
    } else {
        compare(cell_at(a, key.col), cell_at(b, key.col))
    }
}

/// The value of a row in a column, from 0, and false where the row has no such column.
pub fn cell_at(row: &Row, at: u32) -> Cell<'_>
    ensures { value_of result ≡ column row.now at }
{
    match row.as_slice().get(at as usize) {
        Some(value) => value.cell(),
        None => Cell::Bool(false),
    }
}
