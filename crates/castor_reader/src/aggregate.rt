//! Aggregates over the rows of a group.

ghost use Rattle.std.specs.Prelude.{◌≡◌, ◌+ℤ◌, ◌≤ℤ◌, ◌-◌, ◌^◌, map, neg_ℤ, pos};
ghost use Rattle.castor_val.specs.Values.{column, value_of};
ghost use Rattle.castor_alg.specs.Answers.{answer_of};
ghost use Rattle.castor_alg.specs.Expression.{whole};
ghost use Rattle.castor_alg.specs.Groups as groups;
ghost use Rattle.castor_reader.specs.Answers.{row_behind};

use crate::cells::cell_at;
use castor_alg::Agg;
use castor_val::{Cell, Faults, compare};

/// An aggregate over rows, or its fault. Linear in the rows. A sum is taken in 128 bits, which hold the
/// sum of any 2^64 ints, so that it faults only where the whole sum isn't an int.
pub fn aggregate<'a>(agg: Agg, rows: &[&[Cell<'a>]]) -> Result<Cell<'a>, Faults>
    ensures { answer_of result ≡ groups.aggregate agg (map row_behind rows.now) }
{
    match agg {
        Agg::Count => Ok(Cell::Int(rows.len().min(i64::MAX as usize) as i64)),
        Agg::Sum(at) => sum(rows, at),
        Agg::Min(at) => least(rows, at),
        Agg::Max(at) => greatest(rows, at),
    }
}

fn sum<'a>(rows: &[&[Cell]], at: u32) -> Result<Cell<'a>, Faults>
    ensures { answer_of result ≡ whole (groups.total at (map row_behind rows.now)) }
{
    let mut total: i128 = 0;
    for row in rows {
        total = add(total, int_in(cell_at(row, at)));
    }
    match i64::try_from(total) {
        Ok(total) => Ok(Cell::Int(total)),
        Err(_) => Err(Faults::OVERFLOW),
    }
}

// A sum that is far from the ends of 128 bits, and one more int.
fn add(total: i128, number: i64) -> i128
    requires least { neg_ℤ (pos (2 ^ 127 - 2 ^ 64)) ≤ℤ total }
    requires most { total ≤ℤ pos (2 ^ 127 - 2 ^ 64) }
    ensures { result ≡ total +ℤ number }
{
    total + i128::from(number)
}

// The number of an int, and 0 for a value of another type.
fn int_in(cell: Cell) -> i64
    ensures { result ≡ groups.int_in (value_of cell.entry) }
{
    match cell {
        Cell::Int(number) => number,
        Cell::Bool(_) => 0,
        Cell::Text(_) => 0,
    }
}

fn least<'a>(rows: &[&[Cell<'a>]], at: u32) -> Result<Cell<'a>, Faults>
    ensures { answer_of result ≡ groups.best groups.lesser (map (λ row. column row at) (map row_behind rows.now)) }
{
    let [first, rest @ ..] = rows else {
        return Err(Faults::NOROWS);
    };
    let mut least = cell_at(first, at);
    for row in rest {
        least = lesser(least, cell_at(row, at));
    }
    Ok(least)
}

fn greatest<'a>(rows: &[&[Cell<'a>]], at: u32) -> Result<Cell<'a>, Faults>
    ensures { answer_of result ≡ groups.best groups.greater (map (λ row. column row at) (map row_behind rows.now)) }
{
    let [first, rest @ ..] = rows else {
        return Err(Faults::NOROWS);
    };
    let mut greatest = cell_at(first, at);
    for row in rest {
        greatest = greater(greatest, cell_at(row, at));
    }
    Ok(greatest)
}

fn lesser<'a>(a: Cell<'a>, b: Cell<'a>) -> Cell<'a>
    ensures { value_of result ≡ groups.lesser (value_of a.entry) (value_of b.entry) }
{
    if compare(b, a).is_lt() { b } else { a }
}

fn greater<'a>(a: Cell<'a>, b: Cell<'a>) -> Cell<'a>
    ensures { value_of result ≡ groups.greater (value_of a.entry) (value_of b.entry) }
{
    if compare(b, a).is_gt() { b } else { a }
}
