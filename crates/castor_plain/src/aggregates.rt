//! Groups, found and aggregated by nested loops.

use crate::given::{Line, column, copied};
use crate::operators::{Plain, distinct};
use castor_alg::Agg;
use castor_val::{Cell, Faults, Memory, compare, is_same_row};
use std::alloc::Global;

// The values of a row in the key columns.
fn key_of<'a>(alloc: Global, ks: &[u32], row: &[Cell<'a>]) -> Result<Line<'a>, Memory> {
    let mut key = Vec::new(alloc);
    for k in ks {
        key.push(column(row, *k))?;
    }
    Ok(key)
}

// The keys of the groups.
fn keys<'a>(alloc: Global, ks: &[u32], rows: &[Line<'a>]) -> Result<Vec<Line<'a>>, Memory> {
    let mut all = Vec::new(alloc);
    if ks.is_empty() {
        all.push(Vec::new(alloc))?;
        return Ok(all);
    }
    for row in rows {
        all.push(key_of(alloc, ks, row.as_slice())?)?;
    }
    distinct(alloc, all.as_slice())
}

// The rows that have a key.
fn members<'a>(
    alloc: Global,
    ks: &[u32],
    rows: &[Line<'a>],
    key: &[Cell<'a>],
) -> Result<Vec<Line<'a>>, Memory> {
    let mut members = Vec::new(alloc);
    for row in rows {
        let own = key_of(alloc, ks, row.as_slice())?;
        if is_same_row(own.as_slice(), key) {
            members.push(copied(alloc, row.as_slice())?)?;
        }
    }
    Ok(members)
}

fn count<'a>(rows: &[Line<'_>]) -> Cell<'a> {
    let mut count: i64 = 0;
    for _ in rows {
        count = count.wrapping_add(1);
    }
    Cell::Int(count)
}

fn sum<'a>(rows: &[Line<'_>], at: u32) -> Result<Cell<'a>, Faults> {
    let mut total: i128 = 0;
    for row in rows {
        if let Cell::Int(number) = column(row.as_slice(), at) {
            total = total.wrapping_add(i128::from(number));
        }
    }
    match i64::try_from(total) {
        Ok(total) => Ok(Cell::Int(total)),
        Err(_) => Err(Faults::OVERFLOW),
    }
}

// The first value of a column than which none is less, or none greater.
fn best<'a>(rows: &[Line<'a>], at: u32, is_least: bool) -> Result<Cell<'a>, Faults> {
    let mut best = Err(Faults::NOROWS);
    for row in rows {
        let cell = column(row.as_slice(), at);
        match best {
            Ok(other) => {
                let order = compare(cell, other);
                if (is_least && order.is_lt()) || (!is_least && order.is_gt()) {
                    best = Ok(cell);
                }
            }
            Err(_) => best = Ok(cell),
        }
    }
    best
}

fn aggregated<'a>(agg: Agg, rows: &[Line<'a>]) -> Result<Cell<'a>, Faults> {
    match agg {
        Agg::Count => Ok(count(rows)),
        Agg::Sum(at) => sum(rows, at),
        Agg::Min(at) => best(rows, at, true),
        Agg::Max(at) => best(rows, at, false),
    }
}

// The key and the aggregates of a group, or their faults.
fn group_row<'a>(
    alloc: Global,
    aggs: &[Agg],
    key: &[Cell<'a>],
    rows: &[Line<'a>],
) -> Result<Result<Line<'a>, Faults>, Memory> {
    let mut row = copied(alloc, key)?;
    let mut faults = Faults::NONE;
    for agg in aggs {
        match aggregated(*agg, rows) {
            Ok(cell) => row.push(cell)?,
            Err(more) => faults = faults.union(more),
        }
    }
    if faults.is_empty() {
        Ok(Ok(row))
    } else {
        Ok(Err(faults))
    }
}

/// One row for each group.
pub fn grouped<'a>(
    alloc: Global,
    ks: &[u32],
    aggs: &[Agg],
    from: Plain<'a>,
) -> Result<Plain<'a>, Memory> {
    let mut rows = Vec::new(alloc);
    let mut faults = from.faults;
    for key in keys(alloc, ks, from.rows.as_slice())? {
        let members = members(alloc, ks, from.rows.as_slice(), key.as_slice())?;
        match group_row(alloc, aggs, key.as_slice(), members.as_slice())? {
            Ok(row) => rows.push(row)?,
            Err(more) => faults = faults.union(more),
        }
    }
    Ok(Plain { rows, faults })
}
