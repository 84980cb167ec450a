//! The text of a plain evaluator's replies.

use castor_plain::Plain;
use castor_val::{Cell, Column, Faults};
use std::alloc::{AllocError, Global};

/// Adds a record of two ints.
pub fn push_record(alloc: Global, text: &mut String, a: i64, b: i64) -> Result<(), AllocError> {
    let record = format!(in alloc; "{a},{b}\n")?;
    text.push_str(record.as_str())
}

fn push_kind(text: &mut String, comma: &mut &str, has: bool, kind: &str) -> Result<(), AllocError> {
    if has {
        text.push_str(comma)?;
        text.push_str(kind)?;
        *comma = ",";
    }
    Ok(())
}

fn push_faults(text: &mut String, faults: Faults) -> Result<(), AllocError> {
    let mut comma = "fault ";
    push_kind(text, &mut comma, faults.division, "division")?;
    push_kind(text, &mut comma, faults.overflow, "overflow")?;
    push_kind(text, &mut comma, faults.norows, "norows")?;
    text.push_str("\n")
}

fn push_names(text: &mut String, columns: &[Column]) -> Result<(), AllocError> {
    let mut comma = "";
    for column in columns {
        text.push_str(comma)?;
        text.push_str(column.name.as_str())?;
        comma = ",";
    }
    text.push_str("\n")
}

// The record of a row of ints, and of no other row.
fn push_row(alloc: Global, text: &mut String, cells: &[Cell<'_>]) -> Result<(), AllocError> {
    match cells {
        [Cell::Int(a), Cell::Int(b)] => push_record(alloc, text, *a, *b),
        _ => text.push_str("no row of two ints\n"),
    }
}

/// Adds the reply of these rows or faults, whose columns are two ints.
pub fn push_reply(
    alloc: Global,
    text: &mut String,
    columns: &[Column],
    plain: &Plain<'_>,
) -> Result<(), AllocError> {
    if !plain.faults.is_empty() {
        return push_faults(text, plain.faults);
    }
    let count = plain.rows.len();
    let head = format!(in alloc; "rows {count}\n")?;
    text.push_str(head.as_str())?;
    push_names(text, columns)?;
    for row in plain.rows.as_slice() {
        push_row(alloc, text, row.as_slice())?;
    }
    Ok(())
}
