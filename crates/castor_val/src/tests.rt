//! Worked values: their order, their fields and texts, copies, and cells as keys.

use crate::column::Column;
use crate::fault::{Fault, Faults};
use crate::field::FieldError;
use crate::memory::Memory;
use crate::order::{compare, compare_rows, is_same, is_same_row};
use crate::print::TextBuffer;
use crate::row::Row;
use crate::row_order::{compare_values, compare_with_cells};
use crate::table::Table;
use crate::text::Text;
use crate::value::{Cell, Ty, Value};
use std::alloc::Global;
use std::cmp::Ordering;
use std::collections::{BTreeMap, HashMap};
use std::test::Fail;

// Values in ascending order, some of which differ only after a character of two bytes.
fn ascending() -> [Cell<'static>; 11] {
    [
        Cell::Int(i64::MIN),
        Cell::Int(-1),
        Cell::Int(0),
        Cell::Int(i64::MAX),
        Cell::Bool(false),
        Cell::Bool(true),
        Cell::Text(""),
        Cell::Text("false"),
        Cell::Text("z"),
        Cell::Text("éa"),
        Cell::Text("éb"),
    ]
}

#[test]
fn orders_by_type_and_then_by_value(rt: HostRuntime) {
    let cells = ascending();
    for (i, a) in cells.iter().enumerate() {
        for (j, b) in cells.iter().enumerate() {
            assert_eq!(rt; compare(*a, *b), i.cmp(&j), "{a:?} and {b:?}");
            assert_eq!(rt; is_same(*a, *b), i == j, "{a:?} and {b:?}");
        }
    }
}

#[test]
fn orders_rows_by_their_first_difference(rt: HostRuntime) {
    let short = [Cell::Int(7)];
    let long = [Cell::Int(7), Cell::Bool(false)];
    let later = [Cell::Int(7), Cell::Text("a")];
    assert_eq!(rt; compare_rows(&short, &long), Ordering::Less);
    assert_eq!(rt; compare_rows(&later, &long), Ordering::Greater);
    assert_eq!(rt; compare_rows(&long, &long), Ordering::Equal);
    assert!(rt; is_same_row(&later, &later));
    assert!(rt; !is_same_row(&short, &long));
}

// Fields, and what they are read as or why they are refused.
fn fields() -> [(Ty, &'static str, Result<Cell<'static>, FieldError>); 18] {
    [
        (Ty::Int, "+003", Ok(Cell::Int(3))),
        (Ty::Int, "-0", Ok(Cell::Int(0))),
        (Ty::Int, "00000000000000000000042", Ok(Cell::Int(42))),
        (Ty::Int, "9223372036854775807", Ok(Cell::Int(i64::MAX))),
        (Ty::Int, "-9223372036854775808", Ok(Cell::Int(i64::MIN))),
        (Ty::Int, "9223372036854775808", Err(FieldError::NotOfType)),
        (Ty::Int, "-9223372036854775809", Err(FieldError::NotOfType)),
        (Ty::Int, " 3", Err(FieldError::NotOfType)),
        (Ty::Int, "", Err(FieldError::NotOfType)),
        (Ty::Int, "+", Err(FieldError::NotOfType)),
        (Ty::Int, "1.0", Err(FieldError::NotOfType)),
        (Ty::Bool, "true", Ok(Cell::Bool(true))),
        (Ty::Bool, "false", Ok(Cell::Bool(false))),
        (Ty::Bool, "True", Err(FieldError::NotOfType)),
        (Ty::Bool, "1", Err(FieldError::NotOfType)),
        (Ty::Bool, "", Err(FieldError::NotOfType)),
        (Ty::Text, "", Ok(Cell::Text(""))),
        (Ty::Text, " 3é", Ok(Cell::Text(" 3é"))),
    ]
}

#[test]
fn reads_just_the_fields_of_a_type(rt: HostRuntime) {
    for (ty, field, due) in fields() {
        let cell = Cell::from_field(ty, field);
        assert_eq!(rt; cell, due.ok(), "{field}");
        match Value::from_field(rt.alloc(), ty, field) {
            Ok(value) => assert_eq!(rt; Ok(value.cell()), due, "{field}"),
            Err(why) => assert_eq!(rt; Err(why), due, "{field}"),
        }
    }
}

#[test]
fn reads_texts_of_at_most_65_535_bytes(rt: HostRuntime) -> Result<(), Fail> {
    let mut text = String::new(rt.alloc());
    for _ in 0..65_533 {
        text.push('a')?;
    }
    text.push('é')?;
    assert_eq!(rt; text.len(), 65_535);
    let value = Value::from_field(rt.alloc(), Ty::Text, &text)?;
    assert_eq!(rt; value.cell(), Cell::Text(&text));

    text.push('a')?;
    assert_eq!(rt; Cell::from_field(Ty::Text, &text), None);
    match Value::from_field(rt.alloc(), Ty::Text, &text) {
        Ok(_) => assert!(rt; false, "65,536 bytes"),
        Err(why) => assert_eq!(rt; why, FieldError::TooLong),
    }
    match Value::from_field(rt.alloc(), Ty::Int, &text) {
        Ok(_) => assert!(rt; false, "no digits"),
        Err(why) => assert_eq!(rt; why, FieldError::NotOfType),
    }
    Ok(())
}

#[test]
fn prints_each_kind_of_value(rt: HostRuntime) {
    let printed = [
        (Cell::Int(0), "0"),
        (Cell::Int(-12), "-12"),
        (Cell::Int(i64::MIN), "-9223372036854775808"),
        (Cell::Int(i64::MAX), "9223372036854775807"),
        (Cell::Bool(true), "true"),
        (Cell::Bool(false), "false"),
        (Cell::Text(""), ""),
        (Cell::Text("a,\"é"), "a,\"é"),
    ];
    for (cell, text) in printed {
        assert_eq!(rt; cell.text(&mut TextBuffer::new()), text);
    }
}

fn sample_row(alloc: Global) -> Result<Row, Memory> {
    let mut row = Row::new(alloc);
    row.push(Value::Int(-5))?;
    row.push(Value::Bool(true))?;
    row.push(Value::Text(Text::from_str(alloc, "é")?))?;
    Ok(row)
}

#[test]
fn copies_rows_and_tables(rt: HostRuntime) -> Result<(), Fail> {
    let due = [Cell::Int(-5), Cell::Bool(true), Cell::Text("é")];
    let row = sample_row(rt.alloc())?;
    let mut twice = Row::from_cells(rt.alloc(), due.as_slice())?;
    twice.append(row.copy(rt.alloc())?)?;
    assert_eq!(rt; twice.len(), 6);
    let mut table = Table::new(rt.alloc());
    table.push(twice)?;
    table.append(table_of(rt.alloc(), row)?)?;
    let copy = table.copy(rt.alloc())?;
    assert_eq!(rt; copy.len(), 2);
    for row in copy.as_slice() {
        let cells = row.cells(rt.alloc())?;
        for cell in cells.as_slice() {
            assert!(rt; due.contains(cell), "{cell:?}");
        }
    }
    Ok(())
}

fn table_of(alloc: Global, row: Row) -> Result<Table, Memory> {
    let mut table = Table::new(alloc);
    table.push(row)?;
    Ok(table)
}

#[test]
fn copies_columns(rt: HostRuntime) -> Result<(), Fail> {
    let name = Text::new(String::from_str(rt.alloc(), "city")?);
    let ty = Ty::Text;
    let Column { name, ty } = Column { name, ty }.copy(rt.alloc())?;
    assert_eq!(rt; name.as_str(), "city");
    assert_eq!(rt; ty, Value::Text(name).ty());
    Ok(())
}

#[test]
fn keys_maps_by_cells(rt: HostRuntime) -> Result<(), Fail> {
    let (first, second) = "éb,éb".split_once(',').ok_or("a comma")?;
    let cells = [Cell::Text(first), Cell::Int(1), Cell::Text(second)];
    let mut counts = HashMap::new(rt.alloc());
    for cell in cells {
        let count = counts.entry(cell)?.or_insert(0u32);
        *count = count.saturating_add(1);
    }
    assert_eq!(rt; counts.len(), 2);
    assert_eq!(rt; counts.get(&cells[0]).copied(), Some(2));
    assert_eq!(rt; counts.get(&cells[1]).copied(), Some(1));
    Ok(())
}

#[test]
fn sorts_cells_and_keys_maps_by_rows(rt: HostRuntime) -> Result<(), Fail> {
    let mut sorted = Vec::from_slice(rt.alloc(), ascending().as_slice())?;
    sorted.reverse();
    sorted.sort()?;
    assert_eq!(rt; sorted.as_slice(), ascending().as_slice());

    let mut groups = BTreeMap::new(rt.alloc());
    for cell in [Cell::Bool(true), Cell::Text("a"), Cell::Bool(true)] {
        let key = vec![in rt.alloc(); Cell::Int(1), cell]?;
        let count = groups.entry(key)?.or_insert(0u32);
        *count = count.saturating_add(1);
    }
    assert_eq!(rt; groups.len(), 2);
    let key = [Cell::Int(1), Cell::Bool(true)];
    assert_eq!(rt; groups.get(key.as_slice()).copied(), Some(2));
    Ok(())
}

#[test]
fn unites_faults(rt: HostRuntime) {
    let both = Faults::DIVISION.union(Faults::from(Fault::NoRows));
    assert!(rt; both.contains(Fault::Division) && both.contains(Fault::NoRows));
    assert!(rt; !both.contains(Fault::Overflow));
    assert!(rt; Faults::NONE.is_empty() && !Faults::OVERFLOW.is_empty());
    assert_eq!(rt; both.union(Faults::NONE), both);
}

#[test]
fn orders_rows_that_own_their_values(rt: HostRuntime) {
    let (short, long) = ([Value::Int(1)], [Value::Int(1), Value::Bool(false)]);
    assert_eq!(rt; compare_values(&short, &long), Ordering::Less);
    assert_eq!(rt; compare_values(&long, &long), Ordering::Equal);
    assert_eq!(rt;
        compare_with_cells(&long, &[Cell::Int(0)]),
        Ordering::Greater
    );
    assert_eq!(rt;
        compare_with_cells(&short, &[Cell::Int(1)]),
        Ordering::Equal
    );
}
