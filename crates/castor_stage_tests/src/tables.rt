//! The tables of the tests, as they are declared.

use castor_val::{Memory, Row, Table, Text, Value};
use std::alloc::Global;

fn row(alloc: Global, numbers: &[i64]) -> Result<Row, Memory> {
    let mut row = Row::new(alloc);
    for number in numbers {
        row.push(Value::Int(*number))?;
    }
    Ok(row)
}

fn table(alloc: Global, rows: &[&[i64]]) -> Result<Table, Memory> {
    let mut table = Table::new(alloc);
    for numbers in rows {
        table.push(row(alloc, *numbers)?)?;
    }
    Ok(table)
}

fn name(alloc: Global, text: &str) -> Result<Row, Memory> {
    let mut row = Row::new(alloc);
    row.push(Value::Text(Text::from_str(alloc, text)?))?;
    Ok(row)
}

fn names(alloc: Global, texts: &[&str]) -> Result<Table, Memory> {
    let mut table = Table::new(alloc);
    for text in texts {
        table.push(name(alloc, *text)?)?;
    }
    Ok(table)
}

/// All tables.
pub fn tables(alloc: Global) -> Result<Vec<Table>, Memory> {
    let numbers: [&[&[i64]]; 5] = [
        &[&[3], &[1], &[3]],
        &[],
        &[&[0], &[2]],
        &[&[3, 1], &[1, 2], &[3, 1], &[1, 1]],
        &[&[2, 5], &[1, 7], &[2, 4]],
    ];
    let mut tables = Vec::new(alloc);
    for rows in numbers.as_slice() {
        tables.push(table(alloc, *rows)?)?;
    }
    tables.push(names(alloc, &["bob", "ann", "bob"])?)?;
    Ok(tables)
}
