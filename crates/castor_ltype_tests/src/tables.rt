//! The tables of the tests, as they are declared.

use castor_alg::Context;
use castor_val::{Memory, Row, Table, Text, Ty, Value};
use sqlite_items::Items;
use std::alloc::Global;

fn text(alloc: Global, text: &str) -> Result<Value, Memory> {
    Ok(Value::Text(Text::from_str(alloc, text)?))
}

fn order(alloc: Global, id: i64, cust: &str, total: i64) -> Result<Row, Memory> {
    let mut row = Row::new(alloc);
    row.push(Value::Int(id))?;
    row.push(text(alloc, cust)?)?;
    row.push(Value::Int(total))?;
    Ok(row)
}

fn orders(alloc: Global) -> Result<Table, Memory> {
    let mut table = Table::new(alloc);
    table.push(order(alloc, 1, "ann", 30)?)?;
    table.push(order(alloc, 2, "bob", 20)?)?;
    table.push(order(alloc, 3, "ann", 5)?)?;
    Ok(table)
}

fn ints(alloc: Global, rows: &[&[i64]]) -> Result<Table, Memory> {
    let mut table = Table::new(alloc);
    for numbers in rows {
        table.push(int_row(alloc, *numbers)?)?;
    }
    Ok(table)
}

fn int_row(alloc: Global, numbers: &[i64]) -> Result<Row, Memory> {
    let mut row = Row::new(alloc);
    for number in numbers {
        row.push(Value::Int(*number))?;
    }
    Ok(row)
}

fn town(alloc: Global, name: &str, big: bool) -> Result<Row, Memory> {
    let mut row = Row::new(alloc);
    row.push(text(alloc, name)?)?;
    row.push(Value::Bool(big))?;
    Ok(row)
}

fn towns(alloc: Global) -> Result<Table, Memory> {
    let mut table = Table::new(alloc);
    table.push(town(alloc, "Køge", false)?)?;
    table.push(town(alloc, "Oslo", true)?)?;
    table.push(town(alloc, "Rom", true)?)?;
    Ok(table)
}

/// All tables.
pub fn tables(alloc: Global) -> Result<Vec<Table>, Memory> {
    let mut tables = Vec::new(alloc);
    tables.push(orders(alloc)?)?;
    tables.push(Table::new(alloc))?;
    tables.push(ints(alloc, &[&[i64::MIN], &[i64::MAX]])?)?;
    tables.push(ints(alloc, &[&[7], &[9]])?)?;
    tables.push(ints(alloc, &[&[2, 5], &[1, 7], &[2, 4]])?)?;
    tables.push(towns(alloc)?)?;
    Ok(tables)
}

fn types(alloc: Global, types: &[Ty]) -> Result<Items<Ty>, Memory> {
    Ok(Items::from_slice(alloc, types)?)
}

/// The types of the tables and the parameters.
pub fn context(alloc: Global) -> Result<Context, Memory> {
    let all: [&[Ty]; 6] = [
        &[Ty::Int, Ty::Text, Ty::Int],
        &[Ty::Int, Ty::Text, Ty::Int],
        &[Ty::Int],
        &[Ty::Int],
        &[Ty::Int, Ty::Int],
        &[Ty::Text, Ty::Bool],
    ];
    let mut tables = Items::new(alloc);
    for columns in all.as_slice() {
        tables.push(types(alloc, *columns)?)?;
    }
    Ok(Context {
        tables,
        scopes: Items::new(alloc),
        params: types(alloc, &[Ty::Text, Ty::Int])?,
    })
}
