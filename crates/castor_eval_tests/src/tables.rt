//! Generated tables, whose few values often repeat.

use castor_alg::OwnedEnv;
use castor_plain::Random;
use castor_val::{Cell, Memory, Row, Table, Ty};
use std::alloc::Global;

/// A small int, or one of the two ends of the ints.
pub fn int(random: &mut Random) -> i64 {
    match random.below(8) {
        0 => 0,
        1 => 0,
        2 => 1,
        3 => 1,
        4 => 2,
        5 => -1,
        6 => i64::MAX,
        _ => i64::MIN,
    }
}

/// A value of a type.
pub fn cell(random: &mut Random, ty: Ty) -> Cell<'static> {
    match ty {
        Ty::Int => Cell::Int(int(random)),
        Ty::Bool => Cell::Bool(random.below(2) == 0),
        Ty::Text => match random.below(3) {
            0 => Cell::Text(""),
            1 => Cell::Text("a"),
            _ => Cell::Text("é"),
        },
    }
}

fn row(alloc: Global, random: &mut Random, types: &[Ty]) -> Result<Row, Memory> {
    let mut row = Row::new(alloc);
    for ty in types {
        row.push(cell(random, *ty).to_value(alloc)?)?;
    }
    Ok(row)
}

// A table of at most four rows.
fn table(alloc: Global, random: &mut Random, types: &[Ty]) -> Result<Table, Memory> {
    let mut table = Table::new(alloc);
    for _ in 0..random.below(5) {
        table.push(row(alloc, random, types)?)?;
    }
    Ok(table)
}

/// Three tables: of two ints, of a text and an int, and of one bool.
pub fn tables(alloc: Global, random: &mut Random) -> Result<Vec<Table>, Memory> {
    let mut tables = Vec::new(alloc);
    tables.push(table(alloc, random, &[Ty::Int, Ty::Int])?)?;
    tables.push(table(alloc, random, &[Ty::Text, Ty::Int])?)?;
    tables.push(table(alloc, random, &[Ty::Bool])?)?;
    Ok(tables)
}

/// Two bindings of scope 0, and the parameters, an int and a text.
pub fn environment(alloc: Global, random: &mut Random) -> Result<OwnedEnv, Memory> {
    let mut scopes = Vec::new(alloc);
    scopes.push((0, row(alloc, random, &[Ty::Text])?))?;
    scopes.push((0, row(alloc, random, &[Ty::Int, Ty::Int])?))?;
    Ok(OwnedEnv {
        scopes,
        params: row(alloc, random, &[Ty::Int, Ty::Text])?,
    })
}
