//! The evaluator against the plain one, over generated relations, tables and environments.

use crate::relations::{numbered, relation};
use crate::tables::{environment, tables};
use castor_alg::{Out, OwnedEnv, Rel};
use castor_eval::eval;
use castor_plain::{Binding, Given, Plain, Random, plain};
use castor_val::{Cell, Memory, Row, Table};
use std::alloc::Global;
use std::test::Fail;

// Whether both evaluators gave the same, and what they gave.
#[derive(Clone, Copy)]
struct Verdict {
    agrees: bool,
    has_rows: bool,
    has_faults: bool,
}

fn is_row(row: &Row, due: &[Cell<'_>]) -> bool {
    if row.len() != due.len() {
        return false;
    }
    for (value, cell) in row.as_slice().iter().zip(due) {
        if value.cell() != *cell {
            return false;
        }
    }
    true
}

fn is_same(out: &Out, due: &Plain<'_>) -> bool {
    if out.faults != due.faults || out.rows.len() != due.rows.len() {
        return false;
    }
    for (row, cells) in out.rows.as_slice().iter().zip(due.rows.as_slice()) {
        if !is_row(row, cells.as_slice()) {
            return false;
        }
    }
    true
}

fn bindings<'a>(alloc: Global, scopes: &'a [(u32, Row)]) -> Result<Vec<Binding<'a>>, Memory> {
    let mut bindings = Vec::new(alloc);
    for (scope, row) in scopes {
        let row = row.cells(alloc)?;
        bindings.push(Binding { scope: *scope, row })?;
    }
    Ok(bindings)
}

fn compared<'a>(
    alloc: Global,
    q: &'a Rel,
    tables: &'a [Table],
    env: &'a OwnedEnv,
) -> Result<Verdict, Memory> {
    let out = eval(alloc, q, tables, env)?;
    let scopes = bindings(alloc, env.scopes.as_slice())?;
    let params = env.params.cells(alloc)?;
    let given = Given {
        alloc,
        tables,
        scopes: scopes.as_slice(),
        params: params.as_slice(),
    };
    let due = plain(q, given)?;
    Ok(Verdict {
        agrees: is_same(&out, &due),
        has_rows: !out.rows.is_empty(),
        has_faults: !out.faults.is_empty(),
    })
}

// A generated case, with the operator of its number at the root.
fn generated(alloc: Global, random: &mut Random, number: u32) -> Result<Verdict, Memory> {
    let tables = tables(alloc, random)?;
    let env = environment(alloc, random)?;
    let q = relation(alloc, random, numbered(number))?;
    compared(alloc, &q, tables.as_slice(), &env)
}

#[test]
fn gives_what_nested_loops_give(rt: HostRuntime) -> Result<(), Fail> {
    let mut random = Random::new(0x00C0_FFEE_0DDB_A115);
    let mut with_rows = 0u32;
    let mut with_faults = 0u32;
    for number in 0..600u32 {
        let verdict = generated(rt.alloc(), &mut random, number)?;
        assert!(rt; verdict.agrees, "case {number}");
        if verdict.has_rows {
            with_rows = with_rows.wrapping_add(1);
        }
        if verdict.has_faults {
            with_faults = with_faults.wrapping_add(1);
        }
    }
    // The cases tell something: many have rows, and some have faults.
    assert!(rt; with_rows >= 200, "{with_rows} with rows");
    assert!(rt; with_faults >= 40, "{with_faults} with faults");
    Ok(())
}
