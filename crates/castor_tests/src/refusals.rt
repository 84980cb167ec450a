//! Statuses other than Ok, and the line of each.

use crate::world::{ANSWER, BY_CUSTOMER, ORDERS, World, ended, refused, run};
use castor_cli::{Place, ReadFault, Status};
use std::alloc::Global;
use std::process::Abort;
use std::test::Fail;

const USAGE: &str =
    "castor: usage: answer QUERY SCRIPT, build QUERY SCRIPT IMAGE, ask IMAGE, show QUERY SCRIPT, code IMAGE, sample N\n";

// That words over the orders end with a status and its line.
fn words_end(
    rt: &impl Abort,
    alloc: Global,
    words: &[&str],
    code: u8,
    line: &str,
) -> Result<(), Fail> {
    let world = World::of(BY_CUSTOMER, ORDERS, "ann\n");
    ended(rt, &run(alloc, words, &world)?, &world, code, line);
    Ok(())
}

#[test]
fn words_of_no_form_are_usage(rt: HostRuntime) -> Result<(), Fail> {
    words_end(&rt, rt.alloc(), &["ask"], 2, USAGE)?;
    words_end(
        &rt,
        rt.alloc(),
        &["build", "q1.query", "q1.script"],
        2,
        USAGE,
    )?;
    words_end(&rt, rt.alloc(), &["sample", "05"], 2, USAGE)
}

#[test]
fn other_commands_are_not_built_yet(rt: HostRuntime) -> Result<(), Fail> {
    words_end(
        &rt,
        rt.alloc(),
        &["sample", "100000"],
        12,
        "castor: not yet\n",
    )
}

// That the orders of another table's file are refused.
fn table_ends(
    rt: &impl Abort,
    alloc: Global,
    table: &str,
    code: u8,
    line: &str,
) -> Result<(), Fail> {
    refused(
        rt,
        alloc,
        &World::of(BY_CUSTOMER, table, "ann\n"),
        code,
        line,
    )
}

#[test]
fn a_missing_table_is_read_absent(rt: HostRuntime) -> Result<(), Fail> {
    let world = World::of(BY_CUSTOMER, "", "ann\n");
    let ran = run(rt.alloc(), &ANSWER, &world)?;
    assert_eq!(rt;
        ran.status,
        Status::Read(Place::Table(0), ReadFault::Absent)
    );
    table_ends(&rt, rt.alloc(), "", 3, "castor: read orders.csv: absent\n")
}

#[test]
fn a_header_in_another_order_is_no_table(rt: HostRuntime) -> Result<(), Fail> {
    let table = "id,total,cust\n1,30,ann\n";
    table_ends(&rt, rt.alloc(), table, 7, "castor: table orders: header\n")
}

#[test]
fn a_record_is_named_by_its_number(rt: HostRuntime) -> Result<(), Fail> {
    let table = "id,cust,total\n1,ann,30\n2,bob\n";
    table_ends(
        &rt,
        rt.alloc(),
        table,
        7,
        "castor: table orders: record 2\n",
    )?;
    let table = "id,cust,total\n1,ann,30\n2,bob,x\n";
    let line = "castor: table orders: record 2 field 2\n";
    table_ends(&rt, rt.alloc(), table, 7, line)
}

#[test]
fn another_script_is_not_built_yet(rt: HostRuntime) -> Result<(), Fail> {
    let mut world = World::of(BY_CUSTOMER, ORDERS, "ann\n");
    world.script = "finish; finish;";
    refused(&rt, rt.alloc(), &world, 12, "castor: not yet\n")
}

// Queries over the orders, and the lines of their refusals.
const REFUSED_QUERIES: [(&str, &str); 9] = [
    ("query sales", "castor: query: unknown table\n"),
    (
        "query filter(city = 'x', orders)",
        "castor: query: unknown column\n",
    ),
    (
        "query filter(total = 'x', orders)",
        "castor: query: type mismatch\n",
    ),
    (
        "query filter(cust = $z, orders)",
        "castor: query: unknown parameter\n",
    ),
    (
        "query filter(id = 1, join(total = 3, orders, select([id], orders)))",
        "castor: query: ambiguous\n",
    ),
    ("query scalar(k.0)", "castor: query: unknown scope\n"),
    (
        "query groupby([], [], orders)",
        "castor: query: wrong count\n",
    ),
    (
        "table t (x int, x int); query t",
        "castor: query: duplicate name\n",
    ),
    ("query filter(", "castor: query: syntax at 58\n"),
];

#[test]
fn a_refused_query_is_told_by_its_cause(rt: HostRuntime) -> Result<(), Fail> {
    let alloc = rt.alloc();
    for (query, line) in REFUSED_QUERIES {
        let text = format!(in alloc; "table orders (id int, cust text, total int); {query}")?;
        let world = World::of(text.as_str(), ORDERS, "ann\n");
        refused(&rt, alloc, &world, 5, line)?;
    }
    Ok(())
}
