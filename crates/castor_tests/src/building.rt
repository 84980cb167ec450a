//! Queries of which a database is built, and why none is.

use crate::world::{ORDERS, World, refused, replies};
use std::alloc::Global;
use std::process::Abort;
use std::test::Fail;

const NUMBERS: &str = "table orders (x int); ";

const COLUMNS: &str = "table orders (id int, cust text, total int); ";

// What is due of a query: the replies, or the line of the refusal with its status.
#[derive(Clone, Copy)]
enum Due<'a> {
    Replies(&'a str),
    Refused(u8, &'a str),
}

fn gives(
    rt: &impl Abort,
    alloc: Global,
    query: &str,
    table: &str,
    input: &str,
    due: Due<'_>,
) -> Result<(), Fail> {
    let world = World::of(query, table, input);
    match due {
        Due::Replies(text) => replies(rt, alloc, &world, text),
        Due::Refused(code, line) => refused(rt, alloc, &world, code, line),
    }
}

// What is due of a query over a table of numbers.
fn of_numbers(
    rt: &impl Abort,
    alloc: Global,
    query: &str,
    numbers: &str,
    input: &str,
    due: Due<'_>,
) -> Result<(), Fail> {
    let query = format!(in alloc; "{NUMBERS}{query}")?;
    let table = format!(in alloc; "x\n{numbers}")?;
    gives(rt, alloc, query.as_str(), table.as_str(), input, due)
}

// What is due of a query over the orders.
fn of_orders(
    rt: &impl Abort,
    alloc: Global,
    query: &str,
    input: &str,
    due: Due<'_>,
) -> Result<(), Fail> {
    let query = format!(in alloc; "{COLUMNS}{query}")?;
    gives(rt, alloc, query.as_str(), ORDERS, input, due)
}

#[test]
fn the_least_and_the_greatest_int_are_stored(rt: HostRuntime) -> Result<(), Fail> {
    let numbers = "-9223372036854775808\n9223372036854775807\n";
    let due = Due::Replies("rows 2\nx\n-9223372036854775808\n9223372036854775807\n");
    of_numbers(&rt, rt.alloc(), "query orders", numbers, "\n", due)
}

#[test]
fn a_table_without_records_has_no_rows(rt: HostRuntime) -> Result<(), Fail> {
    let query = "param n int; query filter(x = $n, orders)";
    let due = Due::Replies("rows 0\nx\n");
    of_numbers(&rt, rt.alloc(), query, "", "7\n", due)
}

#[test]
fn only_the_final_sum_may_overflow(rt: HostRuntime) -> Result<(), Fail> {
    let query = "param p int; query groupby([], [sum(x) as s], filter(x >= $p, orders))";
    let numbers = "9223372036854775807\n1\n-1\n";
    let due = Due::Replies("rows 1\ns\n9223372036854775807\nfault overflow\n");
    of_numbers(&rt, rt.alloc(), query, numbers, "-5\n0\n", due)
}

#[test]
fn stored_values_that_fault_refuse_the_build(rt: HostRuntime) -> Result<(), Fail> {
    let query = "query groupby([], [sum(x) as s], orders)";
    let numbers = "9223372036854775807\n1\n";
    let due = Due::Refused(9, "castor: build: faults overflow\n");
    of_numbers(&rt, rt.alloc(), query, numbers, "\n", due)
}

#[test]
fn a_question_may_fault_where_others_do_not(rt: HostRuntime) -> Result<(), Fail> {
    let query = "param p int; query select([10 / $p as x], orders)";
    let due = Due::Replies("fault division\nrows 3\nx\n2\n2\n2\n");
    of_orders(&rt, rt.alloc(), query, "0\n5\n", due)
}

#[test]
fn the_least_of_no_rows_is_a_fault_unless_there_are_keys(rt: HostRuntime) -> Result<(), Fail> {
    let query = "param c text; query groupby([], [min(total) as m], filter(cust = $c, orders))";
    let due = Due::Replies("fault norows\nrows 1\nm\n5\n");
    of_orders(&rt, rt.alloc(), query, "zed\nann\n", due)?;
    let query = "param c text; query groupby([cust], [min(total) as m], filter(cust = $c, orders))";
    let due = Due::Replies("rows 0\ncust,m\n");
    of_orders(&rt, rt.alloc(), query, "zed\n", due)
}

#[test]
fn a_scope_is_bound_to_each_row(rt: HostRuntime) -> Result<(), Fail> {
    let query = "param n int; query depjoin(filter(id <= $n, orders) as o, \
                 select([o.id as first, id as second], filter(cust = o.cust and id > o.id, orders)))";
    let due = Due::Replies("rows 1\nfirst,second\n1,3\nrows 0\nfirst,second\n");
    of_orders(&rt, rt.alloc(), query, "1\n0\n", due)
}

#[test]
fn an_order_at_the_root_is_kept(rt: HostRuntime) -> Result<(), Fail> {
    let query = "query orderby([total desc], orders)";
    let due = Due::Replies("rows 3\nid,cust,total\n1,ann,30\n2,bob,20\n3,ann,5\n");
    of_orders(&rt, rt.alloc(), query, "\n", due)
}

#[test]
fn a_join_that_needs_a_parameter_is_refused(rt: HostRuntime) -> Result<(), Fail> {
    let query = "param t int; query join(total > $t and cust = name, orders, \
                 select([id as number, cust as name], orders))";
    let due = Due::Refused(9, "castor: build: join at run\n");
    of_orders(&rt, rt.alloc(), query, "1\n", due)
}

#[test]
fn a_stored_value_that_reads_a_run_scope_is_refused(rt: HostRuntime) -> Result<(), Fail> {
    let query = "param n int; query depjoin(filter(id = $n, orders) as k, \
                 list(filter(cust = k.cust, orders) as m, scalar(m.id)))";
    let due = Due::Refused(9, "castor: build: run scope at build\n");
    of_orders(&rt, rt.alloc(), query, "1\n", due)
}

// What is due of a query of so many nested filters.
fn of_nested(rt: &impl Abort, alloc: Global, filters: u32, due: Due<'_>) -> Result<(), Fail> {
    let mut query = String::new(alloc);
    query.push_str("query ")?;
    for _ in 0..filters {
        query.push_str("filter(true, ")?;
    }
    query.push_str("orders")?;
    for _ in 0..filters {
        query.push_str(")")?;
    }
    of_numbers(rt, alloc, query.as_str(), "7\n", "\n", due)
}

#[test]
fn what_a_list_of_its_rows_makes_too_deep_is_refused(rt: HostRuntime) -> Result<(), Fail> {
    let due = Due::Replies("rows 1\nx\n7\n");
    of_nested(&rt, rt.alloc(), 62, due)?;
    let due = Due::Refused(6, "castor: script: step 0: too large\n");
    of_nested(&rt, rt.alloc(), 63, due)?;
    let due = Due::Refused(5, "castor: query: too large\n");
    of_nested(&rt, rt.alloc(), 64, due)
}
