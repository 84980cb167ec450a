//! Worked relations: each operator over few rows, with repeated rows and rows that fault.

use castor_alg::{Agg, Bound, Expr, Key, Op, Out, OwnedEnv, Rel};
use castor_eval::eval;
use castor_val::{Fault, Row, Table, Text, TextBuffer, Value};
use sqlite_items::{Boxed, Items};
use std::alloc::Global;
use std::test::Fail;

// A row of ints.
fn ints(alloc: Global, numbers: &[i64]) -> Result<Row, Fail> {
    let mut row = Row::new(alloc);
    for number in numbers {
        row.push(Value::Int(*number))?;
    }
    Ok(row)
}

// A row of one text.
fn text(alloc: Global, text: &str) -> Result<Row, Fail> {
    let text = Text::from_str(alloc, text)?;
    let mut row = Row::new(alloc);
    row.push(Value::Text(text))?;
    Ok(row)
}

// Tables of rows of ints.
fn tables(alloc: Global, rows: &[&[&[i64]]]) -> Result<Vec<Table>, Fail> {
    let mut tables = Vec::new(alloc);
    for each in rows {
        let mut table = Table::new(alloc);
        for numbers in *each {
            table.push(ints(alloc, numbers)?)?;
        }
        tables.push(table)?;
    }
    Ok(tables)
}

// One table of rows of one text and one int.
fn named(alloc: Global, rows: &[(&str, i64)]) -> Result<Vec<Table>, Fail> {
    let mut table = Table::new(alloc);
    for (name, number) in rows {
        let mut row = Row::new(alloc);
        row.push(Value::Text(Text::from_str(alloc, name)?))?;
        row.push(Value::Int(*number))?;
        table.push(row)?;
    }
    let mut tables = Vec::new(alloc);
    tables.push(table)?;
    Ok(tables)
}

// The rows, each after a space, and the first letters of the faults, each after a bar.
fn shown(alloc: Global, out: &Out) -> Result<String, Fail> {
    let mut text = String::new(alloc);
    for row in out.rows.as_slice() {
        text.push(' ')?;
        for (at, value) in row.as_slice().iter().enumerate() {
            if at > 0 {
                text.push(',')?;
            }
            text.push_str(value.cell().text(&mut TextBuffer::new()))?;
        }
    }
    for (fault, letter) in [
        (Fault::Division, " |d"),
        (Fault::Overflow, " |o"),
        (Fault::NoRows, " |n"),
    ] {
        if out.faults.contains(fault) {
            text.push_str(letter)?;
        }
    }
    Ok(text)
}

// Whether a relation gives these rows and faults under an environment.
fn gives_under(
    alloc: Global,
    q: &Rel,
    tables: &[Table],
    env: &OwnedEnv,
    due: &str,
) -> Result<bool, Fail> {
    let out = eval(alloc, q, tables, env)?;
    Ok(shown(alloc, &out)?.as_str() == due)
}

// Whether a relation gives these rows and faults under parameters.
fn gives_with(
    alloc: Global,
    q: Rel,
    tables: &[Table],
    params: Row,
    due: &str,
) -> Result<bool, Fail> {
    let env = OwnedEnv {
        scopes: Vec::new(alloc),
        params,
    };
    gives_under(alloc, &q, tables, &env, due)
}

// Whether a relation that reads no environment gives these rows and faults.
fn gives(alloc: Global, q: Rel, tables: &[Table], due: &str) -> Result<bool, Fail> {
    gives_with(alloc, q, tables, Row::new(alloc), due)
}

fn int(number: i64) -> Expr {
    Expr::Lit(Value::Int(number))
}

fn bin(alloc: Global, op: Op, a: Expr, b: Expr) -> Result<Expr, Fail> {
    let a = Boxed::new(alloc, a)?;
    let b = Boxed::new(alloc, b)?;
    Ok(Expr::Bin(op, a, b))
}

// Whether the share of a number by a column, or by the gap of two columns, is above another.
fn share_above(alloc: Global, number: i64, by: Expr, least: i64) -> Result<Expr, Fail> {
    let share = bin(alloc, Op::Div, int(number), by)?;
    bin(alloc, Op::Gt, share, int(least))
}

fn table(alloc: Global, n: u32) -> Result<Boxed<Rel>, Fail> {
    Ok(Boxed::new(alloc, Rel::Table(n))?)
}

fn all(alloc: Global, ns: &[u32]) -> Result<Items<Rel>, Fail> {
    let mut rs = Items::new(alloc);
    for n in ns {
        rs.push(Rel::Table(*n))?;
    }
    Ok(rs)
}

fn one(alloc: Global, e: Expr) -> Result<Items<Expr>, Fail> {
    let mut es = Items::new(alloc);
    es.push(e)?;
    Ok(es)
}

// The first column of a scope.
fn scope(alloc: Global, k: u32) -> Result<Boxed<Rel>, Fail> {
    Ok(Boxed::new(alloc, Rel::Scalar(Expr::Scope(k, 0)))?)
}

// The rows of a table whose share of 10 is above 3.
fn shares(alloc: Global, n: u32) -> Result<Rel, Fail> {
    let condition = share_above(alloc, 10, Expr::Col(0), 3)?;
    Ok(Rel::Filter(condition, table(alloc, n)?))
}

#[test]
fn gives_tables_and_scalars(rt: HostRuntime) -> Result<(), Fail> {
    let alloc = rt.alloc();
    let tables = tables(alloc, &[&[&[1, 2], &[1, 2]]])?;
    assert!(rt; gives(alloc, Rel::Table(0), &tables, " 1,2 1,2")?);
    assert!(rt; gives(alloc, Rel::Table(1), &tables, "")?);
    assert!(rt; gives(alloc, Rel::Scalar(int(7)), &tables, " 7")?);
    let faulty = bin(alloc, Op::Rem, int(7), int(0))?;
    assert!(rt; gives(alloc, Rel::Scalar(faulty), &tables, " |d")?);
    Ok(())
}

#[test]
fn drops_rows_on_which_a_condition_faults(rt: HostRuntime) -> Result<(), Fail> {
    let alloc = rt.alloc();
    let tables = tables(alloc, &[&[&[0], &[2], &[5], &[2]]])?;
    assert!(rt; gives(alloc, shares(alloc, 0)?, &tables, " 2 2 |d")?);
    // What the source met stays, though the filter above it drops every row.
    let source = Boxed::new(alloc, shares(alloc, 0)?)?;
    let none = Rel::Filter(Expr::Lit(Value::Bool(false)), source);
    assert!(rt; gives(alloc, none, &tables, " |d")?);
    Ok(())
}

#[test]
fn drops_rows_on_which_a_projection_faults(rt: HostRuntime) -> Result<(), Fail> {
    let alloc = rt.alloc();
    let tables = tables(alloc, &[&[&[0], &[2], &[5], &[2]]])?;
    let mut es = one(alloc, bin(alloc, Op::Div, int(10), Expr::Col(0))?)?;
    es.push(Expr::Col(0))?;
    let q = Rel::Select(es, table(alloc, 0)?);
    assert!(rt; gives(alloc, q, &tables, " 5,2 2,5 5,2 |d")?);
    Ok(())
}

#[test]
fn combines_rows_with_the_last_operand_fastest(rt: HostRuntime) -> Result<(), Fail> {
    let alloc = rt.alloc();
    let tables = tables(alloc, &[&[&[1], &[2]], &[&[7, 8]], &[&[3], &[1]], &[]])?;
    let q = Rel::Cross(all(alloc, &[0, 1, 2])?);
    assert!(rt; gives(alloc, q, &tables, " 1,7,8,3 1,7,8,1 2,7,8,3 2,7,8,1")?);
    assert!(rt; gives(alloc, Rel::Cross(all(alloc, &[0, 3])?), &tables, "")?);
    assert!(rt; gives(alloc, Rel::Cross(all(alloc, &[3, 0])?), &tables, "")?);
    assert!(rt; gives(alloc, Rel::Cross(all(alloc, &[])?), &tables, " ")?);
    assert!(rt;
        gives(
            alloc,
            Rel::Concat(all(alloc, &[2, 3, 0])?),
            &tables,
            " 3 1 1 2"
        )?
    );
    Ok(())
}

#[test]
fn joins_pairs_and_keeps_the_faults_of_all(rt: HostRuntime) -> Result<(), Fail> {
    let alloc = rt.alloc();
    let tables = tables(alloc, &[&[&[1], &[2]], &[&[3], &[1]]])?;
    // The pair of 1 and 1 divides by zero.
    let gap = bin(alloc, Op::Sub, Expr::Col(1), Expr::Col(0))?;
    let condition = share_above(alloc, 2, gap, 0)?;
    let q = Rel::Join(condition, table(alloc, 0)?, table(alloc, 1)?);
    assert!(rt; gives(alloc, q, &tables, " 1,3 2,3 |d")?);
    Ok(())
}

#[test]
fn binds_the_innermost_scope_of_a_number(rt: HostRuntime) -> Result<(), Fail> {
    let alloc = rt.alloc();
    let tables = tables(alloc, &[&[&[1], &[2]], &[&[0], &[5]]])?;
    let inner = Rel::DepJoin(0, table(alloc, 1)?, scope(alloc, 0)?);
    let body = Boxed::new(alloc, inner)?;
    let q = Rel::DepJoin(0, table(alloc, 0)?, body);
    assert!(rt; gives(alloc, q, &tables, " 0 5 0 5")?);
    Ok(())
}

#[test]
fn keeps_the_faults_of_a_source(rt: HostRuntime) -> Result<(), Fail> {
    let alloc = rt.alloc();
    let tables = tables(alloc, &[&[&[0], &[2]]])?;
    let source = Boxed::new(alloc, shares(alloc, 0)?)?;
    let q = Rel::List(3, source, scope(alloc, 3)?);
    assert!(rt; gives(alloc, q, &tables, " 2 |d")?);
    Ok(())
}

#[test]
fn reads_the_environment(rt: HostRuntime) -> Result<(), Fail> {
    let alloc = rt.alloc();
    let mut env = OwnedEnv {
        scopes: Vec::new(alloc),
        params: ints(alloc, &[9])?,
    };
    env.scopes.push((4, ints(alloc, &[1])?))?;
    env.scopes.push((4, ints(alloc, &[2])?))?;
    let innermost = Rel::Scalar(Expr::Scope(4, 0));
    assert!(rt; gives_under(alloc, &innermost, &[], &env, " 2")?);
    let unbound = Rel::Scalar(Expr::Scope(5, 0));
    assert!(rt; gives_under(alloc, &unbound, &[], &env, " false")?);
    let param = Rel::Scalar(Expr::Param(0));
    assert!(rt; gives_under(alloc, &param, &[], &env, " 9")?);
    Ok(())
}

fn grouped_rows(alloc: Global, ks: &[u32], aggs: &[Agg], r: Boxed<Rel>) -> Result<Rel, Fail> {
    let ks = Items::from_slice(alloc, ks)?;
    let aggs = Items::from_slice(alloc, aggs)?;
    Ok(Rel::Group(ks, aggs, r))
}

// The first table, grouped.
fn grouped(alloc: Global, ks: &[u32], aggs: &[Agg]) -> Result<Rel, Fail> {
    grouped_rows(alloc, ks, aggs, table(alloc, 0)?)
}

// The rows of the first table whose first value stands to the first parameter as the operator says, grouped.
fn grouped_where(alloc: Global, ks: &[u32], aggs: &[Agg], op: Op) -> Result<Rel, Fail> {
    let condition = bin(alloc, op, Expr::Col(0), Expr::Param(0))?;
    let rows = Rel::Filter(condition, table(alloc, 0)?);
    grouped_rows(alloc, ks, aggs, Boxed::new(alloc, rows)?)
}

#[test]
fn groups_by_first_appearance(rt: HostRuntime) -> Result<(), Fail> {
    let alloc = rt.alloc();
    let tables = named(alloc, &[("b", 4), ("a", 1), ("b", -3), ("a", 1)])?;
    let aggs = [Agg::Count, Agg::Sum(1), Agg::Min(1), Agg::Max(1)];
    let q = grouped(alloc, &[0], &aggs)?;
    assert!(rt; gives(alloc, q, &tables, " b,2,1,-3,4 a,2,2,1,1")?);
    let q = grouped(alloc, &[], &[Agg::Min(0), Agg::Max(0)])?;
    assert!(rt; gives(alloc, q, &tables, " a,b")?);
    Ok(())
}

#[test]
fn faults_on_the_whole_sum_alone(rt: HostRuntime) -> Result<(), Fail> {
    let alloc = rt.alloc();
    let rows: [&[i64]; 5] = [&[7, i64::MAX], &[8, i64::MAX], &[7, 1], &[7, -1], &[8, 1]];
    let tables = tables(alloc, &[&rows])?;
    let q = grouped(alloc, &[0], &[Agg::Sum(1)])?;
    assert!(rt; gives(alloc, q, &tables, " 7,9223372036854775807 |o")?);
    Ok(())
}

// Whether the sum of the ints that are at least this one gives these rows and faults.
fn sums_from(alloc: Global, tables: &[Table], least: i64, due: &str) -> Result<bool, Fail> {
    let params = ints(alloc, &[least])?;
    let q = grouped_where(alloc, &[], &[Agg::Sum(0)], Op::Ge)?;
    gives_with(alloc, q, tables, params, due)
}

#[test]
fn sums_the_rows_that_a_parameter_lets_in(rt: HostRuntime) -> Result<(), Fail> {
    let alloc = rt.alloc();
    let tables = tables(alloc, &[&[&[i64::MAX], &[1], &[-1]]])?;
    let whole = " 9223372036854775807";
    assert!(rt; sums_from(alloc, &tables, -5, whole)?);
    assert!(rt; sums_from(alloc, &tables, 0, " |o")?);
    Ok(())
}

// Whether the least number beside this name, by the keys, gives these rows and faults.
fn least_beside(
    alloc: Global,
    tables: &[Table],
    ks: &[u32],
    name: &str,
    due: &str,
) -> Result<bool, Fail> {
    let params = text(alloc, name)?;
    let q = grouped_where(alloc, ks, &[Agg::Min(1)], Op::Eq)?;
    gives_with(alloc, q, tables, params, due)
}

#[test]
fn finds_no_least_of_no_rows(rt: HostRuntime) -> Result<(), Fail> {
    let alloc = rt.alloc();
    let tables = named(alloc, &[("ann", 30), ("bob", 20), ("ann", 5)])?;
    assert!(rt; least_beside(alloc, &tables, &[], "zed", " |n")?);
    assert!(rt; least_beside(alloc, &tables, &[], "ann", " 5")?);
    assert!(rt; least_beside(alloc, &tables, &[0], "zed", "")?);
    Ok(())
}

#[test]
fn aggregates_no_rows(rt: HostRuntime) -> Result<(), Fail> {
    let alloc = rt.alloc();
    let tables = tables(alloc, &[&[]])?;
    let q = grouped(alloc, &[], &[Agg::Count, Agg::Sum(0)])?;
    assert!(rt; gives(alloc, q, &tables, " 0,0")?);
    let q = grouped(alloc, &[], &[Agg::Count, Agg::Min(0)])?;
    assert!(rt; gives(alloc, q, &tables, " |n")?);
    let q = grouped(alloc, &[0], &[Agg::Min(0)])?;
    assert!(rt; gives(alloc, q, &tables, "")?);
    Ok(())
}

fn ordered(alloc: Global, keys: &[Key]) -> Result<Rel, Fail> {
    let keys = Items::from_slice(alloc, keys)?;
    Ok(Rel::Order(keys, table(alloc, 0)?))
}

#[test]
fn sorts_stably(rt: HostRuntime) -> Result<(), Fail> {
    let alloc = rt.alloc();
    let tables = named(alloc, &[("b", 1), ("a", 2), ("c", 1), ("b", 1), ("d", 2)])?;
    let up = Key {
        col: 1,
        desc: false,
    };
    let down = Key { col: 1, desc: true };
    let name = Key { col: 0, desc: true };
    assert!(rt;
        gives(
            alloc,
            ordered(alloc, &[up])?,
            &tables,
            " b,1 c,1 b,1 a,2 d,2"
        )?
    );
    assert!(rt;
        gives(
            alloc,
            ordered(alloc, &[down])?,
            &tables,
            " a,2 d,2 b,1 c,1 b,1"
        )?
    );
    let q = ordered(alloc, &[up, name])?;
    assert!(rt; gives(alloc, q, &tables, " c,1 b,1 b,1 d,2 a,2")?);
    Ok(())
}

#[test]
fn keeps_the_first_of_equal_rows(rt: HostRuntime) -> Result<(), Fail> {
    let alloc = rt.alloc();
    let tables = named(alloc, &[("b", 1), ("a", 2), ("c", 1), ("b", 1), ("a", 1)])?;
    let q = Rel::Dedup(table(alloc, 0)?);
    assert!(rt; gives(alloc, q, &tables, " b,1 a,2 c,1 a,1")?);
    Ok(())
}

fn looked_up(alloc: Global, key: Expr) -> Result<Rel, Fail> {
    let key = one(alloc, key)?;
    let source = table(alloc, 0)?;
    Ok(Rel::Hash(0, source, scope(alloc, 0)?, key))
}

#[test]
fn looks_up_a_row_once(rt: HostRuntime) -> Result<(), Fail> {
    let alloc = rt.alloc();
    let tables = tables(alloc, &[&[&[3], &[1], &[3], &[2]]])?;
    assert!(rt; gives(alloc, looked_up(alloc, int(3))?, &tables, " 3")?);
    assert!(rt; gives(alloc, looked_up(alloc, int(4))?, &tables, "")?);
    let faulty = bin(alloc, Op::Div, int(1), int(0))?;
    assert!(rt; gives(alloc, looked_up(alloc, faulty)?, &tables, " |d")?);
    Ok(())
}

fn within(alloc: Global, lo: Bound, hi: Bound) -> Result<Rel, Fail> {
    let source = table(alloc, 0)?;
    Ok(Rel::Ord(0, source, scope(alloc, 0)?, lo, hi))
}

#[test]
fn looks_up_ranges_of_distinct_rows(rt: HostRuntime) -> Result<(), Fail> {
    let alloc = rt.alloc();
    let tables = tables(alloc, &[&[&[3], &[1], &[3], &[2], &[5]]])?;
    let q = within(alloc, Bound::Any, Bound::Any)?;
    assert!(rt; gives(alloc, q, &tables, " 1 2 3 5")?);
    let q = within(alloc, Bound::Incl(int(2)), Bound::Excl(int(5)))?;
    assert!(rt; gives(alloc, q, &tables, " 2 3")?);
    let q = within(alloc, Bound::Excl(int(2)), Bound::Incl(int(5)))?;
    assert!(rt; gives(alloc, q, &tables, " 3 5")?);
    let q = within(alloc, Bound::Incl(int(4)), Bound::Incl(int(2)))?;
    assert!(rt; gives(alloc, q, &tables, "")?);
    Ok(())
}

#[test]
fn gives_the_faults_of_both_bounds(rt: HostRuntime) -> Result<(), Fail> {
    let alloc = rt.alloc();
    let tables = tables(alloc, &[&[&[3]]])?;
    let large = bin(alloc, Op::Add, int(i64::MAX), int(1))?;
    let zero = bin(alloc, Op::Div, int(1), int(0))?;
    let q = within(alloc, Bound::Incl(large), Bound::Excl(zero))?;
    assert!(rt; gives(alloc, q, &tables, " |d |o")?);
    Ok(())
}
