//! What accepted files mean: their declarations, their columns and their queries of numbers.

ghost use Rattle.std.specs.Prelude.{IfOk};
ghost use Rattle.castor_tree.specs.Formed.{IsFormed};

use crate::checks::{KNOWN, over_known};
use castor_alg::{Agg, Bound, Expr, Key, Op, Rel};
use castor_parse::{File, parse};
use castor_schema::{Checked, Declared, SchemaError, check};
use castor_val::{Column, Ty};
use std::alloc::{AllocError, Global};
use std::process::Abort;
use std::test::Fail;

/// The file of a query over the known tables and parameters.
fn known_file(alloc: Global, query: &str) -> Result<File, Fail>
    ensures formed { IfOk result IsFormed }
{
    let text = over_known(alloc, query)?;
    Ok(parse(alloc, text.as_bytes())?)
}

fn push_column(text: &mut String, column: &Column) -> Result<(), AllocError> {
    text.push_str(column.name.as_str())?;
    text.push_str(match column.ty {
        Ty::Int => " int",
        Ty::Bool => " bool",
        Ty::Text => " text",
    })
}

fn push_columns(text: &mut String, columns: &[Column]) -> Result<(), AllocError> {
    let mut comma = "";
    for column in columns {
        text.push_str(comma)?;
        push_column(text, column)?;
        comma = ", ";
    }
    Ok(())
}

/// Columns as a table declares them.
fn columns_text(alloc: Global, columns: &[Column]) -> Result<String, AllocError> {
    let mut text = String::new(alloc);
    push_columns(&mut text, columns)?;
    Ok(text)
}

fn columns_of(alloc: Global, file: File) -> Result<String, SchemaError>
    requires formed { IsFormed file }
{
    match check(alloc, &file) {
        Ok(found) => Ok(columns_text(alloc, found.columns.as_slice())?),
        Err(why) => Err(why),
    }
}

/// The columns of a query over the known tables and parameters.
fn known_columns(alloc: Global, query: &str) -> Result<String, Fail> {
    let file = known_file(alloc, query)?;
    Ok(columns_of(alloc, file)?)
}

#[test]
fn columns_have_names_and_types(rt: HostRuntime) -> Result<(), Fail> {
    let cases = [
        ("orders", "id int, cust text, total int"),
        (
            "select([orders.cust, #0, (total), total + 1, $c, id as cust], orders)",
            "cust text, id int, total int, c3 int, c4 text, cust int",
        ),
        ("scalar(1)", "c0 int"),
        ("scalar(true as one)", "one bool"),
        (
            "join(orders.id = pairs.id, orders, pairs)",
            "id int, cust text, total int, id int, name text",
        ),
        (
            "cross(pairs, scalar(not true))",
            "id int, name text, c0 bool",
        ),
        (
            "concat(select([id as x, cust], orders), pairs)",
            "x int, cust text",
        ),
        (
            "groupby([cust], [count(), sum(total) as s, min(id), max(cust)], orders)",
            "cust text, c1 int, s int, c3 int, c4 text",
        ),
        (
            "orderby([total desc, #0], filter(id > 1, orders))",
            "id int, cust text, total int",
        ),
        ("dedup(select([cust], orders))", "cust text"),
        (
            "depjoin(orders as k, select([k.cust, k.0, id, k.total + 1, k.2 < 3], pairs))",
            "cust text, id int, id int, c3 int, c4 bool",
        ),
        ("list(orders as k, scalar(if(true, k.total, 0)))", "c0 int"),
        (
            "hash(pairs as k, orders, [$n, $c])",
            "id int, cust text, total int",
        ),
        (
            "ordered(select([total], orders) as k, pairs, >= $n, < 10)",
            "id int, name text",
        ),
    ];
    for case in cases.as_slice() {
        let columns = known_columns(rt.alloc(), case.0)?;
        assert_eq!(rt; columns.as_str(), case.1, "{}", case.0);
    }
    Ok(())
}

#[test]
fn names_find_columns_and_scopes(rt: HostRuntime) -> Result<(), Fail> {
    let cases = [
        // A qualifier stays.
        (
            "select([orders.total], select([total, id], orders))",
            "total int",
        ),
        ("select([pairs.id], join(true, orders, pairs))", "id int"),
        ("select([pairs.name], cross(orders, pairs))", "name text"),
        (
            "select([orders.cust], concat(select([id, cust], orders), pairs))",
            "cust text",
        ),
        (
            "select([pairs.name], groupby([pairs.name], [count()], cross(orders, pairs)))",
            "name text",
        ),
        (
            "select([pairs.name], dedup(orderby([pairs.id], filter(true, pairs))))",
            "name text",
        ),
        // The innermost scope of a name, which may be bound to rows that read the outer one.
        (
            "depjoin(orders as k, depjoin(pairs as k, scalar(k.name)))",
            "name text",
        ),
        (
            "depjoin(orders as k, depjoin(select([k.total], pairs) as k, scalar(k.total)))",
            "total int",
        ),
        (
            "depjoin(orders as k, cross(depjoin(pairs as k, scalar(k.name)), scalar(k.total)))",
            "name text, total int",
        ),
        // A name of a column and a scope.
        (
            "depjoin(orders as id, select([id, id.total], pairs))",
            "id int, total int",
        ),
        // A scope before a table of its name, but for the lists of `groupby` and `orderby`.
        (
            "depjoin(orders as pairs, select([pairs.total], pairs))",
            "total int",
        ),
        (
            "depjoin(orders as pairs, groupby([pairs.name], [sum(pairs.id)], pairs))",
            "name text, c1 int",
        ),
        (
            "depjoin(orders as pairs, orderby([pairs.name], pairs))",
            "id int, name text",
        ),
        // Keys and bounds read scopes outside of their own.
        (
            "depjoin(orders as j, hash(select([id], pairs) as k, scalar(k.0), [j.total]))",
            "id int",
        ),
        (
            "depjoin(orders as j, ordered(select([name], pairs) as k, scalar(k.name), > j.cust, any))",
            "name text",
        ),
    ];
    for case in cases.as_slice() {
        let columns = known_columns(rt.alloc(), case.0)?;
        assert_eq!(rt; columns.as_str(), case.1, "{}", case.0);
    }
    Ok(())
}

fn push_tables(text: &mut String, tables: &[Declared]) -> Result<(), AllocError> {
    for table in tables {
        text.push_str("table ")?;
        text.push_str(table.name.as_str())?;
        text.push_str(" (")?;
        push_columns(text, table.columns.as_slice())?;
        text.push_str("); ")?;
    }
    Ok(())
}

fn push_params(text: &mut String, params: &[Column]) -> Result<(), AllocError> {
    for param in params {
        text.push_str("param ")?;
        push_column(text, param)?;
        text.push_str("; ")?;
    }
    Ok(())
}

/// Tables, and then parameters, as they are declared.
fn declarations_text(alloc: Global, found: &Checked) -> Result<String, AllocError> {
    let mut text = String::new(alloc);
    push_tables(&mut text, found.tables.as_slice())?;
    push_params(&mut text, found.params.as_slice())?;
    Ok(text)
}

fn declarations_of(alloc: Global, file: File) -> Result<String, SchemaError>
    requires formed { IsFormed file }
{
    match check(alloc, &file) {
        Ok(found) => Ok(declarations_text(alloc, &found)?),
        Err(why) => Err(why),
    }
}

#[test]
fn declarations_keep_their_order(rt: HostRuntime) -> Result<(), Fail> {
    let file = known_file(rt.alloc(), "scalar(1)")?;
    let text = declarations_of(rt.alloc(), file)?;
    assert_eq!(rt; text.as_str(), KNOWN);
    Ok(())
}

/// What a query of numbers is.
#[derive(Clone, Copy)]
enum Shape {
    /// `filter(#1 = $0, 0)`, where 0 is a table.
    Equation,
    /// `select([#4], join(#0 = #3, 0, 1))`.
    LastOfJoin,
    /// `orderby([#1 desc, #0], groupby([#1], [sum(#2), count()], 0))`.
    SortedGroups,
    /// Binders with the numbers 0, 1 in the source, 2 in the body and 3 in its body.
    Preorder,
}

impl Shape {
    fn is_of(self, query: &Rel) -> bool {
        match self {
            Shape::Equation => is_equation(query),
            Shape::LastOfJoin => is_last_of_join(query),
            Shape::SortedGroups => is_sorted_groups(query),
            Shape::Preorder => is_in_preorder(query),
        }
    }
}

fn is_checked_to(alloc: Global, file: File, shape: Shape) -> Result<bool, SchemaError>
    requires formed { IsFormed file }
{
    match check(alloc, &file) {
        Ok(found) => Ok(shape.is_of(&found.query)),
        Err(why) => Err(why),
    }
}

/// Whether a query over the known tables and parameters becomes one of a shape.
fn is_known_as(alloc: Global, query: &str, shape: Shape) -> Result<bool, Fail> {
    let file = known_file(alloc, query)?;
    Ok(is_checked_to(alloc, file, shape)?)
}

fn is_equation(query: &Rel) -> bool {
    match query {
        Rel::Filter(Expr::Bin(Op::Eq, left, right), from) => {
            matches!(left.get(), Expr::Col(1))
                && matches!(right.get(), Expr::Param(0))
                && matches!(from.get(), Rel::Table(0))
        }
        _ => false,
    }
}

fn is_last_of_join(query: &Rel) -> bool {
    match query {
        Rel::Select(items, from) => {
            matches!(items.as_slice(), [Expr::Col(4)]) && is_join_of_ids(from.get())
        }
        _ => false,
    }
}

fn is_join_of_ids(query: &Rel) -> bool {
    match query {
        Rel::Join(Expr::Bin(Op::Eq, left, right), first, second) => {
            matches!(left.get(), Expr::Col(0))
                && matches!(right.get(), Expr::Col(3))
                && matches!(first.get(), Rel::Table(0))
                && matches!(second.get(), Rel::Table(1))
        }
        _ => false,
    }
}

fn is_sorted_groups(query: &Rel) -> bool {
    match query {
        Rel::Order(keys, from) => are_sorting_keys(keys.as_slice()) && is_group(from.get()),
        _ => false,
    }
}

fn are_sorting_keys(keys: &[Key]) -> bool {
    let due = [
        Key { col: 1, desc: true },
        Key {
            col: 0,
            desc: false,
        },
    ];
    keys == due.as_slice()
}

fn is_group(query: &Rel) -> bool {
    match query {
        Rel::Group(keys, aggs, from) => {
            keys.as_slice() == [1].as_slice()
                && aggs.as_slice() == [Agg::Sum(2), Agg::Count].as_slice()
                && matches!(from.get(), Rel::Table(0))
        }
        _ => false,
    }
}

fn is_scalar_of(query: &Rel, scope: u32) -> bool {
    match query {
        Rel::Scalar(Expr::Scope(number, 0)) => *number == scope,
        _ => false,
    }
}

fn is_in_preorder(query: &Rel) -> bool {
    match query {
        Rel::DepJoin(0, source, body) => is_list(source.get()) && is_hash(body.get()),
        _ => false,
    }
}

fn is_list(query: &Rel) -> bool {
    match query {
        Rel::List(1, _, body) => is_scalar_of(body.get(), 1),
        _ => false,
    }
}

fn is_hash(query: &Rel) -> bool {
    match query {
        Rel::Hash(2, source, body, keys) => {
            is_scalar_of(source.get(), 0)
                && is_ordered(body.get())
                && matches!(keys.as_slice(), [Expr::Scope(0, 0)])
        }
        _ => false,
    }
}

fn is_ordered(query: &Rel) -> bool {
    match query {
        Rel::Ord(3, source, body, Bound::Incl(Expr::Scope(2, 0)), Bound::Any) => {
            is_scalar_of(source.get(), 2) && is_scalar_of(body.get(), 3)
        }
        _ => false,
    }
}

#[test]
fn names_become_numbers(rt: HostRuntime) -> Result<(), Fail> {
    let cases = [
        ("filter(cust = $c, orders)", Shape::Equation),
        (
            "select([name], join(orders.id = pairs.id, orders, pairs))",
            Shape::LastOfJoin,
        ),
        (
            "orderby([c1 desc, cust], groupby([cust], [sum(total), count()], orders))",
            Shape::SortedGroups,
        ),
        (
            "depjoin(list(orders as a, scalar(a.id)) as b, hash(scalar(b.0) as c, ordered(scalar(c.0) as d, scalar(d.0), >= c.0, any), [b.0]))",
            Shape::Preorder,
        ),
    ];
    for case in cases.as_slice() {
        let is_so = is_known_as(rt.alloc(), case.0, case.1)?;
        assert!(rt; is_so, "{}", case.0);
    }
    Ok(())
}
