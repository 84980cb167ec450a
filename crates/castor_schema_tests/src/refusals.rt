//! Each refusal from each kind of place that can give it, and which of two comes first.

use crate::checks::{known_refusal, refusal};
use castor_parse::ParseError;
use castor_schema::SchemaError;
use std::process::Abort;
use std::test::Fail;

#[test]
fn names_of_no_table(rt: HostRuntime) -> Result<(), Fail> {
    let queries = [
        "sales",
        "filter(true, sales)",
        "cross(orders, sales)",
        "concat(orders, sales)",
        "join(true, orders, sales)",
        "hash(sales as k, orders, [1])",
        "depjoin(orders as k, k)",
    ];
    for query in queries.as_slice() {
        let found = known_refusal(rt.alloc(), *query)?;
        assert_eq!(rt; found, Some(SchemaError::UnknownTable), "{query}");
    }
    Ok(())
}

#[test]
fn names_of_no_parameter(rt: HostRuntime) -> Result<(), Fail> {
    let queries = [
        "filter(cust = $z, orders)",
        "scalar($z)",
        "select([id, $z], orders)",
        "join($z, orders, pairs)",
        "hash(select([id], orders) as k, orders, [$z])",
        "ordered(select([id], orders) as k, orders, > $z, any)",
        "ordered(select([id], orders) as k, orders, any, <= $z)",
    ];
    for query in queries.as_slice() {
        let found = known_refusal(rt.alloc(), *query)?;
        assert_eq!(rt; found, Some(SchemaError::UnknownParam), "{query}");
    }
    Ok(())
}

#[test]
fn names_and_numbers_of_no_column(rt: HostRuntime) -> Result<(), Fail> {
    let queries = [
        "filter(city = 'x', orders)",
        "filter(orders.city = 'x', orders)",
        "select([#3], orders)",
        "join(#5 = 1, orders, pairs)",
        "groupby([city], [], orders)",
        "groupby([orders.city], [], orders)",
        "groupby([#3], [], orders)",
        "groupby([], [sum(city)], orders)",
        "orderby([city], orders)",
        // There are no columns in a scalar, in keys and in bounds.
        "scalar(x)",
        "scalar(#0)",
        "hash(select([id], orders) as k, orders, [id])",
        "ordered(select([id], orders) as k, orders, >= id, any)",
        // A scope's.
        "depjoin(orders as k, scalar(k.city))",
        "depjoin(orders as k, scalar(k.3))",
        // A scope hides another of its name, and a table.
        "depjoin(orders as k, depjoin(pairs as k, scalar(k.total)))",
        "depjoin(orders as pairs, select([pairs.name], pairs))",
        // In the lists of `groupby` and `orderby` it hides nothing.
        "depjoin(orders as pairs, groupby([pairs.total], [], pairs))",
        "depjoin(orders as pairs, orderby([pairs.total], pairs))",
    ];
    for query in queries.as_slice() {
        let found = known_refusal(rt.alloc(), *query)?;
        assert_eq!(rt; found, Some(SchemaError::UnknownColumn), "{query}");
    }
    Ok(())
}

#[test]
fn names_of_no_scope(rt: HostRuntime) -> Result<(), Fail> {
    let queries = [
        "scalar(k.0)",
        "scalar(k.x)",
        "select([k.id], orders)",
        "select([orders.0], orders)",
        "orderby([k.id], orders)",
        "groupby([k.id], [], orders)",
        "groupby([], [max(k.id)], orders)",
        // In its own source, keys and bounds, and behind its body no scope is in force.
        "depjoin(scalar(k.0) as k, orders)",
        "list(scalar(k.0) as k, orders)",
        "hash(select([id], pairs) as k, orders, [k.0])",
        "ordered(select([id], pairs) as k, orders, any, < k.0)",
        "filter(k.id = 1, depjoin(orders as k, scalar(k.id)))",
        // In the lists of `groupby` and `orderby` there are no scopes.
        "depjoin(orders as k, groupby([k.id], [], pairs))",
        "depjoin(orders as k, orderby([k.id], pairs))",
        // A name by `as`, a second operand of `concat`, a scope's column and an aggregate have no qualifier.
        "select([orders.x], select([id as x], orders))",
        "select([pairs.id], concat(select([id], orders), select([id], pairs)))",
        "select([k.id], depjoin(orders as k, scalar(k.id)))",
        "select([orders.total], groupby([], [sum(total) as total], orders))",
    ];
    for query in queries.as_slice() {
        let found = known_refusal(rt.alloc(), *query)?;
        assert_eq!(rt; found, Some(SchemaError::UnknownScope), "{query}");
    }
    Ok(())
}

#[test]
fn names_of_several_columns(rt: HostRuntime) -> Result<(), Fail> {
    let queries = [
        "filter(id = 1, join(total = 3, orders, select([id], orders)))",
        "join(id = 1, orders, pairs)",
        "select([orders.id], cross(orders, orders))",
        "select([x], select([id as x, cust as x], orders))",
        "orderby([id], cross(orders, pairs))",
        "groupby([id], [], cross(orders, pairs))",
        "groupby([], [min(id)], cross(orders, pairs))",
        "depjoin(cross(orders, pairs) as k, scalar(k.id))",
    ];
    for query in queries.as_slice() {
        let found = known_refusal(rt.alloc(), *query)?;
        assert_eq!(rt; found, Some(SchemaError::Ambiguous), "{query}");
    }
    Ok(())
}

#[test]
fn operands_of_other_types(rt: HostRuntime) -> Result<(), Fail> {
    let queries = [
        "filter(total = 'x', orders)",
        "filter(total < cust, orders)",
        "filter(true and total, orders)",
        "filter('x' or true, orders)",
        "filter(not id, orders)",
        "filter(id + cust = 1, orders)",
        "select([total * true], orders)",
        "select([if(id, true, false)], orders)",
        "select([if(true, id, cust)], orders)",
        "filter(id, orders)",
        "join(total, orders, pairs)",
        "groupby([], [sum(cust)], orders)",
        "concat(select([id], orders), select([cust], orders))",
        "hash(pairs as k, orders, [1, 2])",
        "ordered(select([id], orders) as k, orders, >= $c, any)",
        "ordered(select([id], orders) as k, orders, any, <= true)",
    ];
    for query in queries.as_slice() {
        let found = known_refusal(rt.alloc(), *query)?;
        assert_eq!(rt; found, Some(SchemaError::TypeMismatch), "{query}");
    }
    Ok(())
}

#[test]
fn numbers_that_do_not_fit(rt: HostRuntime) -> Result<(), Fail> {
    let queries = [
        "groupby([], [], orders)",
        "concat(orders, pairs)",
        "concat(pairs, pairs, orders)",
        "hash(pairs as k, orders, [1])",
        "hash(pairs as k, orders, [1, 'x', 2])",
        "ordered(pairs as k, orders, any, any)",
    ];
    for query in queries.as_slice() {
        let found = known_refusal(rt.alloc(), *query)?;
        assert_eq!(rt; found, Some(SchemaError::WrongCount), "{query}");
    }
    Ok(())
}

#[test]
fn an_index_has_one_to_four_keys(rt: HostRuntime) -> Result<(), Fail> {
    let alloc = rt.alloc();
    let none = refusal(alloc, "table t (x int); query hash(t as k, t, [])");
    assert_eq!(rt; none, Err(ParseError::Syntax { at: 40 }));
    let within = [
        "hash(scalar(1) as k, orders, [1])",
        "hash(select([1, 2], orders) as k, orders, [1, 2])",
        "hash(select([1, 2, 3], orders) as k, orders, [1, 2, 3])",
        "hash(select([1, 2, 3, 4], orders) as k, orders, [1, 2, 3, 4])",
    ];
    for query in within.as_slice() {
        let found = known_refusal(alloc, *query)?;
        assert_eq!(rt; found, None, "{query}");
    }
    let past = "hash(select([1, 2, 3, 4, 5], orders) as k, orders, [1, 2, 3, 4, 5])";
    assert_eq!(rt; known_refusal(alloc, past)?, Some(SchemaError::WrongCount));
    Ok(())
}

#[test]
fn the_first_of_two_causes(rt: HostRuntime) -> Result<(), Fail> {
    let cases = [
        // Operands and sides from the left.
        ("filter(city = $z, orders)", SchemaError::UnknownColumn),
        ("filter($z = city, orders)", SchemaError::UnknownParam),
        ("cross(sales, scalar(x))", SchemaError::UnknownTable),
        ("cross(scalar(x), sales)", SchemaError::UnknownColumn),
        ("join(true, scalar(k.0), sales)", SchemaError::UnknownScope),
        ("join(true, sales, scalar(k.0))", SchemaError::UnknownTable),
        ("select([k.0, x], orders)", SchemaError::UnknownScope),
        ("select([x, k.0], orders)", SchemaError::UnknownColumn),
        // Operands before the expression, and an expression's operands before itself.
        ("join($z, sales, orders)", SchemaError::UnknownTable),
        (
            "filter(not 1, filter($z, orders))",
            SchemaError::UnknownParam,
        ),
        (
            "filter((not 1) + $z = 1, orders)",
            SchemaError::TypeMismatch,
        ),
        ("filter(1 + true = $z, orders)", SchemaError::TypeMismatch),
        // Names in lists before the relation's own conditions.
        (
            "groupby([], [sum(cust), sum(city)], orders)",
            SchemaError::UnknownColumn,
        ),
        ("hash(orders as k, orders, [x])", SchemaError::UnknownColumn),
        // A body before keys and bounds, and a lower bound before an upper one.
        (
            "hash(orders as k, scalar($z), [x])",
            SchemaError::UnknownParam,
        ),
        (
            "ordered(orders as k, orders, >= $z, <= x)",
            SchemaError::UnknownParam,
        ),
        (
            "ordered(orders as k, orders, >= x, <= $z)",
            SchemaError::UnknownColumn,
        ),
        // Numbers before types.
        ("hash(pairs as k, orders, ['x'])", SchemaError::WrongCount),
        (
            "concat(orders, select([cust, cust, cust], orders), pairs)",
            SchemaError::WrongCount,
        ),
    ];
    for case in cases.as_slice() {
        let found = known_refusal(rt.alloc(), case.0)?;
        assert_eq!(rt; found, Some(case.1), "{}", case.0);
    }
    Ok(())
}

#[test]
fn names_declared_twice(rt: HostRuntime) -> Result<(), Fail> {
    let alloc = rt.alloc();
    let texts = [
        "table t (x int, x int); query t",
        "table t (x int, y int, x text); query t",
        "table t (x int); table t (y int); query t",
        "param p int; param p text; query scalar(1)",
        // Declarations come before the query.
        "table t (x int, x int); query sales",
    ];
    for text in texts.as_slice() {
        let found = refusal(alloc, *text)?;
        assert_eq!(rt; found, Some(SchemaError::DuplicateName), "{text}");
    }
    // A parameter, a table and a column may share a name, and so may columns of two tables.
    let text = "table t (t int); table s (t int); param t int; query t";
    assert_eq!(rt; refusal(alloc, text)?, None);
    Ok(())
}
