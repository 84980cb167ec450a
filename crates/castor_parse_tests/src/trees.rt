//! Texts with their trees, read off the grammar by hand.

use crate::shown::{refusal, tree_of};
use castor_parse::{PRel, parse};
use castor_tokens::Span;
use std::alloc::{AllocError, Global};
use std::process::Abort;
use std::test::Fail;

#[test]
fn each_production_makes_its_tree(rt: HostRuntime) -> Result<(), Fail> {
    let cases = [
        ("query t", "t"),
        ("query scalar(1 as a)", "(scalar 1 as a)"),
        ("query scalar(1)", "(scalar 1)"),
        ("query cross(a, b, c)", "(cross a b c)"),
        ("query concat(a)", "(concat a)"),
        (
            "query select([#0, b as c, (x)], t)",
            "(select [#0][b as c][x] t)",
        ),
        ("query select([1as a], t)", "(select [1 as a] t)"),
        ("query filter(x=1and b, t)", "(filter ((x = 1) and b) t)"),
        ("query join(l.a = r.a, l, r)", "(join (l.a = r.a) l r)"),
        ("query depjoin(r as k, s)", "(depjoin k r s)"),
        ("query list(r as k, scalar(k.0))", "(list k r (scalar k.0))"),
        ("query hash(r as k, s, [$p, 1])", "(hash k r s [$p][1])"),
        (
            "query ordered(r as k, s, any, any)",
            "(ordered k r s any any)",
        ),
        (
            "query ordered(r as k, s, >= 1, <= 2)",
            "(ordered k r s incl 1 incl 2)",
        ),
        (
            "query ordered(r as k, s, > 1, < 2)",
            "(ordered k r s excl 1 excl 2)",
        ),
        ("query groupby([], [], t)", "(groupby  t)"),
        (
            "query groupby([], [count() as n], t)",
            "(groupby <count as n> t)",
        ),
        (
            "query groupby([a, t.b, #2], [count(), sum(a) as s, min(t.b), max(#2)], t)",
            "(groupby [a][t.b][#2]<count><sum a as s><min t.b><max #2> t)",
        ),
        (
            "query orderby([a, b asc, #1 desc], t)",
            "(orderby [a][b][#1 falls] t)",
        ),
        ("query dedup(t)", "(dedup t)"),
        (
            "table t (a int, b bool, c text); param p int; param q text; query t",
            "table t a int b bool c text; param p int; param q text; t",
        ),
        ("query select([t . a, k . 0], t)", "(select [t.a][k.0] t)"),
        ("-- a comment\nquery -- another\r\n t -- the last", "t"),
    ];
    for case in cases.as_slice() {
        let tree = tree_of(rt.alloc(), case.0)?;
        assert_eq!(rt; tree.as_str(), case.1);
    }
    Ok(())
}

#[test]
fn operators_bind_and_group(rt: HostRuntime) -> Result<(), Fail> {
    let cases = [
        ("query scalar(a - b - c)", "(scalar ((a - b) - c))"),
        ("query scalar(a - (b - c))", "(scalar (a - (b - c)))"),
        (
            "query scalar(a * b / c % d)",
            "(scalar (((a * b) / c) % d))",
        ),
        (
            "query scalar(a + b * c - d)",
            "(scalar ((a + (b * c)) - d))",
        ),
        (
            "query scalar(a or b and c or d)",
            "(scalar ((a or (b and c)) or d))",
        ),
        (
            "query scalar(not not a = b and c)",
            "(scalar ((not (not (a = b))) and c))",
        ),
        (
            "query scalar(1 + 2 <= 3 * 4)",
            "(scalar ((1 + 2) <= (3 * 4)))",
        ),
        ("query scalar(a != b)", "(scalar (a != b))"),
        (
            "query scalar(a > b or a >= b or a < b)",
            "(scalar (((a > b) or (a >= b)) or (a < b)))",
        ),
        ("query scalar(((((a)))))", "(scalar a)"),
        (
            "query scalar(if(a, 1, if(b, 2, 3)))",
            "(scalar (if a 1 (if b 2 3)))",
        ),
        ("query scalar(1--2\n)", "(scalar 1)"),
        ("query scalar(1 - -2)", "(scalar (1 - -2))"),
        (
            "query scalar(- 9223372036854775808)",
            "(scalar -9223372036854775808)",
        ),
        (
            "query scalar(9223372036854775807)",
            "(scalar 9223372036854775807)",
        ),
        ("query scalar(007 + -0)", "(scalar (7 + 0))"),
        ("query scalar('it''s' = '')", "(scalar ('it's' = ''))"),
        ("query scalar(true = false)", "(scalar (true = false))"),
        (
            "query scalar(k.4294967295 + #4294967295)",
            "(scalar (k.4294967295 + #4294967295))",
        ),
    ];
    for case in cases.as_slice() {
        let tree = tree_of(rt.alloc(), case.0)?;
        assert_eq!(rt; tree.as_str(), case.1);
    }
    Ok(())
}

fn place_of_table(query: &PRel) -> Option<Span> {
    match query {
        PRel::Table(name) => Some(name.span),
        _ => None,
    }
}

/// Whether the tokens of a text stand there, and its query is a table's name that stands there.
fn stand_at(alloc: Global, text: &str, tokens: &[Span], table: Span) -> bool {
    match parse(alloc, text.as_bytes()) {
        Ok(file) => file.tokens.as_slice() == tokens && place_of_table(&file.query) == Some(table),
        Err(_) => false,
    }
}

#[test]
fn tokens_and_names_have_their_spans(rt: HostRuntime) -> Result<(), Fail> {
    let spans = [Span { from: 0, to: 5 }, Span { from: 23, to: 25 }];
    let text = "query -- of one table\n t1";
    assert!(rt; stand_at(rt.alloc(), text, spans.as_slice(), spans[1]));
    Ok(())
}

/// An example of the page on the query language, behind the declarations that it has in common with the
/// others.
fn documented(alloc: Global, example: &str) -> Result<String, AllocError> {
    let mut text = String::from_str(alloc, "table orders (id int, cust text, total int);\n")?;
    text.push_str("table customers (name text, city text);\n")?;
    text.push_str(example)?;
    Ok(text)
}

#[test]
fn the_documented_examples_parse(rt: HostRuntime) -> Result<(), Fail> {
    let examples = [
        "query customers",
        "query scalar(6 * 7 as answer)",
        "query cross(scalar(true as new), customers)",
        "query concat(select([cust], orders), select([name], customers))",
        "query select([id, total * 2 as twice], orders)",
        "param c text; query filter(cust = $c, orders)",
        "query join(cust = name and total > 5, orders, customers)",
        "query depjoin(orders as o, select([o.id, city], filter(name = o.cust, customers)))",
        "query list(orders as o, cross(scalar(o.cust), scalar(o.2)))",
        "param c text; query hash(select([cust], orders) as k, filter(cust = k.cust, orders), [$c])",
        "param least int; query ordered(select([total], orders) as k, filter(total = k.total, orders), >= $least, any)",
        "query groupby([cust], [count() as n, sum(total) as spent], orders)",
        "query orderby([cust desc, total], orders)",
        "query dedup(select([cust], orders))",
    ];
    for example in examples.as_slice() {
        let text = documented(rt.alloc(), example)?;
        assert_eq!(rt; refusal(rt.alloc(), text.as_bytes()), None, "{}", example);
    }
    Ok(())
}
