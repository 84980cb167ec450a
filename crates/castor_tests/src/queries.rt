//! Generated query texts: relations of two ints over one table of two ints and two parameters, `p` and `q`.
//!
//! Most can be built: what is to be stored reads no parameter, and a `join` stands in stored parts alone.

use castor_plain::Random;
use std::alloc::{AllocError, Global};

// What the expressions of stored parts read.
const STORED: &[&str] = &["#0", "#1", "#0", "#1", "0", "1", "2", "-1"];

// The same of a stored join, whose rows have four columns.
const JOINED: &[&str] = &["#0", "#1", "#2", "#3"];

// What is read where a question is asked: by rows, and where there is no row.
const ASKED: &[&str] = &["#0", "#1", "#0", "#1", "$p", "$q", "1", "-1"];

const ASKED_ALONE: &[&str] = &["$p", "$q", "0", "1", "2"];

// The same below a binder of the scope `k`, whose row comes with the question, and with the stored data.
const BOUND: &[&str] = &["#0", "#1", "k.0", "k.1", "$p"];

const BOUND_ALONE: &[&str] = &["k.0", "k.1", "0", "1"];

const ARITHMETIC: &[&str] = &["+", "-", "*", "/", "%"];

const COMPARISONS: &[&str] = &["=", "!=", "<", "<=", ">", ">="];

fn picked<'a>(random: &mut Random, choices: &[&'a str]) -> &'a str {
    let at = random.below(64) as usize;
    match choices.get(at % choices.len().max(1)) {
        Some(choice) => choice,
        None => "0",
    }
}

// A number of at most one operation.
fn number(alloc: Global, random: &mut Random, leaves: &[&str]) -> Result<String, AllocError> {
    let a = picked(random, leaves);
    let b = picked(random, leaves);
    let op = picked(random, ARITHMETIC);
    match random.below(6) {
        0 | 1 => format!(in alloc; "{a} {op} {b}"),
        2 => format!(in alloc; "if({a} < {b}, {b}, {a})"),
        _ => String::from_str(alloc, a),
    }
}

// A comparison, turned around or connected with another.
fn condition(alloc: Global, random: &mut Random, leaves: &[&str]) -> Result<String, AllocError> {
    let number = number(alloc, random, leaves)?;
    let a = number.as_str();
    let op = picked(random, COMPARISONS);
    let b = picked(random, leaves);
    let other = picked(random, leaves);
    match random.below(6) {
        0 => format!(in alloc; "not {a} {op} {b}"),
        1 => format!(in alloc; "{a} {op} {b} and {other} > 0"),
        2 => format!(in alloc; "{a} {op} {b} or {other} = 1"),
        _ => format!(in alloc; "{a} {op} {b}"),
    }
}

/// A relation of two ints that rests on the table alone.
fn stored(alloc: Global, random: &mut Random) -> Result<String, AllocError> {
    let condition = condition(alloc, random, STORED)?;
    let condition = condition.as_str();
    match random.below(10) {
        0 => format!(in alloc; "dedup(orders)"),
        1 => format!(in alloc; "orderby([#1], orders)"),
        2 => format!(in alloc; "groupby([#0], [max(#1)], orders)"),
        3 => format!(in alloc; "depjoin(orders as m, filter(m.0 = #1, orders))"),
        4 => format!(in alloc; "concat(cross(scalar(1), scalar(2)), orders)"),
        5 | 6 => format!(in alloc; "filter({condition}, orders)"),
        _ => String::from_str(alloc, "orders"),
    }
}

/// An operator over relations.
#[derive(Clone, Copy, PartialEq, Eq)]
pub enum Operator {
    Cross,
    Concat,
    Select,
    Filter,
    Join,
    DepJoin,
    GroupBy,
    OrderBy,
    Dedup,
    List,
    Hash,
    Ordered,
}

/// The operators.
pub const OPERATORS: [Operator; 12] = [
    Operator::Cross,
    Operator::Concat,
    Operator::Select,
    Operator::Filter,
    Operator::Join,
    Operator::DepJoin,
    Operator::GroupBy,
    Operator::OrderBy,
    Operator::Dedup,
    Operator::List,
    Operator::Hash,
    Operator::Ordered,
];

fn select(alloc: Global, random: &mut Random, r: &str) -> Result<String, AllocError> {
    let a = number(alloc, random, ASKED)?;
    let b = number(alloc, random, ASKED)?;
    let (a, b) = (a.as_str(), b.as_str());
    format!(in alloc; "select([{a}, {b} as x], {r})")
}

fn filter(alloc: Global, random: &mut Random, r: &str) -> Result<String, AllocError> {
    let condition = condition(alloc, random, ASKED)?;
    let condition = condition.as_str();
    format!(in alloc; "filter({condition}, {r})")
}

fn beside(alloc: Global, random: &mut Random, r: &str) -> Result<String, AllocError> {
    let other = stored(alloc, random)?;
    let other = other.as_str();
    match random.below(2) {
        0 => format!(in alloc; "concat({r}, {other})"),
        _ => format!(in alloc; "concat({other}, {r})"),
    }
}

fn crossed(alloc: Global, random: &mut Random, r: &str) -> Result<String, AllocError> {
    let other = stored(alloc, random)?;
    let other = other.as_str();
    format!(in alloc; "select([#0, #3], cross({r}, {other}))")
}

fn joined(alloc: Global, random: &mut Random, r: &str) -> Result<String, AllocError> {
    let condition = condition(alloc, random, JOINED)?;
    let other = stored(alloc, random)?;
    let (condition, other) = (condition.as_str(), other.as_str());
    format!(in alloc; "concat({r}, select([#0, #3], join({condition}, orders, {other})))")
}

fn for_each(alloc: Global, random: &mut Random, r: &str) -> Result<String, AllocError> {
    let condition = condition(alloc, random, BOUND)?;
    let number = number(alloc, random, BOUND)?;
    let other = stored(alloc, random)?;
    let (condition, number, other) = (condition.as_str(), number.as_str(), other.as_str());
    format!(in alloc; "depjoin({r} as k, select([{number}, #1], filter({condition}, {other})))")
}

fn grouped(alloc: Global, random: &mut Random, r: &str) -> Result<String, AllocError> {
    match random.below(5) {
        0 => format!(in alloc; "groupby([#1], [count()], {r})"),
        1 => format!(in alloc; "groupby([#1], [sum(#0) as x], {r})"),
        2 => format!(in alloc; "groupby([#0], [min(#1)], {r})"),
        3 => format!(in alloc; "groupby([], [max(#0), count()], {r})"),
        _ => format!(in alloc; "groupby([#1, #0], [], {r})"),
    }
}

// The rows of a list: a value of its row and one that is stored, or all of another relation's.
fn listed(alloc: Global, random: &mut Random, r: &str) -> Result<String, AllocError> {
    let other = stored(alloc, random)?;
    let value = number(alloc, random, BOUND_ALONE)?;
    let (other, value) = (other.as_str(), value.as_str());
    match random.below(2) {
        0 => format!(in alloc; "list({other} as k, {r})"),
        _ => format!(in alloc;
            "concat({r}, list({other} as k, cross(scalar({value}), scalar(k.0))))"
        ),
    }
}

fn looked_up(alloc: Global, random: &mut Random, r: &str) -> Result<String, AllocError> {
    let other = stored(alloc, random)?;
    let a = number(alloc, random, ASKED_ALONE)?;
    let b = picked(random, ASKED_ALONE);
    let (other, a) = (other.as_str(), a.as_str());
    match random.below(3) {
        0 => format!(in alloc; "hash({other} as k, {r}, [{a}, {b}])"),
        1 => format!(in alloc;
            "concat({r}, hash({other} as k, cross(scalar(k.1), scalar(k.0)), [{a}, {b}]))"
        ),
        _ => format!(in alloc;
            "concat({r}, hash(select([#1], {other}) as k, list(filter(#0 = k.0, orders) as m, cross(scalar(m.0), scalar(m.1))), [{a}]))"
        ),
    }
}

fn ranged(alloc: Global, random: &mut Random, r: &str) -> Result<String, AllocError> {
    let other = stored(alloc, random)?;
    let a = number(alloc, random, ASKED_ALONE)?;
    let (other, a) = (other.as_str(), a.as_str());
    let b = picked(random, ASKED_ALONE);
    let lower = picked(random, &[">=", ">"]);
    let upper = picked(random, &["<=", "<"]);
    match random.below(3) {
        0 => format!(in alloc; "ordered(select([#0], {other}) as k, {r}, any, {upper} {a})"),
        1 => format!(in alloc;
            "concat({r}, ordered(select([#1], {other}) as k, cross(scalar(k.0), scalar(0)), {lower} {b}, any))"
        ),
        _ => format!(in alloc;
            "concat({r}, ordered(select([#0], {other}) as k, cross(scalar(k.0), scalar(k.0)), {lower} {b}, {upper} {a}))"
        ),
    }
}

// A relation under an operator.
fn over(alloc: Global, random: &mut Random, by: Operator, r: &str) -> Result<String, AllocError> {
    match by {
        Operator::Cross => crossed(alloc, random, r),
        Operator::Concat => beside(alloc, random, r),
        Operator::Select => select(alloc, random, r),
        Operator::Filter => filter(alloc, random, r),
        Operator::Join => joined(alloc, random, r),
        Operator::DepJoin => for_each(alloc, random, r),
        Operator::GroupBy => grouped(alloc, random, r),
        Operator::OrderBy => format!(in alloc; "filter(true, orderby([#1 desc, #0], {r}))"),
        Operator::Dedup => format!(in alloc; "dedup({r})"),
        Operator::List => listed(alloc, random, r),
        Operator::Hash => looked_up(alloc, random, r),
        Operator::Ordered => ranged(alloc, random, r),
    }
}

fn any_operator(random: &mut Random) -> Operator {
    match OPERATORS.get(random.below(12) as usize) {
        Some(operator) => *operator,
        None => Operator::Filter,
    }
}

/// A query whose last operator is the given one, over at most two others.
pub fn query(alloc: Global, random: &mut Random, last: Operator) -> Result<String, AllocError> {
    let mut r = stored(alloc, random)?;
    for _ in 0..random.below(3) {
        let by = any_operator(random);
        r = over(alloc, random, by, r.as_str())?;
    }
    let r = over(alloc, random, last, r.as_str())?;
    let r = r.as_str();
    format!(in alloc; "table orders (id int, n int); param p int; param q int; query {r}")
}
