//! Generated relations: a table or a value, under a few operators, the rest of whose operands are small.

use crate::expressions::{condition, leaf, number, numbers};
use castor_alg::{Agg, Bound, Expr, Key, Rel, both, boxed};
use castor_plain::Random;
use castor_val::Memory;
use sqlite_items::{Boxed, Items};
use std::alloc::Global;

/// The operators over other relations.
#[derive(Clone, Copy)]
pub enum Operator {
    Cross,
    Concat,
    Select,
    Filter,
    Join,
    DepJoin,
    Group,
    Order,
    Dedup,
    List,
    Hash,
    Ord,
}

/// The operator of a number, round and round.
pub fn numbered(number: u32) -> Operator {
    match number % 12 {
        0 => Operator::Cross,
        1 => Operator::Concat,
        2 => Operator::Select,
        3 => Operator::Filter,
        4 => Operator::Join,
        5 => Operator::DepJoin,
        6 => Operator::Group,
        7 => Operator::Order,
        8 => Operator::Dedup,
        9 => Operator::List,
        10 => Operator::Hash,
        _ => Operator::Ord,
    }
}

/// A relation with this operator at its root, over at most two others.
pub fn relation(alloc: Global, random: &mut Random, root: Operator) -> Result<Rel, Memory> {
    let mut r = small(alloc, random)?;
    for _ in 0..random.below(3) {
        let inner = numbered(random.below(12));
        r = over(alloc, random, inner, r)?;
    }
    over(alloc, random, root, r)
}

// A table, which may be missing, its rows on which a condition is true, or a value.
fn small(alloc: Global, random: &mut Random) -> Result<Rel, Memory> {
    match random.below(8) {
        0 => value(alloc, random),
        1 => {
            let condition = condition(alloc, random)?;
            let n = random.below(3);
            Ok(Rel::Filter(condition, Boxed::new(alloc, Rel::Table(n))?))
        }
        2 => Ok(Rel::Table(random.below(4))),
        3 => Ok(Rel::Table(1)),
        _ => Ok(Rel::Table(0)),
    }
}

// The relation under an operator.
fn over(alloc: Global, random: &mut Random, by: Operator, r: Rel) -> Result<Rel, Memory> {
    match by {
        Operator::Cross => crossed(operands(alloc, random, r)),
        Operator::Concat => concatenated(operands(alloc, random, r)),
        Operator::Select => select(alloc, random, r),
        Operator::Filter => filter(alloc, random, r),
        Operator::Join => joined(condition(alloc, random), beside(alloc, random, r)),
        Operator::DepJoin => dependent(random.below(2), binder(alloc, random, r)),
        Operator::Group => {
            let lists = both(columns(alloc, random, 2), aggregates(alloc, random));
            grouped(lists, boxed(alloc, Ok(r)))
        }
        Operator::Order => order(alloc, random, r),
        Operator::Dedup => Ok(Rel::Dedup(Boxed::new(alloc, r)?)),
        Operator::List => listed(random.below(2), binder(alloc, random, r)),
        Operator::Hash => hash(alloc, random, r),
        Operator::Ord => {
            let k = random.below(2);
            let bounds = both(bound(alloc, random), bound(alloc, random));
            ranged(k, bounds, binder(alloc, random, r))
        }
    }
}

// The relation among small ones.
fn operands(alloc: Global, random: &mut Random, r: Rel) -> Result<Items<Rel>, Memory> {
    let mut rs = Ok(Items::new(alloc));
    if random.below(2) == 0 {
        rs = pushed(rs, small(alloc, random));
    }
    rs = pushed(rs, Ok(r));
    if random.below(2) == 0 {
        rs = pushed(rs, small(alloc, random));
    }
    rs
}

fn pushed(rs: Result<Items<Rel>, Memory>, r: Result<Rel, Memory>) -> Result<Items<Rel>, Memory> {
    let (mut rs, r) = both(rs, r)?;
    rs.push(r)?;
    Ok(rs)
}

fn crossed(rs: Result<Items<Rel>, Memory>) -> Result<Rel, Memory> {
    Ok(Rel::Cross(rs?))
}

fn concatenated(rs: Result<Items<Rel>, Memory>) -> Result<Rel, Memory> {
    Ok(Rel::Concat(rs?))
}

fn select(alloc: Global, random: &mut Random, r: Rel) -> Result<Rel, Memory> {
    let (es, r) = both(numbers(alloc, random), boxed(alloc, Ok(r)))?;
    Ok(Rel::Select(es, r))
}

fn filter(alloc: Global, random: &mut Random, r: Rel) -> Result<Rel, Memory> {
    let (e, r) = both(condition(alloc, random), boxed(alloc, Ok(r)))?;
    Ok(Rel::Filter(e, r))
}

// The two operands of a relation.
#[derive(Drop)]
struct Pair {
    source: Boxed<Rel>,
    body: Boxed<Rel>,
}

fn boxes(
    alloc: Global,
    source: Result<Rel, Memory>,
    body: Result<Rel, Memory>,
) -> Result<Pair, Memory> {
    let (source, body) = both(boxed(alloc, source), boxed(alloc, body))?;
    Ok(Pair { source, body })
}

// The relation before or after a small one.
fn beside(alloc: Global, random: &mut Random, r: Rel) -> Result<Pair, Memory> {
    let other = small(alloc, random);
    match random.below(2) {
        0 => boxes(alloc, Ok(r), other),
        _ => boxes(alloc, other, Ok(r)),
    }
}

fn joined(e: Result<Expr, Memory>, ends: Result<Pair, Memory>) -> Result<Rel, Memory> {
    let (e, Pair { source, body }) = both(e, ends)?;
    Ok(Rel::Join(e, source, body))
}

// The relation as the source or the body of a binder, the other of which is small.
fn binder(alloc: Global, random: &mut Random, r: Rel) -> Result<Pair, Memory> {
    match random.below(3) {
        0 => boxes(alloc, Ok(r), value(alloc, random)),
        _ => beside(alloc, random, r),
    }
}

// One value.
fn value(alloc: Global, random: &mut Random) -> Result<Rel, Memory> {
    Ok(Rel::Scalar(number(alloc, random)?))
}

fn dependent(k: u32, ends: Result<Pair, Memory>) -> Result<Rel, Memory> {
    let Pair { source, body } = ends?;
    Ok(Rel::DepJoin(k, source, body))
}

fn listed(k: u32, ends: Result<Pair, Memory>) -> Result<Rel, Memory> {
    let Pair { source, body } = ends?;
    Ok(Rel::List(k, source, body))
}

// At most this many columns.
fn columns(alloc: Global, random: &mut Random, most: u32) -> Result<Items<u32>, Memory> {
    let mut columns = Items::new(alloc);
    for _ in 0..most {
        if random.below(2) == 0 {
            columns.push(random.below(3))?;
        }
    }
    Ok(columns)
}

fn aggregate(random: &mut Random) -> Agg {
    let column = random.below(3);
    match random.below(4) {
        0 => Agg::Count,
        1 => Agg::Sum(column),
        2 => Agg::Min(column),
        _ => Agg::Max(column),
    }
}

// One to three aggregates.
fn aggregates(alloc: Global, random: &mut Random) -> Result<Items<Agg>, Memory> {
    let mut aggs = Items::new(alloc);
    for _ in 0..random.below(3) + 1 {
        aggs.push(aggregate(random))?;
    }
    Ok(aggs)
}

fn grouped(
    lists: Result<(Items<u32>, Items<Agg>), Memory>,
    r: Result<Boxed<Rel>, Memory>,
) -> Result<Rel, Memory> {
    let ((ks, aggs), r) = both(lists, r)?;
    Ok(Rel::Group(ks, aggs, r))
}

// One or two keys.
fn keys(alloc: Global, random: &mut Random) -> Result<Items<Key>, Memory> {
    let mut keys = Items::new(alloc);
    for _ in 0..random.below(2) + 1 {
        keys.push(Key {
            col: random.below(3),
            desc: random.below(2) == 0,
        })?;
    }
    Ok(keys)
}

fn order(alloc: Global, random: &mut Random, r: Rel) -> Result<Rel, Memory> {
    let (keys, r) = both(keys(alloc, random), boxed(alloc, Ok(r)))?;
    Ok(Rel::Order(keys, r))
}

fn one(alloc: Global, e: Expr) -> Result<Items<Expr>, Memory> {
    let mut es = Items::new(alloc);
    es.push(e)?;
    Ok(es)
}

// The first column of a relation.
fn first_column(alloc: Global, r: Rel) -> Result<Rel, Memory> {
    let (es, r) = both(one(alloc, Expr::Col(0)), boxed(alloc, Ok(r)))?;
    Ok(Rel::Select(es, r))
}

// A look-up among rows of one value, or of any row.
fn hash(alloc: Global, random: &mut Random, r: Rel) -> Result<Rel, Memory> {
    let k = random.below(2);
    match random.below(4) {
        0 => {
            let es = numbers(alloc, random);
            looked_up(k, es, binder(alloc, random, r))
        }
        _ => {
            let es = one(alloc, leaf(random));
            let source = first_column(alloc, r);
            looked_up(k, es, boxes(alloc, source, small(alloc, random)))
        }
    }
}

fn looked_up(
    k: u32,
    es: Result<Items<Expr>, Memory>,
    ends: Result<Pair, Memory>,
) -> Result<Rel, Memory> {
    let (es, Pair { source, body }) = both(es, ends)?;
    Ok(Rel::Hash(k, source, body, es))
}

fn bound(alloc: Global, random: &mut Random) -> Result<Bound, Memory> {
    match random.below(4) {
        0 => Ok(Bound::Any),
        1 => Ok(Bound::Excl(number(alloc, random)?)),
        _ => Ok(Bound::Incl(leaf(random))),
    }
}

fn ranged(
    k: u32,
    bounds: Result<(Bound, Bound), Memory>,
    ends: Result<Pair, Memory>,
) -> Result<Rel, Memory> {
    let ((lo, hi), Pair { source, body }) = both(bounds, ends)?;
    Ok(Rel::Ord(k, source, body, lo, hi))
}
