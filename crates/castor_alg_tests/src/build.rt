//! Small trees.

use castor_alg::{Agg, Bound, Expr, Key, Op, Rel, both, boxed};
use castor_val::{Memory, Text, Value};
use sqlite_items::Items;
use std::alloc::Global;

pub type MadeExpr = Result<Expr, Memory>;

pub type MadeRel = Result<Rel, Memory>;

pub fn col(at: u32) -> MadeExpr {
    Ok(Expr::Col(at))
}

pub fn scope(scope: u32, at: u32) -> MadeExpr {
    Ok(Expr::Scope(scope, at))
}

pub fn param(at: u32) -> MadeExpr {
    Ok(Expr::Param(at))
}

pub fn int(number: i64) -> MadeExpr {
    Ok(Expr::Lit(Value::Int(number)))
}

pub fn truth(truth: bool) -> MadeExpr {
    Ok(Expr::Lit(Value::Bool(truth)))
}

pub fn text(alloc: Global, text: &str) -> MadeExpr {
    Ok(Expr::Lit(Value::Text(Text::from_str(alloc, text)?)))
}

pub fn bin(alloc: Global, a: MadeExpr, op: Op, b: MadeExpr) -> MadeExpr {
    let (a, b) = both(boxed(alloc, a), boxed(alloc, b))?;
    Ok(Expr::Bin(op, a, b))
}

pub fn not(alloc: Global, a: MadeExpr) -> MadeExpr {
    Ok(Expr::Not(boxed(alloc, a)?))
}

pub fn choice(alloc: Global, condition: MadeExpr, a: MadeExpr, b: MadeExpr) -> MadeExpr {
    let sides = both(boxed(alloc, a), boxed(alloc, b));
    let (condition, (a, b)) = both(boxed(alloc, condition), sides)?;
    Ok(Expr::If(condition, a, b))
}

/// A list of one expression.
pub fn one(alloc: Global, e: MadeExpr) -> Result<Items<Expr>, Memory> {
    let mut es = Items::new(alloc);
    es.push(e?)?;
    Ok(es)
}

/// A list of two expressions.
pub fn two(alloc: Global, e: MadeExpr, f: MadeExpr) -> Result<Items<Expr>, Memory> {
    let (mut es, f) = both(one(alloc, e), f)?;
    es.push(f)?;
    Ok(es)
}

pub fn incl(e: MadeExpr) -> Result<Bound, Memory> {
    Ok(Bound::Incl(e?))
}

pub fn excl(e: MadeExpr) -> Result<Bound, Memory> {
    Ok(Bound::Excl(e?))
}

pub fn table(at: u32) -> MadeRel {
    Ok(Rel::Table(at))
}

pub fn scalar(e: MadeExpr) -> MadeRel {
    Ok(Rel::Scalar(e?))
}

pub fn cross(alloc: Global, r: MadeRel, s: MadeRel) -> MadeRel {
    Ok(Rel::Cross(operands(alloc, r, s)?))
}

pub fn concat(alloc: Global, r: MadeRel, s: MadeRel) -> MadeRel {
    Ok(Rel::Concat(operands(alloc, r, s)?))
}

fn operands(alloc: Global, r: MadeRel, s: MadeRel) -> Result<Items<Rel>, Memory> {
    let (r, s) = both(r, s)?;
    let mut rs = Items::new(alloc);
    rs.push(r)?;
    rs.push(s)?;
    Ok(rs)
}

pub fn select(alloc: Global, es: Result<Items<Expr>, Memory>, r: MadeRel) -> MadeRel {
    let (es, r) = both(es, boxed(alloc, r))?;
    Ok(Rel::Select(es, r))
}

pub fn filter(alloc: Global, e: MadeExpr, r: MadeRel) -> MadeRel {
    let (e, r) = both(e, boxed(alloc, r))?;
    Ok(Rel::Filter(e, r))
}

pub fn join(alloc: Global, e: MadeExpr, r: MadeRel, s: MadeRel) -> MadeRel {
    let (e, (r, s)) = both(e, both(boxed(alloc, r), boxed(alloc, s)))?;
    Ok(Rel::Join(e, r, s))
}

pub fn dep_join(alloc: Global, scope: u32, r: MadeRel, s: MadeRel) -> MadeRel {
    let (r, s) = both(boxed(alloc, r), boxed(alloc, s))?;
    Ok(Rel::DepJoin(scope, r, s))
}

pub fn group(alloc: Global, keys: &[u32], aggs: &[Agg], r: MadeRel) -> MadeRel {
    let r = boxed(alloc, r)?;
    let keys = Items::from_slice(alloc, keys)?;
    let aggs = Items::from_slice(alloc, aggs)?;
    Ok(Rel::Group(keys, aggs, r))
}

pub fn order(alloc: Global, keys: &[Key], r: MadeRel) -> MadeRel {
    let r = boxed(alloc, r)?;
    Ok(Rel::Order(Items::from_slice(alloc, keys)?, r))
}

pub fn dedup(alloc: Global, r: MadeRel) -> MadeRel {
    Ok(Rel::Dedup(boxed(alloc, r)?))
}

pub fn list(alloc: Global, scope: u32, r: MadeRel, s: MadeRel) -> MadeRel {
    let (r, s) = both(boxed(alloc, r), boxed(alloc, s))?;
    Ok(Rel::List(scope, r, s))
}

pub fn hash(
    alloc: Global,
    scope: u32,
    r: MadeRel,
    s: MadeRel,
    es: Result<Items<Expr>, Memory>,
) -> MadeRel {
    let (es, (r, s)) = both(es, both(boxed(alloc, r), boxed(alloc, s)))?;
    Ok(Rel::Hash(scope, r, s, es))
}

pub fn ord(
    alloc: Global,
    scope: u32,
    r: MadeRel,
    s: MadeRel,
    lo: Result<Bound, Memory>,
    hi: Result<Bound, Memory>,
) -> MadeRel {
    let (bounds, (r, s)) = both(both(lo, hi), both(boxed(alloc, r), boxed(alloc, s)))?;
    let (lo, hi) = bounds;
    Ok(Rel::Ord(scope, r, s, lo, hi))
}
