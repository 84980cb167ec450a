//! Small trees.

use castor_alg::{Agg, Bound, Expr, Key, Op, Rel, both, boxed};
use castor_val::{Memory, Value};
use sqlite_items::Items;
use std::alloc::Global;

pub type MadeExpr = Result<Expr, Memory>;

pub type MadeExprs = Result<Items<Expr>, Memory>;

pub type MadeRel = Result<Rel, Memory>;

pub fn col(at: u32) -> MadeExpr {
    Ok(Expr::Col(at))
}

pub fn scope(scope: u32, at: u32) -> MadeExpr {
    Ok(Expr::Scope(scope, at))
}

pub fn param(at: u32) -> MadeExpr {
    Ok(Expr::Param(at))
}

pub fn int(number: i64) -> MadeExpr {
    Ok(Expr::Lit(Value::Int(number)))
}

pub fn truth() -> MadeExpr {
    Ok(Expr::Lit(Value::Bool(true)))
}

pub fn equal(alloc: Global, a: MadeExpr, b: MadeExpr) -> MadeExpr {
    let (a, b) = both(boxed(alloc, a), boxed(alloc, b))?;
    Ok(Expr::Bin(Op::Eq, a, b))
}

/// A list of one expression.
pub fn one(alloc: Global, e: MadeExpr) -> MadeExprs {
    let mut es = Items::new(alloc);
    es.push(e?)?;
    Ok(es)
}

/// The expressions and one more.
pub fn with(es: MadeExprs, e: MadeExpr) -> MadeExprs {
    let (mut es, e) = both(es, e)?;
    es.push(e)?;
    Ok(es)
}

/// Columns of a row.
pub fn columns(alloc: Global, places: &[u32]) -> MadeExprs {
    let mut es = Items::new(alloc);
    for at in places {
        es.push(Expr::Col(*at))?;
    }
    Ok(es)
}

pub fn table(at: u32) -> MadeRel {
    Ok(Rel::Table(at))
}

pub fn scalar(e: MadeExpr) -> MadeRel {
    Ok(Rel::Scalar(e?))
}

fn operands(alloc: Global, r: MadeRel, s: MadeRel) -> Result<Items<Rel>, Memory> {
    let (r, s) = both(r, s)?;
    let mut rs = Items::new(alloc);
    rs.push(r)?;
    rs.push(s)?;
    Ok(rs)
}

pub fn cross(alloc: Global, r: MadeRel, s: MadeRel) -> MadeRel {
    Ok(Rel::Cross(operands(alloc, r, s)?))
}

pub fn concat(alloc: Global, r: MadeRel, s: MadeRel) -> MadeRel {
    Ok(Rel::Concat(operands(alloc, r, s)?))
}

/// A cross of a scalar for each of these columns of a scope.
pub fn scalars(alloc: Global, scope: u32, places: &[u32]) -> MadeRel {
    let mut rs = Items::new(alloc);
    for at in places {
        rs.push(Rel::Scalar(Expr::Scope(scope, *at)))?;
    }
    Ok(Rel::Cross(rs))
}

/// So many values one after the other.
pub fn values(alloc: Global, count: u32) -> MadeRel {
    let mut rs = Items::new(alloc);
    for _ in 0..count {
        rs.push(Rel::Scalar(Expr::Lit(Value::Int(1))))?;
    }
    Ok(Rel::Concat(rs))
}

pub fn select(alloc: Global, es: MadeExprs, r: MadeRel) -> MadeRel {
    let (es, r) = both(es, boxed(alloc, r))?;
    Ok(Rel::Select(es, r))
}

pub fn filter(alloc: Global, e: MadeExpr, r: MadeRel) -> MadeRel {
    let (e, r) = both(e, boxed(alloc, r))?;
    Ok(Rel::Filter(e, r))
}

pub fn join(alloc: Global, e: MadeExpr, r: MadeRel, s: MadeRel) -> MadeRel {
    let (e, (r, s)) = both(e, both(boxed(alloc, r), boxed(alloc, s)))?;
    Ok(Rel::Join(e, r, s))
}

pub fn dep_join(alloc: Global, scope: u32, r: MadeRel, s: MadeRel) -> MadeRel {
    let (r, s) = both(boxed(alloc, r), boxed(alloc, s))?;
    Ok(Rel::DepJoin(scope, r, s))
}

pub fn group(alloc: Global, keys: &[u32], aggs: &[Agg], r: MadeRel) -> MadeRel {
    let r = boxed(alloc, r)?;
    let keys = Items::from_slice(alloc, keys)?;
    let aggs = Items::from_slice(alloc, aggs)?;
    Ok(Rel::Group(keys, aggs, r))
}

pub fn rising(col: u32) -> Key {
    Key { col, desc: false }
}

pub fn falling(col: u32) -> Key {
    Key { col, desc: true }
}

pub fn order(alloc: Global, keys: &[Key], r: MadeRel) -> MadeRel {
    let r = boxed(alloc, r)?;
    Ok(Rel::Order(Items::from_slice(alloc, keys)?, r))
}

pub fn dedup(alloc: Global, r: MadeRel) -> MadeRel {
    Ok(Rel::Dedup(boxed(alloc, r)?))
}

pub fn list(alloc: Global, scope: u32, r: MadeRel, s: MadeRel) -> MadeRel {
    let (r, s) = both(boxed(alloc, r), boxed(alloc, s))?;
    Ok(Rel::List(scope, r, s))
}

pub fn hash(alloc: Global, scope: u32, r: MadeRel, s: MadeRel, es: MadeExprs) -> MadeRel {
    let (es, (r, s)) = both(es, both(boxed(alloc, r), boxed(alloc, s)))?;
    Ok(Rel::Hash(scope, r, s, es))
}

/// An ordered index that is asked for all from a value on.
pub fn ordered_from(alloc: Global, scope: u32, r: MadeRel, s: MadeRel, least: MadeExpr) -> MadeRel {
    let (least, (r, s)) = both(least, both(boxed(alloc, r), boxed(alloc, s)))?;
    Ok(Rel::Ord(scope, r, s, Bound::Incl(least), Bound::Any))
}
