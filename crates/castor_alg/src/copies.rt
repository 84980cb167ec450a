//! Copies of expressions and relations.

ghost use Rattle.std.specs.Prelude.{◌≡◌, IfOk};

use crate::assembly::{both, boxed};
use crate::expr::Expr;
use crate::rel::{Bound, Rel};
use castor_val::Memory;
use sqlite_items::Items;
use std::alloc::Global;

/// An equal expression. Linear in the tree and in the bytes of its texts.
pub fn copy_expr(alloc: Global, e: &Expr) -> Result<Expr, Memory>
    ensures { IfOk result (λ copy. copy ≡ e.now) }
{
    match e {
        Expr::Col(at) => Ok(Expr::Col(*at)),
        Expr::Scope(scope, at) => Ok(Expr::Scope(*scope, *at)),
        Expr::Param(at) => Ok(Expr::Param(*at)),
        Expr::Lit(literal) => Ok(Expr::Lit(literal.copy(alloc)?)),
        Expr::Bin(op, a, b) => {
            let a = boxed(alloc, copy_expr(alloc, a.get()));
            let b = boxed(alloc, copy_expr(alloc, b.get()));
            let (a, b) = both(a, b)?;
            Ok(Expr::Bin(*op, a, b))
        }
        Expr::Not(a) => Ok(Expr::Not(boxed(alloc, copy_expr(alloc, a.get()))?)),
        Expr::If(condition, a, b) => {
            let condition = boxed(alloc, copy_expr(alloc, condition.get()));
            let a = boxed(alloc, copy_expr(alloc, a.get()));
            let b = boxed(alloc, copy_expr(alloc, b.get()));
            let (condition, (a, b)) = both(condition, both(a, b))?;
            Ok(Expr::If(condition, a, b))
        }
    }
}

/// Equal expressions. Linear in the trees and in the bytes of their texts.
pub fn copy_exprs(alloc: Global, es: &[Expr]) -> Result<Items<Expr>, Memory>
    ensures { IfOk result (λ copies. copies ≡ es.now) }
{
    let mut copies = Items::new(alloc);
    for e in es {
        copies.push(copy_expr(alloc, e)?)?;
    }
    Ok(copies)
}

/// An equal bound. Linear in the tree and in the bytes of its texts.
pub fn copy_bound(alloc: Global, bound: &Bound) -> Result<Bound, Memory>
    ensures { IfOk result (λ copy. copy ≡ bound.now) }
{
    match bound {
        Bound::Any => Ok(Bound::Any),
        Bound::Incl(e) => Ok(Bound::Incl(copy_expr(alloc, e)?)),
        Bound::Excl(e) => Ok(Bound::Excl(copy_expr(alloc, e)?)),
    }
}

/// An equal relation. Linear in the tree and in the bytes of its texts.
#[cycle(copy)]
pub fn copy(alloc: Global, query: &Rel) -> Result<Rel, Memory>
    ensures { IfOk result (λ copy. copy ≡ query.now) }
{
    match query {
        Rel::Table(at) => Ok(Rel::Table(*at)),
        Rel::Scalar(e) => Ok(Rel::Scalar(copy_expr(alloc, e)?)),
        Rel::Cross(rs) => Ok(Rel::Cross(copy_all(alloc, rs.as_slice())?)),
        Rel::Concat(rs) => Ok(Rel::Concat(copy_all(alloc, rs.as_slice())?)),
        Rel::Select(es, r) => {
            let r = boxed(alloc, copy(alloc, r.get()));
            let (es, r) = both(copy_exprs(alloc, es.as_slice()), r)?;
            Ok(Rel::Select(es, r))
        }
        Rel::Filter(e, r) => {
            let r = boxed(alloc, copy(alloc, r.get()));
            let (e, r) = both(copy_expr(alloc, e), r)?;
            Ok(Rel::Filter(e, r))
        }
        Rel::Join(e, r, s) => {
            let r = boxed(alloc, copy(alloc, r.get()));
            let s = boxed(alloc, copy(alloc, s.get()));
            let (e, (r, s)) = both(copy_expr(alloc, e), both(r, s))?;
            Ok(Rel::Join(e, r, s))
        }
        Rel::DepJoin(scope, r, s) => {
            let r = boxed(alloc, copy(alloc, r.get()));
            let s = boxed(alloc, copy(alloc, s.get()));
            let (r, s) = both(r, s)?;
            Ok(Rel::DepJoin(*scope, r, s))
        }
        Rel::Group(keys, aggs, r) => {
            let r = boxed(alloc, copy(alloc, r.get()));
            let keys = copy_items(alloc, keys.as_slice());
            let aggs = copy_items(alloc, aggs.as_slice());
            let (r, (keys, aggs)) = both(r, both(keys, aggs))?;
            Ok(Rel::Group(keys, aggs, r))
        }
        Rel::Order(keys, r) => {
            let r = boxed(alloc, copy(alloc, r.get()));
            let (keys, r) = both(copy_items(alloc, keys.as_slice()), r)?;
            Ok(Rel::Order(keys, r))
        }
        Rel::Dedup(r) => Ok(Rel::Dedup(boxed(alloc, copy(alloc, r.get()))?)),
        Rel::List(scope, r, s) => {
            let r = boxed(alloc, copy(alloc, r.get()));
            let s = boxed(alloc, copy(alloc, s.get()));
            let (r, s) = both(r, s)?;
            Ok(Rel::List(*scope, r, s))
        }
        Rel::Hash(scope, r, s, es) => {
            let r = boxed(alloc, copy(alloc, r.get()));
            let s = boxed(alloc, copy(alloc, s.get()));
            let (es, (r, s)) = both(copy_exprs(alloc, es.as_slice()), both(r, s))?;
            Ok(Rel::Hash(*scope, r, s, es))
        }
        Rel::Ord(scope, r, s, lo, hi) => {
            let r = boxed(alloc, copy(alloc, r.get()));
            let s = boxed(alloc, copy(alloc, s.get()));
            let bounds = both(copy_bound(alloc, lo), copy_bound(alloc, hi));
            let ((lo, hi), (r, s)) = both(bounds, both(r, s))?;
            Ok(Rel::Ord(*scope, r, s, lo, hi))
        }
    }
}

/// Equal relations. Linear in the trees and in the bytes of their texts.
#[cycle(copy)]
pub fn copy_all(alloc: Global, queries: &[Rel]) -> Result<Items<Rel>, Memory>
    ensures { IfOk result (λ copies. copies ≡ queries.now) }
{
    let mut copies = Items::new(alloc);
    for query in queries {
        copies.push(copy(alloc, query)?)?;
    }
    Ok(copies)
}

/// Equal items. Linear in their number.
pub fn copy_items<T: Copy>(alloc: Global, items: &[T]) -> Result<Items<T>, Memory>
    ensures { IfOk result (λ copies. copies ≡ items.now) }
{
    Ok(Items::from_slice(alloc, items)?)
}
