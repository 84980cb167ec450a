//! Relations in which a scope is replaced.

ghost use Rattle.std.specs.Prelude.{◌≡◌, IfOk, map, not};
ghost use Rattle.std.specs.List.{list_any};
ghost use Rattle.std.specs.Option.{ok_or};
ghost use Rattle.castor_val.specs.Gives.{Gives};
ghost use Rattle.castor_alg.specs.Substitution.{captured_by, captures, subst_scope, subst_scope_bound, subst_scope_expr};
ghost use Rattle.castor_alg.specs.Typing.{allowed};
ghost use Rattle.castor_alg.specs.declared.scope_substitution.SubstError.TheVariants as error;

use crate::assembly::{both, boxed};
use crate::copies::copy_items;
use crate::expr::Expr;
use crate::free_scopes::is_read_in_any;
use crate::rel::{Bound, Rel};
use crate::substitution::replacing;
use castor_val::Memory;
use sqlite_items::Items;
use std::alloc::Global;

/// Why a scope wasn't replaced.
#[derive(Clone, Copy, Debug, PartialEq, Eq)]
pub enum SubstError {
    /// A binder has the number of the scope, or one that the replacing expressions read.
    Captured,
    /// There was no memory for the relation.
    Memory,
}

/// The relation with each `Scope(scope, i)` replaced by the expression of number i, from 0, which has no
/// columns. Where there is no such expression, `false` stands, which is what a missing column gives.
///
/// `Captured` comes exactly where a binder in the relation has the number `scope` or that of a scope
/// in an expression. Linear in the tree that is made, in the bytes of its texts, and in the expressions
/// for each binder.
pub fn subst_scope(alloc: Global, query: &Rel, scope: u32, by: &[Expr]) -> Result<Rel, SubstError>
    ensures { Gives (λ made. made) error.Memory (ok_or (allowed (not (captures scope by.now query.now)) (subst_scope scope by.now query.now)) error.Captured) result }
{
    if captures(query, scope, by) {
        return Err(SubstError::Captured);
    }
    match replaced(alloc, query, scope, by) {
        Ok(made) => Ok(made),
        Err(_) => Err(SubstError::Memory),
    }
}

/// Whether a binder in the relation captures.
#[cycle(captures)]
fn captures(query: &Rel, scope: u32, by: &[Expr]) -> bool
    ensures { result ≡ captures scope by.now query.now }
{
    match query {
        Rel::Table(_) => false,
        Rel::Scalar(_) => false,
        Rel::Cross(rs) => any_captures(rs.as_slice(), scope, by),
        Rel::Concat(rs) => any_captures(rs.as_slice(), scope, by),
        Rel::Select(_, r) => captures(r.get(), scope, by),
        Rel::Filter(_, r) => captures(r.get(), scope, by),
        Rel::Join(_, r, s) => captures(r.get(), scope, by) || captures(s.get(), scope, by),
        Rel::DepJoin(bound, r, s) => captured_by(*bound, scope, by)
            || captures(r.get(), scope, by)
            || captures(s.get(), scope, by),
        Rel::Group(_, _, r) => captures(r.get(), scope, by),
        Rel::Order(_, r) => captures(r.get(), scope, by),
        Rel::Dedup(r) => captures(r.get(), scope, by),
        Rel::List(bound, r, s) => captured_by(*bound, scope, by)
            || captures(r.get(), scope, by)
            || captures(s.get(), scope, by),
        Rel::Hash(bound, r, s, _) => captured_by(*bound, scope, by)
            || captures(r.get(), scope, by)
            || captures(s.get(), scope, by),
        Rel::Ord(bound, r, s, _, _) => captured_by(*bound, scope, by)
            || captures(r.get(), scope, by)
            || captures(s.get(), scope, by),
    }
}

#[cycle(captures)]
fn any_captures(queries: &[Rel], scope: u32, by: &[Expr]) -> bool
    ensures { result ≡ list_any (captures scope by.now) queries.now }
{
    for query in queries {
        if captures(query, scope, by) {
            return true;
        }
    }
    false
}

/// Whether a binder of this number captures.
fn captured_by(bound: u32, scope: u32, by: &[Expr]) -> bool
    ensures { result ≡ captured_by scope by.now bound }
{
    bound == scope || is_read_in_any(by, bound)
}

/// The relation with the scope replaced, where no binder captures.
#[cycle(replaced)]
fn replaced(alloc: Global, query: &Rel, scope: u32, by: &[Expr]) -> Result<Rel, Memory>
    ensures { IfOk result (λ made. made ≡ subst_scope scope by.now query.now) }
{
    match query {
        Rel::Table(at) => Ok(Rel::Table(*at)),
        Rel::Scalar(e) => Ok(Rel::Scalar(replaced_in(alloc, e, scope, by)?)),
        Rel::Cross(rs) => Ok(Rel::Cross(replaced_all(alloc, rs.as_slice(), scope, by)?)),
        Rel::Concat(rs) => Ok(Rel::Concat(replaced_all(alloc, rs.as_slice(), scope, by)?)),
        Rel::Select(es, r) => {
            let r = boxed(alloc, replaced(alloc, r.get(), scope, by));
            let (es, r) = both(replaced_in_each(alloc, es.as_slice(), scope, by), r)?;
            Ok(Rel::Select(es, r))
        }
        Rel::Filter(e, r) => {
            let r = boxed(alloc, replaced(alloc, r.get(), scope, by));
            let (e, r) = both(replaced_in(alloc, e, scope, by), r)?;
            Ok(Rel::Filter(e, r))
        }
        Rel::Join(e, r, s) => {
            let r = boxed(alloc, replaced(alloc, r.get(), scope, by));
            let s = boxed(alloc, replaced(alloc, s.get(), scope, by));
            let (e, (r, s)) = both(replaced_in(alloc, e, scope, by), both(r, s))?;
            Ok(Rel::Join(e, r, s))
        }
        Rel::DepJoin(bound, r, s) => {
            let r = boxed(alloc, replaced(alloc, r.get(), scope, by));
            let s = boxed(alloc, replaced(alloc, s.get(), scope, by));
            let (r, s) = both(r, s)?;
            Ok(Rel::DepJoin(*bound, r, s))
        }
        Rel::Group(keys, aggs, r) => {
            let r = boxed(alloc, replaced(alloc, r.get(), scope, by));
            let keys = copy_items(alloc, keys.as_slice());
            let aggs = copy_items(alloc, aggs.as_slice());
            let (r, (keys, aggs)) = both(r, both(keys, aggs))?;
            Ok(Rel::Group(keys, aggs, r))
        }
        Rel::Order(keys, r) => {
            let r = boxed(alloc, replaced(alloc, r.get(), scope, by));
            let (keys, r) = both(copy_items(alloc, keys.as_slice()), r)?;
            Ok(Rel::Order(keys, r))
        }
        Rel::Dedup(r) => Ok(Rel::Dedup(boxed(alloc, replaced(alloc, r.get(), scope, by))?)),
        Rel::List(bound, r, s) => {
            let r = boxed(alloc, replaced(alloc, r.get(), scope, by));
            let s = boxed(alloc, replaced(alloc, s.get(), scope, by));
            let (r, s) = both(r, s)?;
            Ok(Rel::List(*bound, r, s))
        }
        Rel::Hash(bound, r, s, es) => {
            let r = boxed(alloc, replaced(alloc, r.get(), scope, by));
            let s = boxed(alloc, replaced(alloc, s.get(), scope, by));
            let es = replaced_in_each(alloc, es.as_slice(), scope, by);
            let (es, (r, s)) = both(es, both(r, s))?;
            Ok(Rel::Hash(*bound, r, s, es))
        }
        Rel::Ord(bound, r, s, lo, hi) => {
            let r = boxed(alloc, replaced(alloc, r.get(), scope, by));
            let s = boxed(alloc, replaced(alloc, s.get(), scope, by));
            let lo = replaced_in_bound(alloc, lo, scope, by);
            let hi = replaced_in_bound(alloc, hi, scope, by);
            let ((lo, hi), (r, s)) = both(both(lo, hi), both(r, s))?;
            Ok(Rel::Ord(*bound, r, s, lo, hi))
        }
    }
}

#[cycle(replaced)]
fn replaced_all(
    alloc: Global,
    queries: &[Rel],
    scope: u32,
    by: &[Expr],
) -> Result<Items<Rel>, Memory>
    ensures { IfOk result (λ made. made ≡ map (subst_scope scope by.now) queries.now) }
{
    let mut made = Items::new(alloc);
    for query in queries {
        made.push(replaced(alloc, query, scope, by)?)?;
    }
    Ok(made)
}

fn replaced_in(alloc: Global, e: &Expr, scope: u32, by: &[Expr]) -> Result<Expr, Memory>
    ensures { IfOk result (λ made. made ≡ subst_scope_expr scope by.now e.now) }
{
    match e {
        Expr::Col(at) => Ok(Expr::Col(*at)),
        Expr::Scope(read, at) => {
            if scope == *read {
                replacing(alloc, by, *at)
            } else {
                Ok(Expr::Scope(*read, *at))
            }
        }
        Expr::Param(at) => Ok(Expr::Param(*at)),
        Expr::Lit(literal) => Ok(Expr::Lit(literal.copy(alloc)?)),
        Expr::Bin(op, a, b) => {
            let a = boxed(alloc, replaced_in(alloc, a.get(), scope, by));
            let b = boxed(alloc, replaced_in(alloc, b.get(), scope, by));
            let (a, b) = both(a, b)?;
            Ok(Expr::Bin(*op, a, b))
        }
        Expr::Not(a) => Ok(Expr::Not(boxed(alloc, replaced_in(alloc, a.get(), scope, by))?)),
        Expr::If(condition, a, b) => {
            let condition = boxed(alloc, replaced_in(alloc, condition.get(), scope, by));
            let a = boxed(alloc, replaced_in(alloc, a.get(), scope, by));
            let b = boxed(alloc, replaced_in(alloc, b.get(), scope, by));
            let (condition, (a, b)) = both(condition, both(a, b))?;
            Ok(Expr::If(condition, a, b))
        }
    }
}

fn replaced_in_each(
    alloc: Global,
    es: &[Expr],
    scope: u32,
    by: &[Expr],
) -> Result<Items<Expr>, Memory>
    ensures { IfOk result (λ made. made ≡ map (subst_scope_expr scope by.now) es.now) }
{
    let mut made = Items::new(alloc);
    for e in es {
        made.push(replaced_in(alloc, e, scope, by)?)?;
    }
    Ok(made)
}

fn replaced_in_bound(alloc: Global, bound: &Bound, scope: u32, by: &[Expr]) -> Result<Bound, Memory>
    ensures { IfOk result (λ made. made ≡ subst_scope_bound scope by.now bound.now) }
{
    match bound {
        Bound::Any => Ok(Bound::Any),
        Bound::Incl(e) => Ok(Bound::Incl(replaced_in(alloc, e, scope, by)?)),
        Bound::Excl(e) => Ok(Bound::Excl(replaced_in(alloc, e, scope, by)?)),
    }
}
