//! A relation with another in the place at a path.

ghost use Rattle.std.specs.Prelude.{◌≡◌, ◌∷◌, ◌++◌, IfOk};
ghost use Rattle.castor_val.specs.Gives.{Gives};
ghost use Rattle.castor_alg.specs.declared.replacement.ReplaceError.TheVariants as error;
ghost use Rattle.castor_alg.specs.Places as spec;

use crate::assembly::{both, boxed};
use crate::copies::{copy, copy_all, copy_bound, copy_expr, copy_exprs, copy_items};
use crate::places::at;
use crate::rel::Rel;
use castor_val::Memory;
use sqlite_items::{Boxed, Items, at as operand_at};
use std::alloc::Global;

/// Why nothing is put at a path.
#[derive(Clone, Copy, Debug, PartialEq, Eq)]
pub enum ReplaceError {
    /// The path leads nowhere.
    NoSuchPlace,
    /// There was no memory for the result.
    Memory,
}

impl From<Memory> for ReplaceError {
    ghost use Rattle.std.specs.Prelude.{◌≡◌};
    ghost use Rattle.castor_alg.specs.declared.replacement.ReplaceError.TheVariants.{Memory};

    ghost from_gives = { λ _ e. e ≡ Memory };

    fn from(_: Memory) -> ReplaceError {
        ReplaceError::Memory
    }
}

/// A copy of the relation with one of `new` at a path of operands, numbered from 0. `NoSuchPlace` comes
/// exactly where the path leads nowhere. Linear in both relations.
pub fn replace(alloc: Global, query: &Rel, path: &[u32], new: &Rel) -> Result<Rel, ReplaceError>
    ensures { Gives (λ r. r) error.Memory (spec.replacement path.now new.now query.now) result }
{
    if at(query, path).is_none() {
        return Err(ReplaceError::NoSuchPlace);
    }
    Ok(replaced(alloc, query, path, new)?)
}

#[cycle(replaced)]
fn replaced(alloc: Global, query: &Rel, path: &[u32], new: &Rel) -> Result<Rel, Memory>
    ensures { IfOk result (λ made. made ≡ spec.replaced path.now new.now query.now) }
{
    match path {
        [] => copy(alloc, new),
        [number, rest @ ..] => on_operand(alloc, query, *number, rest, new),
    }
}

/// The relation with something put below its operand of this number.
#[cycle(replaced)]
fn on_operand(
    alloc: Global,
    query: &Rel,
    number: u32,
    rest: &[u32],
    new: &Rel,
) -> Result<Rel, Memory>
    ensures { IfOk result (λ made. made ≡ spec.replaced (number ∷ rest.now) new.now query.now) }
{
    match query {
        Rel::Table(at) => Ok(Rel::Table(*at)),
        Rel::Scalar(e) => Ok(Rel::Scalar(copy_expr(alloc, e)?)),
        Rel::Cross(rs) => Ok(Rel::Cross(on_each(alloc, rs.as_slice(), number, rest, new)?)),
        Rel::Concat(rs) => Ok(Rel::Concat(on_each(alloc, rs.as_slice(), number, rest, new)?)),
        Rel::Select(es, r) => {
            let r = on_first(alloc, r, number, rest, new);
            let (es, r) = both(copy_exprs(alloc, es.as_slice()), r)?;
            Ok(Rel::Select(es, r))
        }
        Rel::Filter(e, r) => {
            let r = on_first(alloc, r, number, rest, new);
            let (e, r) = both(copy_expr(alloc, e), r)?;
            Ok(Rel::Filter(e, r))
        }
        Rel::Join(e, r, s) => {
            let r = on_first(alloc, r, number, rest, new);
            let s = on_second(alloc, s, number, rest, new);
            let (e, (r, s)) = both(copy_expr(alloc, e), both(r, s))?;
            Ok(Rel::Join(e, r, s))
        }
        Rel::DepJoin(scope, r, s) => {
            let r = on_first(alloc, r, number, rest, new);
            let (r, s) = both(r, on_second(alloc, s, number, rest, new))?;
            Ok(Rel::DepJoin(*scope, r, s))
        }
        Rel::Group(keys, aggs, r) => {
            let r = on_first(alloc, r, number, rest, new);
            let keys = copy_items(alloc, keys.as_slice());
            let aggs = copy_items(alloc, aggs.as_slice());
            let (r, (keys, aggs)) = both(r, both(keys, aggs))?;
            Ok(Rel::Group(keys, aggs, r))
        }
        Rel::Order(keys, r) => {
            let r = on_first(alloc, r, number, rest, new);
            let (keys, r) = both(copy_items(alloc, keys.as_slice()), r)?;
            Ok(Rel::Order(keys, r))
        }
        Rel::Dedup(r) => Ok(Rel::Dedup(on_first(alloc, r, number, rest, new)?)),
        Rel::List(scope, r, s) => {
            let r = on_first(alloc, r, number, rest, new);
            let (r, s) = both(r, on_second(alloc, s, number, rest, new))?;
            Ok(Rel::List(*scope, r, s))
        }
        Rel::Hash(scope, r, s, es) => {
            let r = on_first(alloc, r, number, rest, new);
            let s = on_second(alloc, s, number, rest, new);
            let (es, (r, s)) = both(copy_exprs(alloc, es.as_slice()), both(r, s))?;
            Ok(Rel::Hash(*scope, r, s, es))
        }
        Rel::Ord(scope, r, s, lo, hi) => {
            let r = on_first(alloc, r, number, rest, new);
            let s = on_second(alloc, s, number, rest, new);
            let bounds = both(copy_bound(alloc, lo), copy_bound(alloc, hi));
            let ((lo, hi), (r, s)) = both(bounds, both(r, s))?;
            Ok(Rel::Ord(*scope, r, s, lo, hi))
        }
    }
}

/// The only operand, or the first of two, with something put below it where its number is meant.
#[cycle(replaced)]
fn on_first(
    alloc: Global,
    r: &Boxed<Rel>,
    number: u32,
    rest: &[u32],
    new: &Rel,
) -> Result<Boxed<Rel>, Memory>
    ensures { IfOk result (λ made. made ≡ spec.on_first number (spec.replaced rest.now new.now) r.now) }
{
    match number {
        0 => boxed(alloc, replaced(alloc, r.get(), rest, new)),
        _ => boxed(alloc, copy(alloc, r.get())),
    }
}

/// The second operand, with something put below it where its number is meant.
#[cycle(replaced)]
fn on_second(
    alloc: Global,
    s: &Boxed<Rel>,
    number: u32,
    rest: &[u32],
    new: &Rel,
) -> Result<Boxed<Rel>, Memory>
    ensures { IfOk result (λ made. made ≡ spec.on_second number (spec.replaced rest.now new.now) s.now) }
{
    match number {
        1 => boxed(alloc, replaced(alloc, s.get(), rest, new)),
        _ => boxed(alloc, copy(alloc, s.get())),
    }
}

/// The operands, with something put below the one that is meant.
#[cycle(replaced)]
fn on_each(
    alloc: Global,
    rs: &[Rel],
    number: u32,
    rest: &[u32],
    new: &Rel,
) -> Result<Items<Rel>, Memory>
    ensures { IfOk result (λ made. made ≡ spec.on_each number (spec.replaced rest.now new.now) rs.now) }
{
    let at = number as usize;
    match operand_at(rs, at) {
        Some(r) => {
            let made = replaced(alloc, r, rest, new);
            let after = copy_all(alloc, &rs[at + 1..]);
            let (before, (made, after)) = both(copy_all(alloc, &rs[..at]), both(made, after))?;
            between(before, made, after)
        }
        None => copy_all(alloc, rs),
    }
}

/// A relation between others.
fn between(before: Items<Rel>, r: Rel, after: Items<Rel>) -> Result<Items<Rel>, Memory>
    ensures { IfOk result (λ rs. rs ≡ before ++ r ∷ after) }
{
    let mut rs = before;
    rs.push(r)?;
    rs.append(after)?;
    Ok(rs)
}
