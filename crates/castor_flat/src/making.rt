//! Operators over parts that are being made.
//!
//! Each takes its parts as they come, made or not for want of memory, so that nothing made waits for what
//! may fail.

ghost use Rattle.castor_alg.specs.declared.expr.Expr.{Bin, Expr, Not};
ghost use Rattle.castor_alg.specs.declared.expr.Op.TheVariants.{And};
ghost use Rattle.castor_alg.specs.declared.rel.Rel.{Concat, Dedup, Filter, Group, Join, Order, Rel, Select};
ghost use Rattle.castor_alg.specs.declared.rule_error.RuleError.TheVariants as error;
ghost use Rattle.castor_val.specs.Gives.{Gives};
ghost use Rattle.castor_flat.specs.Making.{Makes};
ghost use Rattle.std.specs.Prelude.{[], ◌∷◌, List, Ok};

use castor_alg::copies::copy_items;
use castor_alg::{Agg, Expr, Key, Op, Rel, RuleError, both, boxed};
use castor_val::Memory;
use sqlite_items::Items;
use std::alloc::Global;

/// What a rule made, as its answer.
pub fn given(made: Result<Rel, Memory>) -> Result<Rel, RuleError>
    ensures { (due : Rel) → Makes due made → Gives (λ r. r) error.Memory (Ok due) result }
{
    Ok(made?)
}

/// The conjunction of two conditions.
pub fn conjunction(
    alloc: Global,
    a: Result<Expr, Memory>,
    b: Result<Expr, Memory>,
) -> Result<Expr, Memory>
    ensures { (x y : Expr) → Makes x a → Makes y b → Makes (Bin And x y) result }
{
    let (a, b) = both(boxed(alloc, a), boxed(alloc, b))?;
    Ok(Expr::Bin(Op::And, a, b))
}

/// A filter.
pub fn filter_over(
    alloc: Global,
    condition: Result<Expr, Memory>,
    operand: Result<Rel, Memory>,
) -> Result<Rel, Memory>
    ensures { (e : Expr) (r : Rel) → Makes e condition → Makes r operand → Makes (Filter e r) result }
{
    let (condition, operand) = both(condition, boxed(alloc, operand))?;
    Ok(Rel::Filter(condition, operand))
}

/// A projection.
pub fn select_over(
    alloc: Global,
    items: Result<Items<Expr>, Memory>,
    operand: Result<Rel, Memory>,
) -> Result<Rel, Memory>
    ensures { (es : List Expr) (r : Rel) → Makes es items → Makes r operand → Makes (Select es r) result }
{
    let (items, operand) = both(items, boxed(alloc, operand))?;
    Ok(Rel::Select(items, operand))
}

/// A join.
pub fn join_over(
    alloc: Global,
    condition: Result<Expr, Memory>,
    left: Result<Rel, Memory>,
    right: Result<Rel, Memory>,
) -> Result<Rel, Memory>
    ensures { (e : Expr) (r s : Rel) → Makes e condition → Makes r left → Makes s right → Makes (Join e r s) result }
{
    let operands = both(boxed(alloc, left), boxed(alloc, right));
    let (condition, (left, right)) = both(condition, operands)?;
    Ok(Rel::Join(condition, left, right))
}

/// A concatenation.
pub fn concat_over(operands: Result<Items<Rel>, Memory>) -> Result<Rel, Memory>
    ensures { (rs : List Rel) → Makes rs operands → Makes (Concat rs) result }
{
    Ok(Rel::Concat(operands?))
}

/// A relation sorted by copies of keys.
pub fn order_over(alloc: Global, keys: &[Key], operand: Result<Rel, Memory>) -> Result<Rel, Memory>
    ensures { (r : Rel) → Makes r operand → Makes (Order keys.now r) result }
{
    let (keys, operand) = both(copy_items(alloc, keys), boxed(alloc, operand))?;
    Ok(Rel::Order(keys, operand))
}

/// Distinct rows.
pub fn dedup_over(alloc: Global, operand: Result<Rel, Memory>) -> Result<Rel, Memory>
    ensures { (r : Rel) → Makes r operand → Makes (Dedup r) result }
{
    Ok(Rel::Dedup(boxed(alloc, operand)?))
}

/// Groups by copies of keys with copies of aggregates.
pub fn group_over(
    alloc: Global,
    keys: &[u32],
    aggs: &[Agg],
    operand: Result<Rel, Memory>,
) -> Result<Rel, Memory>
    ensures { (r : Rel) → Makes r operand → Makes (Group keys.now aggs.now r) result }
{
    let lists = both(copy_items(alloc, keys), copy_items(alloc, aggs));
    let ((keys, aggs), operand) = both(lists, boxed(alloc, operand))?;
    Ok(Rel::Group(keys, aggs, operand))
}

/// The negation of a condition.
pub fn negation(alloc: Global, condition: Result<Expr, Memory>) -> Result<Expr, Memory>
    ensures { (e : Expr) → Makes e condition → Makes (Not e) result }
{
    Ok(Expr::Not(boxed(alloc, condition)?))
}

/// Both that were made, one after the other.
pub fn pair<T: Drop>(
    alloc: Global,
    a: Result<T, Memory>,
    b: Result<T, Memory>,
) -> Result<Items<T>, Memory>
    ensures { (x y : T) → Makes x a → Makes y b → Makes (x ∷ y ∷ []) result }
{
    let (a, b) = both(a, b)?;
    let mut pair = Items::new(alloc);
    pair.push(a)?;
    pair.push(b)?;
    Ok(pair)
}
