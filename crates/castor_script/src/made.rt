//! What is made of parts of a query, together with the scope number that is next.

ghost use Rattle.castor_alg.specs.declared.rel.Rel.{Concat, Cross, Dedup, DepJoin, Filter, Group, Hash, Join, List as Listed, Ord, Order, Rel, Select};
ghost use Rattle.castor_script.specs.Made.{GivesMade, MadeFrom, MadeOver, TwoMade};
ghost use Rattle.std.specs.Prelude.{◌≡◌, ℕ, ◌≤◌, ◌^◌, MatchResult};

use crate::step_error::StepError;
use castor_alg::{Agg, Bound, Expr, Key, Rel};
use castor_val::Memory;
use sqlite_items::{Boxed, Items};
use std::alloc::Global;

/// What was made, and the scope number that is next after it.
pub type Made<T> = Result<(T, u64), StepError>;

/// A copy, or want of memory for it.
pub type Copied<T> = Result<T, Memory>;

/// A copy beside what was made. Where there is one alone, it is let go.
fn beside<C: Drop, T: Drop>(copy: Copied<C>, made: Made<T>) -> Made<(C, T)>
    ensures { MadeOver (λ c x. (c, x)) copy made result }
{
    match made {
        Ok((made, next)) => match copy {
            Ok(copy) => Ok(((copy, made), next)),
            Err(_) => Err(StepError::Memory),
        },
        Err(why) => Err(why),
    }
}

/// What was made, in a box.
pub fn boxed_made(alloc: Global, made: Made<Rel>) -> Made<Boxed<Rel>>
    ensures { MadeFrom (λ r. r) made result }
{
    let (made, next) = made?;
    Ok((Boxed::new(alloc, made)?, next))
}

/// The number that is next after what was made. After a refusal it doesn't matter, and is 0.
pub fn next_after(made: &Made<Boxed<Rel>>) -> u64
    ensures next { MatchResult made.now (λ m. result ≡ m.1) (λ _. result ≡ 0) }
    ensures fits { (due : Rel × ℕ) → GivesMade due made.now → result ≤ 2 ^ 32 }
{
    match made {
        Ok((_, next)) => *next,
        Err(_) => 0,
    }
}

/// Two operands, of which the second was made after the first.
pub fn two_made(first: Made<Boxed<Rel>>, second: Made<Boxed<Rel>>) -> Made<(Boxed<Rel>, Boxed<Rel>)>
    ensures { TwoMade first second result }
{
    match first {
        Ok((first, _)) => match second {
            Ok((second, next)) => Ok(((first, second), next)),
            Err(why) => Err(why),
        },
        Err(why) => Err(why),
    }
}

pub fn cross_over(operands: Made<Items<Rel>>) -> Made<Rel>
    ensures { MadeFrom Cross operands result }
{
    let (operands, next) = operands?;
    Ok((Rel::Cross(operands), next))
}

pub fn concat_over(operands: Made<Items<Rel>>) -> Made<Rel>
    ensures { MadeFrom Concat operands result }
{
    let (operands, next) = operands?;
    Ok((Rel::Concat(operands), next))
}

pub fn select_over(items: Copied<Items<Expr>>, operand: Made<Boxed<Rel>>) -> Made<Rel>
    ensures { MadeOver Select items operand result }
{
    let ((items, operand), next) = beside(items, operand)?;
    Ok((Rel::Select(items, operand), next))
}

pub fn filter_over(condition: Copied<Expr>, operand: Made<Boxed<Rel>>) -> Made<Rel>
    ensures { MadeOver Filter condition operand result }
{
    let ((condition, operand), next) = beside(condition, operand)?;
    Ok((Rel::Filter(condition, operand), next))
}

pub fn join_over(condition: Copied<Expr>, operands: Made<(Boxed<Rel>, Boxed<Rel>)>) -> Made<Rel>
    ensures { MadeOver (λ e pair. Join e pair.0 pair.1) condition operands result }
{
    let ((condition, (left, right)), next) = beside(condition, operands)?;
    Ok((Rel::Join(condition, left, right), next))
}

pub fn depjoin_over(scope: u32, operands: Made<(Boxed<Rel>, Boxed<Rel>)>) -> Made<Rel>
    ensures { MadeFrom (λ pair. DepJoin scope pair.0 pair.1) operands result }
{
    let ((source, body), next) = operands?;
    Ok((Rel::DepJoin(scope, source, body), next))
}

pub fn group_over(lists: Copied<(Items<u32>, Items<Agg>)>, operand: Made<Boxed<Rel>>) -> Made<Rel>
    ensures { MadeOver (λ lists r. Group lists.0 lists.1 r) lists operand result }
{
    let (((keys, aggs), operand), next) = beside(lists, operand)?;
    Ok((Rel::Group(keys, aggs, operand), next))
}

pub fn order_over(keys: Copied<Items<Key>>, operand: Made<Boxed<Rel>>) -> Made<Rel>
    ensures { MadeOver Order keys operand result }
{
    let ((keys, operand), next) = beside(keys, operand)?;
    Ok((Rel::Order(keys, operand), next))
}

pub fn dedup_over(operand: Made<Boxed<Rel>>) -> Made<Rel>
    ensures { MadeFrom Dedup operand result }
{
    let (operand, next) = operand?;
    Ok((Rel::Dedup(operand), next))
}

pub fn list_over(scope: u32, source: Copied<Boxed<Rel>>, body: Made<Boxed<Rel>>) -> Made<Rel>
    ensures { MadeOver (λ r s. Listed scope r s) source body result }
{
    let ((source, body), next) = beside(source, body)?;
    Ok((Rel::List(scope, source, body), next))
}

pub fn hash_over(
    scope: u32,
    source: Copied<(Boxed<Rel>, Items<Expr>)>,
    body: Made<Boxed<Rel>>,
) -> Made<Rel>
    ensures { MadeOver (λ outside s. Hash scope outside.0 s outside.1) source body result }
{
    let (((source, keys), body), next) = beside(source, body)?;
    Ok((Rel::Hash(scope, source, body, keys), next))
}

pub fn ord_over(
    scope: u32,
    source: Copied<(Boxed<Rel>, (Bound, Bound))>,
    body: Made<Boxed<Rel>>,
) -> Made<Rel>
    ensures { MadeOver (λ outside s. Ord scope outside.0 s outside.1.0 outside.1.1) source body result }
{
    let (((source, (lo, hi)), body), next) = beside(source, body)?;
    Ok((Rel::Ord(scope, source, body, lo, hi), next))
}
