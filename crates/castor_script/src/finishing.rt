//! `finish`: whatever of a query doesn't wait for a question is stored.

ghost use Rattle.std.specs.Prelude.{◌≡◌, ℕ, ◌≤◌, ◌+◌, ◌^◌, IfOk, IsOkAnd, MatchResult, false, map, true};
ghost use Rattle.castor_val.specs.Gives.{Gives};
ghost use Rattle.castor_alg.specs.declared.rel.Rel.{Rel, Scalar};
ghost use Rattle.castor_alg.specs.Typing.{Typed};
ghost use Rattle.castor_script.specs.declared.step_error.StepError.TheVariants as error;
ghost use Rattle.castor_script.specs.Binders.{run_scopes_of};
ghost use Rattle.castor_script.specs.Finish.{finish_of, finished, limited, over_all};
ghost use Rattle.castor_nest.specs.Store.{stored};
ghost use Rattle.castor_script.specs.Made.{GivesMade};
ghost use Rattle.castor_script.specs.Kept.{MeansTheSame};
ghost use Rattle.castor_script.specs.Settled.{is_settled, with_scope};

use crate::binders::Binders;
use crate::made::{
    Copied, Made, boxed_made, concat_over, cross_over, dedup_over, depjoin_over, filter_over,
    group_over, hash_over, join_over, list_over, next_after, ord_over, order_over, select_over,
    two_made,
};
use crate::settled::is_settled;
use crate::step_error::StepError;
use castor_alg::{
    Context, Expr, Rel, both, boxed, copy, copy_bound, copy_expr, copy_exprs, depth, fresh, nodes,
};
use castor_nest::store_rows;
use castor_val::{MAX_DEPTH, MAX_QUERY_NODES, Memory, Ty};
use sqlite_items::{Boxed, Items};
use std::alloc::Global;

/// The query with each relation stored that needn't wait for a question. It means exactly what the query
/// means: the same rows in the same order, and the same faults.
///
/// The walk goes from the root through the operands that are computed when a question comes: all but the
/// sources of indexes and lists. A `Scalar`, `Cross`, `Concat`, `List`, `Hash` or `Ord` is a layout and
/// stays. Another relation is stored, with all below it, if it has neither a parameter nor a free scope that
/// a dependent join on the way binds; else it stays. New scopes are numbered upwards from the fresh
/// scope of the query, in the order of the walk, an operator before its operands.
///
/// `TooLarge` comes exactly where the query has no fresh scope, where a new scope would be above
/// 4,294,967,295, or where the new query has more than 4,096 nodes or a depth over 64. Copies what it
/// keeps. Linear in the tree for each level of operators that wait, for each looks at all below it.
pub fn finish(alloc: Global, root: Rel, types: &Context) -> Result<Rel, StepError>
    requires typed { Typed root types.now }
    ensures row { Gives (λ r. r) error.Memory (finish_of types.now.tables root) result }
    ensures keeps { IfOk result (λ r. MeansTheSame types.now root r) }
{
    finish_copy(alloc, &root, types.tables.as_slice())
}

pub(crate) fn finish_copy(alloc: Global, root: &Rel, tables: &[Items<Ty>]) -> Result<Rel, StepError>
    ensures { Gives (λ r. r) error.Memory (finish_of tables.now root.now) result }
{
    match fresh(root) {
        Some(next) => limit(finish_under(alloc, root, tables, &Binders::Outside, next as u64)),
        None => Err(StepError::TooLarge),
    }
}

/// What was made, where it is within the limits of a query.
fn limit(made: Made<Rel>) -> Result<Rel, StepError>
    ensures { (due : Rel × ℕ) → GivesMade due made → Gives (λ r. r) error.Memory (limited due) result }
{
    match made {
        Ok((query, _)) => {
            if nodes(&query) <= MAX_QUERY_NODES && depth(&query) <= MAX_DEPTH {
                Ok(query)
            } else {
                Err(StepError::TooLarge)
            }
        }
        Err(why) => Err(why),
    }
}

#[cycle(finish_under)]
fn finish_under(
    alloc: Global,
    query: &Rel,
    tables: &[Items<Ty>],
    binders: &Binders<'_>,
    next: u64,
) -> Made<Rel>
    requires { next ≤ 2 ^ 32 }
    ensures { GivesMade (finished tables.now query.now (run_scopes_of binders.now) next) result }
{
    if is_settled(query, binders) {
        store_next(alloc, query, tables, next)
    } else {
        keep(alloc, query, tables, &*binders, next)
    }
}

/// The relation stored under the next number.
fn store_next(alloc: Global, query: &Rel, tables: &[Items<Ty>], next: u64) -> Made<Rel>
    requires { next ≤ 2 ^ 32 }
    ensures { GivesMade (stored tables.now next query.now, next + 1) result }
{
    let Ok(scope) = u32::try_from(next) else {
        return Err(StepError::TooLarge);
    };
    Ok((
        store_rows(alloc, copy(alloc, query)?, scope, tables)?,
        next + 1,
    ))
}

/// The relation over what becomes of its operands.
#[cycle(finish_under)]
fn keep<'b>(
    alloc: Global,
    query: &Rel,
    tables: &[Items<Ty>],
    binders: &'b Binders<'b>,
    next: u64,
) -> Made<Rel>
    requires number { next ≤ 2 ^ 32 }
    requires kept { is_settled (run_scopes_of binders.now) query.now ≡ false }
    ensures { GivesMade (finished tables.now query.now (run_scopes_of binders.now) next) result }
{
    match query {
        Rel::Table(at) => Ok((Rel::Table(*at), next)),
        Rel::Scalar(e) => scalar_copy(copy_expr(alloc, e), next),
        Rel::Cross(rs) => cross_over(finish_all(alloc, rs.as_slice(), tables, binders, next)),
        Rel::Concat(rs) => concat_over(finish_all(alloc, rs.as_slice(), tables, binders, next)),
        Rel::Select(es, r) => {
            let operand = finish_operand(alloc, r.get(), tables, binders, next);
            select_over(copy_exprs(alloc, es.as_slice()), operand)
        }
        Rel::Filter(e, r) => {
            let operand = finish_operand(alloc, r.get(), tables, binders, next);
            filter_over(copy_expr(alloc, e), operand)
        }
        Rel::Join(e, r, s) => {
            let left = finish_operand(alloc, r.get(), tables, binders, next);
            let right = finish_operand(alloc, s.get(), tables, binders, next_after(&left));
            join_over(copy_expr(alloc, e), two_made(left, right))
        }
        Rel::DepJoin(scope, r, s) => {
            let source = finish_operand(alloc, r.get(), tables, binders, next);
            let number = next_after(&source);
            let body = finish_run_body(alloc, *scope, s.get(), tables, binders, number);
            depjoin_over(*scope, two_made(source, body))
        }
        Rel::Group(keys, aggs, r) => {
            let operand = finish_operand(alloc, r.get(), tables, binders, next);
            let keys = copy_items(alloc, keys.as_slice());
            group_over(both(keys, copy_items(alloc, aggs.as_slice())), operand)
        }
        Rel::Order(keys, r) => {
            let operand = finish_operand(alloc, r.get(), tables, binders, next);
            order_over(copy_items(alloc, keys.as_slice()), operand)
        }
        Rel::Dedup(r) => dedup_over(finish_operand(alloc, r.get(), tables, binders, next)),
        Rel::List(scope, r, s) => {
            let body = finish_body(alloc, *scope, s.get(), tables, binders, next);
            list_over(*scope, boxed(alloc, copy(alloc, r.get())), body)
        }
        Rel::Hash(scope, r, s, es) => {
            let body = finish_body(alloc, *scope, s.get(), tables, binders, next);
            let source = boxed(alloc, copy(alloc, r.get()));
            hash_over(*scope, both(source, copy_exprs(alloc, es.as_slice())), body)
        }
        Rel::Ord(scope, r, s, lo, hi) => {
            let body = finish_body(alloc, *scope, s.get(), tables, binders, next);
            let source = boxed(alloc, copy(alloc, r.get()));
            let bounds = both(copy_bound(alloc, lo), copy_bound(alloc, hi));
            ord_over(*scope, both(source, bounds), body)
        }
    }
}

fn scalar_copy(e: Copied<Expr>, next: u64) -> Made<Rel>
    ensures { MatchResult result (λ made. IsOkAnd e (λ e. made ≡ (Scalar e, next))) (λ why. why ≡ error.Memory) }
{
    match e {
        Ok(e) => Ok((Rel::Scalar(e), next)),
        Err(_) => Err(StepError::Memory),
    }
}

/// What becomes of an operand.
#[cycle(finish_under)]
fn finish_operand(
    alloc: Global,
    operand: &Rel,
    tables: &[Items<Ty>],
    binders: &Binders<'_>,
    next: u64,
) -> Made<Boxed<Rel>>
    requires { next ≤ 2 ^ 32 }
    ensures { GivesMade (finished tables.now operand.now (run_scopes_of binders.now) next) result }
{
    boxed_made(alloc, finish_under(alloc, operand, tables, binders, next))
}

/// What becomes of the body of a layout, whose scope is no run scope.
#[cycle(finish_under)]
fn finish_body<'b>(
    alloc: Global,
    scope: u32,
    body: &Rel,
    tables: &[Items<Ty>],
    binders: &'b Binders<'b>,
    next: u64,
) -> Made<Boxed<Rel>>
    requires { next ≤ 2 ^ 32 }
    ensures { GivesMade (finished tables.now body.now (with_scope false (run_scopes_of binders.now) scope) next) result }
{
    finish_operand(alloc, body, tables, &Binders::Build(scope, binders), next)
}

/// What becomes of the body of a dependent join, whose scope is a run scope.
#[cycle(finish_under)]
fn finish_run_body<'b>(
    alloc: Global,
    scope: u32,
    body: &Rel,
    tables: &[Items<Ty>],
    binders: &'b Binders<'b>,
    next: u64,
) -> Made<Boxed<Rel>>
    requires { next ≤ 2 ^ 32 }
    ensures { GivesMade (finished tables.now body.now (with_scope true (run_scopes_of binders.now) scope) next) result }
{
    finish_operand(alloc, body, tables, &Binders::Run(scope, binders), next)
}

/// What becomes of operands, the first numbered first.
#[cycle(finish_under)]
fn finish_all(
    alloc: Global,
    operands: &[Rel],
    tables: &[Items<Ty>],
    binders: &Binders<'_>,
    next: u64,
) -> Made<Items<Rel>>
    requires { next ≤ 2 ^ 32 }
    ensures { GivesMade (over_all (map (finished tables.now) operands.now) (run_scopes_of binders.now) next) result }
{
    let mut made = Items::new(alloc);
    let mut number = next;
    for operand in operands {
        match finish_under(alloc, operand, tables, binders, number) {
            Ok((operand, after)) => {
                made.push(operand)?;
                number = after;
            }
            Err(why) => return Err(why),
        }
    }
    Ok((made, number))
}

fn copy_items<T: Copy>(alloc: Global, items: &[T]) -> Result<Items<T>, Memory>
    ensures { IfOk result (λ copies. copies ≡ items.now) }
{
    Ok(Items::from_slice(alloc, items)?)
}
