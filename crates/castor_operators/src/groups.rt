//! `groupby`.

ghost use Rattle.std.specs.Prelude.{◌≡◌};
ghost use Rattle.castor_val.specs.Gives.{Gives};
ghost use Rattle.castor_alg.specs.declared.rel.Rel as core;
ghost use Rattle.castor_names.specs.declared.error.SchemaError.TheVariants as error;
ghost use Rattle.castor_operators.specs.Operators.{limited, is_no_grouping, summed_by, grouped_by, grouped};

use crate::found::{Found, limited};
use crate::kept::beside;
use castor_alg::{Agg, Rel, both, boxed};
use castor_exprs::{Grouping, all_sum_ints, grouping_found};
use castor_names::SchemaError;
use castor_tree::{PAgg, PCol, Word};
use std::alloc::Global;

fn is_no_grouping(keys: &[u32], aggs: &[Agg]) -> bool
    ensures { result ≡ is_no_grouping keys.now aggs.now }
{
    match keys {
        [] => aggs.is_empty(),
        [_, ..] => false,
    }
}

fn group_of(alloc: Global, from: Found, found: Grouping) -> Result<Found, SchemaError>
    ensures { Gives (λ found. found) error.Memory (limited (core.Group found.keys found.aggs from.query) found.columns from.next) result }
{
    let Found {
        query,
        columns: _,
        next,
    } = from;
    let Grouping {
        keys,
        aggs,
        columns,
    } = found;
    let ((keys, aggs), operand) = both(Ok((keys, aggs)), boxed(alloc, Ok(query)))?;
    limited(Rel::Group(keys, aggs, operand), columns, next)
}

#[tactic(auto, unfolding(crate::specs::Operators::summed_by))]
fn summed_by(alloc: Global, from: Found, found: Grouping) -> Result<Found, SchemaError>
    ensures { Gives (λ found. found) error.Memory (summed_by from found) result }
{
    if all_sum_ints(from.columns.as_slice(), found.aggs.as_slice()) {
        group_of(alloc, from, found)
    } else {
        Err(SchemaError::TypeMismatch)
    }
}

/// `groupby`: a key or an aggregate, and sums of ints.
#[tactic(auto, unfolding(crate::specs::Operators::grouped_by))]
fn grouped_by(alloc: Global, from: Found, found: Grouping) -> Result<Found, SchemaError>
    ensures { Gives (λ found. found) error.Memory (grouped_by from found) result }
{
    if is_no_grouping(found.keys.as_slice(), found.aggs.as_slice()) {
        Err(SchemaError::WrongCount)
    } else {
        summed_by(alloc, from, found)
    }
}

/// `groupby`: keys and aggregates over the operand's columns.
#[tactic(auto, unfolding(crate::specs::Operators::grouped))]
pub fn grouped(
    alloc: Global,
    keys: &[PCol],
    aggs: &[(PAgg, Option<Word>)],
    from: Found,
) -> Result<Found, SchemaError>
    ensures { Gives (λ found. found) error.Memory (grouped keys.now aggs.now from) result }
{
    let found = grouping_found(alloc, from.columns.as_slice(), keys, aggs);
    let (from, found) = beside(from, found)?;
    grouped_by(alloc, from, found)
}
