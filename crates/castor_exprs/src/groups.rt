//! The lists of `groupby` and `orderby`, in which names are those of columns alone.

ghost use Rattle.std.specs.Prelude.{◌≡◌, []};
ghost use Rattle.std.specs.List.{list_all};
ghost use Rattle.castor_val.specs.Gives.{Gives};
ghost use Rattle.castor_names.specs.Names.{the_column};
ghost use Rattle.castor_exprs.specs.Groups.{aggregate_found, grouping_found, sorting_keys, sums_ints, with_aggregate, with_group_key};
ghost use Rattle.castor_names.specs.Turns.{in_order};
ghost use Rattle.castor_names.specs.declared.error.SchemaError.TheVariants as error;

use crate::types::is_same_type;
use castor_alg::{Agg, Key};
use castor_names::{NamedColumn, SchemaError, called_or_numbered, column_number};
use castor_tree::{PAgg, PCol, Word};
use castor_val::Ty;
use sqlite_items::{Items, at};
use std::alloc::Global;

/// The keys and the aggregates of a grouping, and the columns that they put out.
#[derive(Drop)]
pub struct Grouping {
    pub keys: Items<u32>,
    pub aggs: Items<Agg>,
    pub columns: Items<NamedColumn>,
}

/// An aggregate and its type.
#[derive(Clone, Copy)]
pub struct Aggregate {
    pub agg: Agg,
    pub ty: Ty,
}

fn the_column(columns: &[NamedColumn], number: u32) -> Result<&NamedColumn, SchemaError>
    ensures { Gives (λ column. column.now) error.Memory (the_column columns.now number) result }
{
    match at(columns, number as usize) {
        Some(column) => Ok(column),
        None => Err(SchemaError::UnknownColumn),
    }
}

#[tactic(auto, unfolding(crate::specs::Groups::with_group_key))]
fn with_group_key(
    alloc: Global,
    from: &[NamedColumn],
    mut found: Grouping,
    key: &PCol,
) -> Result<Grouping, SchemaError>
    ensures { Gives (λ found. found) error.Memory (with_group_key from.now found key.now) result }
{
    let number = column_number(from, key)?;
    let column = the_column(from, number)?.copy(alloc)?;
    found.keys.push(number)?;
    found.columns.push(column)?;
    Ok(found)
}

#[tactic(auto, unfolding(crate::specs::Groups::aggregate_found))]
fn aggregate_found(from: &[NamedColumn], agg: &PAgg) -> Result<Aggregate, SchemaError>
    ensures { Gives (λ one. one) error.Memory (aggregate_found from.now agg.now) result }
{
    match agg {
        PAgg::Count => Ok(Aggregate {
            agg: Agg::Count,
            ty: Ty::Int,
        }),
        PAgg::Sum(col) => Ok(Aggregate {
            agg: Agg::Sum(column_number(from, col)?),
            ty: Ty::Int,
        }),
        PAgg::Min(col) => {
            let number = column_number(from, col)?;
            Ok(Aggregate {
                agg: Agg::Min(number),
                ty: the_column(from, number)?.ty,
            })
        }
        PAgg::Max(col) => {
            let number = column_number(from, col)?;
            Ok(Aggregate {
                agg: Agg::Max(number),
                ty: the_column(from, number)?.ty,
            })
        }
    }
}

#[tactic(auto, unfolding(crate::specs::Groups::with_aggregate))]
fn with_aggregate(
    alloc: Global,
    from: &[NamedColumn],
    mut found: Grouping,
    agg: &PAgg,
    name: &Option<Word>,
) -> Result<Grouping, SchemaError>
    ensures { Gives (λ found. found) error.Memory (with_aggregate from.now found (agg.now, name.now)) result }
{
    let one = aggregate_found(from, agg)?;
    let column = called_or_numbered(alloc, name, found.columns.len(), one.ty)?;
    found.aggs.push(one.agg)?;
    found.columns.push(column)?;
    Ok(found)
}

fn with_group_keys(
    alloc: Global,
    from: &[NamedColumn],
    keys: &[PCol],
) -> Result<Grouping, SchemaError>
    ensures { Gives (λ found. found) error.Memory (in_order (with_group_key from.now) (record { keys = []; aggs = []; columns = [] }) keys.now) result }
{
    let mut found = Grouping {
        keys: Items::new(alloc),
        aggs: Items::new(alloc),
        columns: Items::new(alloc),
    };
    for key in keys {
        found = with_group_key(alloc, from, found, key)?;
    }
    Ok(found)
}

/// The keys of a grouping, then its aggregates, over the columns of a relation, or the first refusal.
#[tactic(auto, unfolding(crate::specs::Groups::grouping_found))]
pub fn grouping_found(
    alloc: Global,
    from: &[NamedColumn],
    keys: &[PCol],
    aggs: &[(PAgg, Option<Word>)],
) -> Result<Grouping, SchemaError>
    ensures { Gives (λ found. found) error.Memory (grouping_found from.now keys.now aggs.now) result }
{
    let mut found = with_group_keys(alloc, from, keys)?;
    for (agg, name) in aggs {
        found = with_aggregate(alloc, from, found, agg, name)?;
    }
    Ok(found)
}

/// Whether each sum is over an int column. Linear in the number of aggregates.
pub fn all_sum_ints(from: &[NamedColumn], aggs: &[Agg]) -> bool
    ensures { result ≡ list_all (sums_ints from.now) aggs.now }
{
    aggs.iter().all(|agg| sums_ints(from, *agg))
}

#[tactic(auto, unfolding(crate::specs::Groups::sums_ints))]
fn sums_ints(from: &[NamedColumn], agg: Agg) -> bool
    ensures { result ≡ sums_ints from.now agg }
{
    match agg {
        Agg::Sum(place) => match at(from, place as usize) {
            Some(column) => is_same_type(Ty::Int, column.ty),
            None => false,
        },
        Agg::Count | Agg::Min(_) | Agg::Max(_) => true,
    }
}

/// Sorting keys over the columns of a relation, or the first refusal.
#[tactic(auto, unfolding(crate::specs::Groups::sorting_keys))]
pub fn sorting_keys(
    alloc: Global,
    from: &[NamedColumn],
    keys: &[(PCol, bool)],
) -> Result<Items<Key>, SchemaError>
    ensures { Gives (λ found. found) error.Memory (sorting_keys from.now keys.now) result }
{
    let mut found = Items::new(alloc);
    for (col, desc) in keys {
        let number = column_number(from, col)?;
        found.push(Key {
            col: number,
            desc: *desc,
        })?;
    }
    Ok(found)
}
