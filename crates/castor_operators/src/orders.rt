//! `orderby`.

ghost use Rattle.std.specs.Prelude.{◌≡◌, IfOk};
ghost use Rattle.castor_val.specs.Gives.{Gives};
ghost use Rattle.castor_alg.specs.declared.rel.Rel as core;
ghost use Rattle.castor_names.specs.declared.error.SchemaError.TheVariants as error;
ghost use Rattle.castor_operators.specs.Operators.{order_by_keys, order_by};

use crate::found::Found;
use crate::kept::beside;
use castor_alg::{Key, Rel};
use castor_exprs::sorting_keys;
use castor_names::SchemaError;
use castor_tree::PCol;
use castor_val::{MAX_SORTING_KEYS, Memory};
use sqlite_items::{Boxed, Items};
use std::alloc::Global;

fn order_of(alloc: Global, from: Found, keys: Items<Key>) -> Result<Found, Memory>
    ensures { IfOk result (λ found. found ≡ record { query = core.Order keys from.query; columns = from.columns; next = from.next }) }
{
    let Found {
        query,
        columns,
        next,
    } = from;
    let operand = Boxed::new(alloc, query)?;
    Ok(Found {
        query: Rel::Order(keys, operand),
        columns,
        next,
    })
}

/// `orderby`: at most 65,535 keys.
#[tactic(auto, unfolding(crate::specs::Operators::order_by_keys))]
pub fn order_by_keys(alloc: Global, from: Found, keys: Items<Key>) -> Result<Found, SchemaError>
    ensures { Gives (λ found. found) error.Memory (order_by_keys from keys) result }
{
    if keys.len() > MAX_SORTING_KEYS {
        Err(SchemaError::TooLarge)
    } else {
        Ok(order_of(alloc, from, keys)?)
    }
}

/// `orderby`: keys over the operand's columns.
#[tactic(auto, unfolding(crate::specs::Operators::order_by))]
pub fn order_by(alloc: Global, keys: &[(PCol, bool)], from: Found) -> Result<Found, SchemaError>
    ensures { Gives (λ found. found) error.Memory (order_by keys.now from) result }
{
    let found = sorting_keys(alloc, from.columns.as_slice(), keys);
    let (from, found) = beside(from, found)?;
    order_by_keys(alloc, from, found)
}
