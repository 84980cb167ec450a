//! The column types that operators make of their operands' ones.

ghost use Rattle.std.specs.Prelude.{◌≡◌, ◌∷◌, [], map, nat_lt, slice_get, Some};
ghost use Rattle.std.specs.List.{flat_map, list_all};
ghost use Rattle.std.specs.Option.{ok_or};
ghost use Rattle.castor_val.specs.Gives.{Gives};
ghost use Rattle.castor_alg.specs.Typing.{aggregate_type, allowed, are_sorting_keys, common_types, each, group_types, same_types, within_limits};
ghost use Rattle.castor_alg.specs.declared.typing.TypeError.TheVariants as error;

use castor_alg::expr_typing::{are_columns, is_of};
use castor_alg::type_env::type_at;
use castor_alg::{Agg, Key, TypeError};
use castor_val::{MAX_SORTING_KEYS, Ty};
use std::alloc::Global;

/// The column types of all operands, one after the other.
pub fn cross_types(alloc: Global, operands: &[Vec<Ty>]) -> Result<Vec<Ty>, TypeError>
    ensures { Gives (λ types. types.items) error.Memory (ok_or (within_limits (Some (flat_map (λ types. types) (map (λ types. types.items) operands.now)))) error.Ill) result }
{
    let mut columns = Vec::new(alloc);
    for types in operands {
        columns.extend_from_slice(types.as_slice())?;
    }
    within_limits(columns)
}

/// The column types of the first operand, where all have the same.
pub fn common_types(alloc: Global, operands: &[Vec<Ty>]) -> Result<Vec<Ty>, TypeError>
    ensures { Gives (λ types. types.items) error.Memory (ok_or (common_types (map (λ types. types.items) operands.now)) error.Ill) result }
{
    match operands.first() {
        Some(first) => {
            if have_all_types(operands, first.as_slice()) {
                Ok(Vec::from_slice(alloc, first.as_slice())?)
            } else {
                Err(TypeError::Ill)
            }
        }
        None => Err(TypeError::Ill),
    }
}

fn have_all_types(operands: &[Vec<Ty>], types: &[Ty]) -> bool
    ensures { result ≡ list_all (λ other. same_types types.now other.items) operands.now }
{
    operands
        .iter()
        .all(|other| are_same_types(types, other.as_slice()))
}

pub fn group_types(
    alloc: Global,
    keys: &[u32],
    aggs: &[Agg],
    columns: &[Ty],
) -> Result<Vec<Ty>, TypeError>
    ensures { Gives (λ types. types.items) error.Memory (ok_or (group_types keys.now aggs.now columns.now) error.Ill) result }
{
    let mut types = key_types(alloc, keys, columns)?;
    let values = aggregate_types(alloc, aggs, columns)?;
    types.extend_from_slice(values.as_slice())?;
    within_limits(types)
}

fn key_types(alloc: Global, keys: &[u32], columns: &[Ty]) -> Result<Vec<Ty>, TypeError>
    ensures { Gives (λ types. types.items) error.Memory (ok_or (each (map (λ k. slice_get columns.now k) keys.now)) error.Ill) result }
{
    let mut types = Vec::new(alloc);
    for key in keys {
        match type_at(columns, *key) {
            Some(ty) => types.push(ty)?,
            None => return Err(TypeError::Ill),
        }
    }
    Ok(types)
}

fn aggregate_types(alloc: Global, aggs: &[Agg], columns: &[Ty]) -> Result<Vec<Ty>, TypeError>
    ensures { Gives (λ types. types.items) error.Memory (ok_or (each (map (aggregate_type columns.now) aggs.now)) error.Ill) result }
{
    let mut types = Vec::new(alloc);
    for agg in aggs {
        match aggregate_type(columns, *agg) {
            Some(ty) => types.push(ty)?,
            None => return Err(TypeError::Ill),
        }
    }
    Ok(types)
}

fn aggregate_type(columns: &[Ty], agg: Agg) -> Option<Ty>
    ensures { result ≡ aggregate_type columns.now agg }
{
    match agg {
        Agg::Count => Some(Ty::Int),
        Agg::Sum(at) => {
            if is_of(Ty::Int, type_at(columns, at)) {
                Some(Ty::Int)
            } else {
                None
            }
        }
        Agg::Min(at) => type_at(columns, at),
        Agg::Max(at) => type_at(columns, at),
    }
}

pub fn order_types(columns: Vec<Ty>, keys: &[Key]) -> Result<Vec<Ty>, TypeError>
    ensures { Gives (λ types. types.items) error.Memory (ok_or (allowed (are_sorting_keys keys.now columns.items) columns.items) error.Ill) result }
{
    if are_sorting_keys(keys, columns.as_slice()) {
        Ok(columns)
    } else {
        Err(TypeError::Ill)
    }
}

/// Whether there are 1 to 65,535 keys, each on a column that is there.
fn are_sorting_keys(keys: &[Key], columns: &[Ty]) -> bool
    ensures { result ≡ are_sorting_keys keys.now columns.now }
{
    !keys.is_empty() && keys.len() <= MAX_SORTING_KEYS && are_on_columns(keys, columns.len())
}

fn are_on_columns(keys: &[Key], width: usize) -> bool
    ensures { result ≡ list_all (λ key. nat_lt key.col width) keys.now }
{
    keys.iter().all(|key| (key.col as usize) < width)
}

/// The types, where they are 1 to 64.
pub fn within_limits(types: Vec<Ty>) -> Result<Vec<Ty>, TypeError>
    ensures { Gives (λ types. types.items) error.Memory (ok_or (within_limits (Some types.items)) error.Ill) result }
{
    if are_columns(types.as_slice()) {
        Ok(types)
    } else {
        Err(TypeError::Ill)
    }
}

pub fn are_same_types(a: &[Ty], b: &[Ty]) -> bool
    ensures { result ≡ same_types a.now b.now }
{
    a == b
}
