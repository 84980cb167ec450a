//! The column types of relations.

ghost use Rattle.std.specs.Prelude.{◌≡◌, ◌++◌, [], ◌∷◌, map, IfOk, OnOk, slice_get, option_and_then, option_map, Some, nat_lt};
ghost use Rattle.std.specs.List.{flat_map, list_all};
ghost use Rattle.std.specs.Option.{ok_or};
ghost use Rattle.castor_val.specs.Gives.{Gives};
ghost use Rattle.castor_alg.specs.TypeEnvs.{context_of};
ghost use Rattle.castor_alg.specs.Typing.{aggregate_type, allowed, are_hash_keys, are_sorting_keys, column_types, common_types, cross_types, each, extended, group_types, is_bound, is_of, is_range, same_types, type_under, types_of_each, types_under, with_both, within_limits};
ghost use Rattle.castor_alg.specs.declared.typing.TypeError.TheVariants as error;
ghost use Rattle.castor_val.specs.declared.value.Ty.TheVariants.{Bool as Truth};

use crate::context::Context;
use crate::expr::Expr;
use crate::expr_typing::{are_columns, expr_type_in, is_context, is_of};
use crate::rel::{Agg, Bound, Key, Rel};
use crate::type_env::{TypeEnv, type_at};
use castor_val::{MAX_HASH_COLUMNS, MAX_SORTING_KEYS, Memory, Ty};
use std::alloc::{AllocError, AllocFailed, Global};

/// Why a relation has no column types.
#[derive(Clone, Copy, Debug, PartialEq, Eq)]
pub enum TypeError {
    /// The relation isn't well typed under the context.
    Ill,
    /// There was no memory for the types.
    Memory,
}

impl From<Memory> for TypeError {
    ghost use Rattle.castor_alg.specs.declared.typing.TypeError.TheVariants.{Memory};

    ghost from_gives = { λ _ e. e ≡ Memory };

    fn from(_: Memory) -> TypeError {
        TypeError::Memory
    }
}

impl From<AllocError> for TypeError {
    ghost use Rattle.castor_alg.specs.declared.typing.TypeError.TheVariants.{Memory};

    ghost from_gives = { λ _ e. e ≡ Memory };

    fn from(_: AllocError) -> TypeError {
        TypeError::Memory
    }
}

impl<T: Drop> From<AllocFailed<T>> for TypeError {
    ghost use Rattle.castor_alg.specs.declared.typing.TypeError.TheVariants.{Memory};

    ghost from_gives = { λ _ e. e ≡ Memory };

    fn from(_: AllocFailed<T>) -> TypeError {
        TypeError::Memory
    }
}

/// The column types of a relation under a context. `Ill` comes exactly where it isn't well typed there.
/// Linear in the tree times the number of columns, the scopes in force for each node that reads one, and
/// the context.
pub fn type_of(alloc: Global, query: &Rel, context: &Context) -> Result<Vec<Ty>, TypeError>
    ensures { Gives (λ types. types.items) error.Memory (ok_or (column_types query.now context.now) error.Ill) result }
{
    if is_context(context) {
        types_in(alloc, query, &TypeEnv::Outer(context))
    } else {
        Err(TypeError::Ill)
    }
}

/// The column types of a relation in the body of binders, if the context is within limits. `Ill` comes
/// exactly where the relation isn't well typed there. Linear in the tree times the number of columns,
/// and the scopes in force for each node that reads one.
#[cycle(types_in)]
pub fn types_in(alloc: Global, query: &Rel, env: &TypeEnv<'_>) -> Result<Vec<Ty>, TypeError>
    ensures { Gives (λ types. types.items) error.Memory (ok_or (types_under query.now (context_of env.now)) error.Ill) result }
{
    match query {
        Rel::Table(at) => table_types(alloc, *at, env),
        Rel::Scalar(e) => scalar_types(alloc, e, env),
        Rel::Cross(rs) => match types_of_all(alloc, rs.as_slice(), env) {
            Ok(operands) => cross_types(alloc, operands.as_slice()),
            Err(why) => Err(why),
        },
        Rel::Concat(rs) => match types_of_all(alloc, rs.as_slice(), env) {
            Ok(operands) => common_types(alloc, operands.as_slice()),
            Err(why) => Err(why),
        },
        Rel::Select(es, r) => {
            let columns = types_in(alloc, r.get(), env)?;
            within_limits(types_of_each(alloc, es.as_slice(), columns.as_slice(), env)?)
        }
        Rel::Filter(e, r) => filter_types(types_in(alloc, r.get(), env)?, e, env),
        Rel::Join(e, r, s) => {
            let left = types_in(alloc, r.get(), env)?;
            let right = types_in(alloc, s.get(), env)?;
            join_types(left, right, e, env)
        }
        Rel::DepJoin(scope, r, s) => {
            let columns = types_in(alloc, r.get(), env)?;
            body_types(alloc, *scope, columns.as_slice(), s.get(), &*env)
        }
        Rel::Group(keys, aggs, r) => {
            let columns = types_in(alloc, r.get(), env)?;
            group_types(alloc, keys.as_slice(), aggs.as_slice(), columns.as_slice())
        }
        Rel::Order(keys, r) => order_types(types_in(alloc, r.get(), env)?, keys.as_slice()),
        Rel::Dedup(r) => types_in(alloc, r.get(), env),
        Rel::List(scope, r, s) => {
            let columns = types_in(alloc, r.get(), env)?;
            body_types(alloc, *scope, columns.as_slice(), s.get(), &*env)
        }
        Rel::Hash(scope, r, s, es) => {
            let columns = types_in(alloc, r.get(), env)?;
            let keys = types_of_each(alloc, es.as_slice(), &[], env)?;
            if are_hash_keys(columns.as_slice(), keys.as_slice()) {
                body_types(alloc, *scope, columns.as_slice(), s.get(), &*env)
            } else {
                Err(TypeError::Ill)
            }
        }
        Rel::Ord(scope, r, s, lo, hi) => {
            let columns = types_in(alloc, r.get(), env)?;
            if is_range(columns.as_slice(), lo, hi, env) {
                body_types(alloc, *scope, columns.as_slice(), s.get(), &*env)
            } else {
                Err(TypeError::Ill)
            }
        }
    }
}

/// The column types of relations.
#[cycle(types_in)]
fn types_of_all(
    alloc: Global,
    queries: &[Rel],
    env: &TypeEnv<'_>,
) -> Result<Vec<Vec<Ty>>, TypeError>
    ensures { Gives (λ all. map (λ types. types.items) all.items) error.Memory (ok_or (each (map (λ query. types_under query (context_of env.now)) queries.now)) error.Ill) result }
{
    let mut all = Vec::new(alloc);
    for query in queries {
        match types_in(alloc, query, env) {
            Ok(types) => all.push(types)?,
            Err(why) => return Err(why),
        }
    }
    Ok(all)
}

/// The column types of a body under a row of these types.
#[cycle(types_in)]
fn body_types<'e>(
    alloc: Global,
    scope: u32,
    columns: &'e [Ty],
    body: &Rel,
    env: &'e TypeEnv<'e>,
) -> Result<Vec<Ty>, TypeError>
    ensures { Gives (λ types. types.items) error.Memory (ok_or (types_under body.now (extended (context_of env.now) scope columns.now)) error.Ill) result }
{
    types_in(alloc, body, &TypeEnv::Bind(scope, columns, env))
}

fn table_types(alloc: Global, at: u32, env: &TypeEnv<'_>) -> Result<Vec<Ty>, TypeError>
    ensures { Gives (λ types. types.items) error.Memory (ok_or (slice_get (context_of env.now).tables at) error.Ill) result }
{
    match env.outer().tables.as_slice().get(at as usize) {
        Some(types) => Ok(Vec::from_slice(alloc, types.as_slice())?),
        None => Err(TypeError::Ill),
    }
}

fn scalar_types(alloc: Global, e: &Expr, env: &TypeEnv<'_>) -> Result<Vec<Ty>, TypeError>
    ensures { Gives (λ types. types.items) error.Memory (ok_or (option_map (λ t. t ∷ []) (type_under e.now [] (context_of env.now))) error.Ill) result }
{
    match expr_type_in(e, &[], env) {
        Some(ty) => {
            let mut types = Vec::new(alloc);
            types.push(ty)?;
            Ok(types)
        }
        None => Err(TypeError::Ill),
    }
}

/// The column types of all operands, one after the other.
fn cross_types(alloc: Global, operands: &[Vec<Ty>]) -> Result<Vec<Ty>, TypeError>
    ensures { Gives (λ types. types.items) error.Memory (ok_or (within_limits (Some (flat_map (λ types. types) (map (λ types. types.items) operands.now)))) error.Ill) result }
{
    let mut columns = Vec::new(alloc);
    for types in operands {
        columns.extend_from_slice(types.as_slice())?;
    }
    within_limits(columns)
}

/// The column types of the first operand, where all have the same.
fn common_types(alloc: Global, operands: &[Vec<Ty>]) -> Result<Vec<Ty>, TypeError>
    ensures { Gives (λ types. types.items) error.Memory (ok_or (common_types (map (λ types. types.items) operands.now)) error.Ill) result }
{
    match operands.first() {
        Some(first) => {
            if have_all_types(operands, first.as_slice()) {
                Ok(Vec::from_slice(alloc, first.as_slice())?)
            } else {
                Err(TypeError::Ill)
            }
        }
        None => Err(TypeError::Ill),
    }
}

fn have_all_types(operands: &[Vec<Ty>], types: &[Ty]) -> bool
    ensures { result ≡ list_all (λ other. same_types types.now other.items) operands.now }
{
    operands
        .iter()
        .all(|other| are_same_types(types, other.as_slice()))
}

/// The types of expressions.
fn types_of_each(
    alloc: Global,
    es: &[Expr],
    columns: &[Ty],
    env: &TypeEnv<'_>,
) -> Result<Vec<Ty>, TypeError>
    ensures { Gives (λ types. types.items) error.Memory (ok_or (types_of_each es.now columns.now (context_of env.now)) error.Ill) result }
{
    let mut types = Vec::new(alloc);
    for e in es {
        match expr_type_in(e, columns, env) {
            Some(ty) => types.push(ty)?,
            None => return Err(TypeError::Ill),
        }
    }
    Ok(types)
}

fn filter_types(columns: Vec<Ty>, condition: &Expr, env: &TypeEnv<'_>) -> Result<Vec<Ty>, TypeError>
    ensures { Gives (λ types. types.items) error.Memory (ok_or (allowed (is_of Truth (type_under condition.now columns.items (context_of env.now))) columns.items) error.Ill) result }
{
    if is_of(Ty::Bool, expr_type_in(condition, columns.as_slice(), env)) {
        Ok(columns)
    } else {
        Err(TypeError::Ill)
    }
}

fn join_types(
    left: Vec<Ty>,
    right: Vec<Ty>,
    condition: &Expr,
    env: &TypeEnv<'_>,
) -> Result<Vec<Ty>, TypeError>
    ensures { Gives (λ types. types.items) error.Memory (ok_or (option_and_then (λ columns. allowed (is_of Truth (type_under condition.now columns (context_of env.now))) columns) (cross_types (Some left.items ∷ Some right.items ∷ []))) error.Ill) result }
{
    let mut columns = left;
    columns.extend_from_slice(right.as_slice())?;
    filter_types(within_limits(columns)?, condition, env)
}

fn group_types(
    alloc: Global,
    keys: &[u32],
    aggs: &[Agg],
    columns: &[Ty],
) -> Result<Vec<Ty>, TypeError>
    ensures { Gives (λ types. types.items) error.Memory (ok_or (group_types keys.now aggs.now columns.now) error.Ill) result }
{
    let mut types = key_types(alloc, keys, columns)?;
    let values = aggregate_types(alloc, aggs, columns)?;
    types.extend_from_slice(values.as_slice())?;
    within_limits(types)
}

fn key_types(alloc: Global, keys: &[u32], columns: &[Ty]) -> Result<Vec<Ty>, TypeError>
    ensures { Gives (λ types. types.items) error.Memory (ok_or (each (map (λ k. slice_get columns.now k) keys.now)) error.Ill) result }
{
    let mut types = Vec::new(alloc);
    for key in keys {
        match type_at(columns, *key) {
            Some(ty) => types.push(ty)?,
            None => return Err(TypeError::Ill),
        }
    }
    Ok(types)
}

fn aggregate_types(alloc: Global, aggs: &[Agg], columns: &[Ty]) -> Result<Vec<Ty>, TypeError>
    ensures { Gives (λ types. types.items) error.Memory (ok_or (each (map (aggregate_type columns.now) aggs.now)) error.Ill) result }
{
    let mut types = Vec::new(alloc);
    for agg in aggs {
        match aggregate_type(columns, *agg) {
            Some(ty) => types.push(ty)?,
            None => return Err(TypeError::Ill),
        }
    }
    Ok(types)
}

fn aggregate_type(columns: &[Ty], agg: Agg) -> Option<Ty>
    ensures { result ≡ aggregate_type columns.now agg }
{
    match agg {
        Agg::Count => Some(Ty::Int),
        Agg::Sum(at) => {
            if is_of(Ty::Int, type_at(columns, at)) {
                Some(Ty::Int)
            } else {
                None
            }
        }
        Agg::Min(at) => type_at(columns, at),
        Agg::Max(at) => type_at(columns, at),
    }
}

fn order_types(columns: Vec<Ty>, keys: &[Key]) -> Result<Vec<Ty>, TypeError>
    ensures { Gives (λ types. types.items) error.Memory (ok_or (allowed (are_sorting_keys keys.now columns.items) columns.items) error.Ill) result }
{
    if are_sorting_keys(keys, columns.as_slice()) {
        Ok(columns)
    } else {
        Err(TypeError::Ill)
    }
}

/// Whether there are 1 to 65,535 keys, each on a column that is there.
fn are_sorting_keys(keys: &[Key], columns: &[Ty]) -> bool
    ensures { result ≡ are_sorting_keys keys.now columns.now }
{
    !keys.is_empty() && keys.len() <= MAX_SORTING_KEYS && are_on_columns(keys, columns.len())
}

fn are_on_columns(keys: &[Key], width: usize) -> bool
    ensures { result ≡ list_all (λ key. nat_lt key.col width) keys.now }
{
    keys.iter().all(|key| (key.col as usize) < width)
}

/// Whether there are at most 4 key columns, and keys of their types.
fn are_hash_keys(columns: &[Ty], keys: &[Ty]) -> bool
    ensures { result ≡ are_hash_keys columns.now (Some keys.now) }
{
    columns.len() <= MAX_HASH_COLUMNS && are_same_types(columns, keys)
}

/// Whether there is one column, and bounds of its type.
fn is_range(columns: &[Ty], lo: &Bound, hi: &Bound, env: &TypeEnv<'_>) -> bool
    ensures { result ≡ is_range columns.now lo.now hi.now (context_of env.now) }
{
    match columns {
        [ty] => is_bound(*ty, lo, env) && is_bound(*ty, hi, env),
        _ => false,
    }
}

fn is_bound(ty: Ty, bound: &Bound, env: &TypeEnv<'_>) -> bool
    ensures { result ≡ is_bound ty bound.now (context_of env.now) }
{
    match bound {
        Bound::Any => true,
        Bound::Incl(e) => is_of(ty, expr_type_in(e, &[], env)),
        Bound::Excl(e) => is_of(ty, expr_type_in(e, &[], env)),
    }
}

/// The types, where they are 1 to 64.
fn within_limits(types: Vec<Ty>) -> Result<Vec<Ty>, TypeError>
    ensures { Gives (λ types. types.items) error.Memory (ok_or (within_limits (Some types.items)) error.Ill) result }
{
    if are_columns(types.as_slice()) {
        Ok(types)
    } else {
        Err(TypeError::Ill)
    }
}

fn are_same_types(a: &[Ty], b: &[Ty]) -> bool
    ensures { result ≡ same_types a.now b.now }
{
    a == b
}
