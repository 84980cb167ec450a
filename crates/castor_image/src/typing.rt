//! The column types of codes.

ghost use Rattle.std.specs.Prelude.{◌≡◌, ◌∷◌, [], map, Some};
ghost use Rattle.std.specs.Option.{ok_or};
ghost use Rattle.castor_val.specs.Gives.{Gives};
ghost use Rattle.castor_alg.specs.TypeEnvs.{context_of};
ghost use Rattle.castor_alg.specs.Typing.{allowed, are_hash_keys, each, extended, is_bound, is_of, is_range, type_under, types_of_each};
ghost use Rattle.castor_alg.specs.declared.typing.TypeError.TheVariants as error;
ghost use Rattle.castor_val.specs.declared.value.Ty.TheVariants.{Bool as Truth};
ghost use Rattle.castor_code.specs.CodeTyping.{code_types};
ghost use Rattle.castor_image.specs.Types.{key_types, looked_up, types_under};

mod lists;

use castor_alg::expr_typing::{expr_type_in, is_context, is_of};
use castor_alg::{Bound, Context, Expr, TypeEnv, TypeError};
use castor_code::Code;
use castor_val::{MAX_HASH_COLUMNS, Ty};
use lists::{are_same_types, common_types, cross_types, group_types, order_types, within_limits};
use std::alloc::Global;

/// The column types of a code under a context. `Ill` comes exactly where it isn't well typed there. Linear in
/// the code times the number of columns, and the scopes in force for each node that reads one.
pub fn code_type(alloc: Global, code: &Code, context: &Context) -> Result<Vec<Ty>, TypeError>
    ensures { Gives (λ types. types.items) error.Memory (ok_or (code_types code.now context.now) error.Ill) result }
{
    if is_context(context) {
        types_in(alloc, code, &TypeEnv::Outer(context))
    } else {
        Err(TypeError::Ill)
    }
}

/// The column types of a code in the body of binders, if the context is within limits.
#[cycle(types_in)]
fn types_in(alloc: Global, code: &Code, env: &TypeEnv<'_>) -> Result<Vec<Ty>, TypeError>
    ensures { Gives (λ types. types.items) error.Memory (ok_or (types_under code.now (context_of env.now)) error.Ill) result }
{
    match code {
        Code::Int { .. } => one(alloc, Ty::Int),
        Code::Bool => one(alloc, Ty::Bool),
        Code::Text { .. } => one(alloc, Ty::Text),
        Code::Cross(kids) => match types_of_all(alloc, kids.as_slice(), env) {
            Ok(operands) => cross_types(alloc, operands.as_slice()),
            Err(why) => Err(why),
        },
        Code::Concat(kids) => match types_of_all(alloc, kids.as_slice(), env) {
            Ok(operands) => common_types(alloc, operands.as_slice()),
            Err(why) => Err(why),
        },
        Code::List { kid, .. } => types_in(alloc, kid.get(), env),
        Code::Hash { key, kid, by, .. } => match key_columns(alloc, key.as_slice(), env) {
            Ok(columns) => kid_types(alloc, columns, kid.get(), by.as_slice(), env),
            Err(why) => Err(why),
        },
        Code::Ord {
            key,
            kid,
            lo,
            hi,
            ..
        } => {
            let columns = types_in(alloc, key.get(), env)?;
            if is_range(columns.as_slice(), lo, hi, env) {
                types_in(alloc, kid.get(), env)
            } else {
                Err(TypeError::Ill)
            }
        }
        Code::Select(es, kid) => {
            let columns = types_in(alloc, kid.get(), env)?;
            within_limits(types_of_each(alloc, es.as_slice(), columns.as_slice(), env)?)
        }
        Code::Filter(e, kid) => filter_types(types_in(alloc, kid.get(), env)?, e, env),
        Code::Dep(scope, first, second) => {
            let columns = types_in(alloc, first.get(), env)?;
            body_types(alloc, *scope, columns.as_slice(), second.get(), &*env)
        }
        Code::Group(keys, aggs, kid) => {
            let columns = types_in(alloc, kid.get(), env)?;
            group_types(alloc, keys.as_slice(), aggs.as_slice(), columns.as_slice())
        }
        Code::Order(keys, kid) => order_types(types_in(alloc, kid.get(), env)?, keys.as_slice()),
        Code::Dedup(kid) => types_in(alloc, kid.get(), env),
    }
}

/// The list of one type.
fn one(alloc: Global, ty: Ty) -> Result<Vec<Ty>, TypeError>
    ensures { Gives (λ types. types.items) error.Memory (ok_or (Some (ty ∷ [])) error.Ill) result }
{
    let mut types = Vec::new(alloc);
    types.push(ty)?;
    Ok(types)
}

/// The column types of codes.
#[cycle(types_in)]
fn types_of_all(alloc: Global, codes: &[Code], env: &TypeEnv<'_>) -> Result<Vec<Vec<Ty>>, TypeError>
    ensures { Gives (λ all. map (λ types. types.items) all.items) error.Memory (ok_or (each (map (λ code. types_under code (context_of env.now)) codes.now)) error.Ill) result }
{
    let mut all = Vec::new(alloc);
    for code in codes {
        match types_in(alloc, code, env) {
            Ok(types) => all.push(types)?,
            Err(why) => return Err(why),
        }
    }
    Ok(all)
}

/// The column types of the codes of a key, one after the other.
#[cycle(types_in)]
fn key_columns(alloc: Global, key: &[Code], env: &TypeEnv<'_>) -> Result<Vec<Ty>, TypeError>
    ensures { Gives (λ types. types.items) error.Memory (ok_or (key_types (each (map (λ code. types_under code (context_of env.now)) key.now))) error.Ill) result }
{
    match types_of_all(alloc, key, env) {
        Ok(operands) => cross_types(alloc, operands.as_slice()),
        Err(why) => Err(why),
    }
}

/// The column types of the kid of a hash index, where what is looked up has the types of the key.
#[cycle(types_in)]
fn kid_types(
    alloc: Global,
    columns: Vec<Ty>,
    kid: &Code,
    by: &[Expr],
    env: &TypeEnv<'_>,
) -> Result<Vec<Ty>, TypeError>
    ensures { Gives (λ types. types.items) error.Memory (ok_or (looked_up columns.items (types_of_each by.now [] (context_of env.now)) (types_under kid.now (context_of env.now))) error.Ill) result }
{
    match types_of_each(alloc, by, &[], env) {
        Ok(keys) => {
            if are_hash_keys(columns.as_slice(), keys.as_slice()) {
                types_in(alloc, kid, env)
            } else {
                Err(TypeError::Ill)
            }
        }
        Err(why) => Err(why),
    }
}

/// The column types of a body under a row of these types.
#[cycle(types_in)]
fn body_types<'e>(
    alloc: Global,
    scope: u32,
    columns: &'e [Ty],
    body: &Code,
    env: &'e TypeEnv<'e>,
) -> Result<Vec<Ty>, TypeError>
    ensures { Gives (λ types. types.items) error.Memory (ok_or (types_under body.now (extended (context_of env.now) scope columns.now)) error.Ill) result }
{
    types_in(alloc, body, &TypeEnv::Bind(scope, columns, env))
}

/// The types of expressions.
fn types_of_each(
    alloc: Global,
    es: &[Expr],
    columns: &[Ty],
    env: &TypeEnv<'_>,
) -> Result<Vec<Ty>, TypeError>
    ensures { Gives (λ types. types.items) error.Memory (ok_or (types_of_each es.now columns.now (context_of env.now)) error.Ill) result }
{
    let mut types = Vec::new(alloc);
    for e in es {
        match expr_type_in(e, columns, env) {
            Some(ty) => types.push(ty)?,
            None => return Err(TypeError::Ill),
        }
    }
    Ok(types)
}

fn filter_types(columns: Vec<Ty>, condition: &Expr, env: &TypeEnv<'_>) -> Result<Vec<Ty>, TypeError>
    ensures { Gives (λ types. types.items) error.Memory (ok_or (allowed (is_of Truth (type_under condition.now columns.items (context_of env.now))) columns.items) error.Ill) result }
{
    if is_of(Ty::Bool, expr_type_in(condition, columns.as_slice(), env)) {
        Ok(columns)
    } else {
        Err(TypeError::Ill)
    }
}

/// Whether there are at most 4 key columns, and keys of their types.
fn are_hash_keys(columns: &[Ty], keys: &[Ty]) -> bool
    ensures { result ≡ are_hash_keys columns.now (Some keys.now) }
{
    columns.len() <= MAX_HASH_COLUMNS && are_same_types(columns, keys)
}

/// Whether there is one column, and bounds of its type.
fn is_range(columns: &[Ty], lo: &Bound, hi: &Bound, env: &TypeEnv<'_>) -> bool
    ensures { result ≡ is_range columns.now lo.now hi.now (context_of env.now) }
{
    match columns {
        [ty] => is_bound(*ty, lo, env) && is_bound(*ty, hi, env),
        _ => false,
    }
}

fn is_bound(ty: Ty, bound: &Bound, env: &TypeEnv<'_>) -> bool
    ensures { result ≡ is_bound ty bound.now (context_of env.now) }
{
    match bound {
        Bound::Any => true,
        Bound::Incl(e) => is_of(ty, expr_type_in(e, &[], env)),
        Bound::Excl(e) => is_of(ty, expr_type_in(e, &[], env)),
    }
}
