//! Codes for what is held, place by place.

ghost use Rattle.std.specs.Prelude.{◌≡◌, ◌++◌, ◌∷◌, IfOk, IsOkAnd, [], map, slice_get};
ghost use Rattle.castor_alg.specs.TypeEnvs.{context_of};
ghost use Rattle.castor_alg.specs.Typing.{extended, types_under};
ghost use Rattle.castor_code.specs.LayoutMeaning.{all_in};
ghost use Rattle.castor_ltype.specs.Generation as generation;
ghost use Rattle.castor_ltype.specs.Places as place;
ghost use Rattle.castor_ltype.specs.Sizes.{IsLaid, added, key_size, parts_size};

use crate::arms::{
    concat_of, cross_of, dedup_of, depjoin_of, filter_of, group_of, hash_of, list_of, no_code,
    ord_of, order_of, scalar_of, select_of,
};
use crate::keys::{key_columns, with_part};
use crate::laid::{Laid, LaidParts};
use crate::places::{children, entries, inners, key_values, kids, parts};
use crate::scalars::scalar;
use crate::sizes::no_sizes;
use castor_alg::typing::types_in;
use castor_alg::{Bound, Entry, Expr, Held, Rel, TypeEnv, TypeError, both};
use castor_val::{Memory, Ty};
use sqlite_items::Items;
use std::alloc::Global;

/// The code for all that stands at one place, in the body of binders, and the size of each.
#[cycle(lay)]
pub fn lay<'a>(
    alloc: Global,
    q: &Rel,
    held: &[&'a Held],
    nothing: &'a Held,
    env: &TypeEnv<'_>,
) -> Result<Laid, Memory>
    requires { nothing.now ≡ place.nothing }
    ensures { IfOk result (IsLaid (generation.code_over q.now (context_of env.now) (map (λ h. h.now) held.now)) (map (λ h. h.now) held.now)) }
{
    match q {
        Rel::Table(_) => no_code(alloc, held),
        Rel::Scalar(e) => scalar_of(alloc, e, held, env),
        Rel::Cross(rs) => cross_of(lay_parts(alloc, rs.as_slice(), held, nothing, env)),
        Rel::Concat(rs) => concat_of(lay_parts(alloc, rs.as_slice(), held, nothing, env)),
        Rel::Select(es, r) => {
            let kid = lay_inner(alloc, r.get(), held, nothing, env);
            select_of(alloc, es.as_slice(), kid)
        }
        Rel::Filter(e, r) => {
            let kid = lay_inner(alloc, r.get(), held, nothing, env);
            filter_of(alloc, e, kid)
        }
        Rel::Join(_, _, _) => no_code(alloc, held),
        Rel::DepJoin(k, r, s) => {
            let columns = columns(alloc, r.get(), env)?;
            let first = lay_part(alloc, 0, r.get(), held, nothing, env);
            let second = lay_second(alloc, *k, columns.as_slice(), s.get(), held, nothing, &*env);
            depjoin_of(alloc, *k, first, second)
        }
        Rel::Group(ks, aggs, r) => {
            let kid = lay_inner(alloc, r.get(), held, nothing, env);
            group_of(alloc, ks.as_slice(), aggs.as_slice(), kid)
        }
        Rel::Order(ks, r) => {
            let kid = lay_inner(alloc, r.get(), held, nothing, env);
            order_of(alloc, ks.as_slice(), kid)
        }
        Rel::Dedup(r) => dedup_of(alloc, lay_inner(alloc, r.get(), held, nothing, env)),
        Rel::List(k, r, s) => {
            let columns = columns(alloc, r.get(), env)?;
            lay_list(alloc, *k, columns.as_slice(), s.get(), held, nothing, &*env)
        }
        Rel::Hash(k, r, s, es) => {
            let columns = columns(alloc, r.get(), env)?;
            let columns = columns.as_slice();
            lay_hash(
                alloc,
                *k,
                columns,
                s.get(),
                es.as_slice(),
                held,
                nothing,
                &*env,
            )
        }
        Rel::Ord(k, r, s, lo, hi) => {
            let columns = columns(alloc, r.get(), env)?;
            let columns = columns.as_slice();
            lay_ord(alloc, *k, columns, s.get(), lo, hi, held, nothing, &*env)
        }
    }
}

// The column types of a source, and none where it isn't well typed.
fn columns(alloc: Global, r: &Rel, env: &TypeEnv<'_>) -> Result<Vec<Ty>, Memory>
    ensures { IfOk result (λ types. types.items ≡ all_in (types_under r.now (context_of env.now))) }
{
    match types_in(alloc, r, env) {
        Ok(types) => Ok(types),
        Err(TypeError::Ill) => Ok(Vec::new(alloc)),
        Err(TypeError::Memory) => Err(Memory),
    }
}

// The codes of keys by their first column.
fn first_column(alloc: Global, columns: &[Ty], all: &[&Entry]) -> Result<Laid, Memory>
    ensures code { IfOk result (λ key. key.code ≡ generation.scalar_code (slice_get columns.now 0) (map (place.key_value 0) (map (λ e. e.now) all.now))) }
    ensures sizes { IfOk result (λ key. key.sizes.items ≡ map (key_size 0 (key.code ∷ [])) (map (λ e. e.now) all.now)) }
{
    let values = key_values(alloc, 0, all)?;
    Ok(scalar(alloc, columns.first().copied(), values.as_slice())?)
}

// The operand, over what the operands hold.
#[cycle(lay)]
fn lay_inner<'a>(
    alloc: Global,
    r: &Rel,
    held: &[&'a Held],
    nothing: &'a Held,
    env: &TypeEnv<'_>,
) -> Result<Laid, Memory>
    requires { nothing.now ≡ place.nothing }
    ensures { IfOk result (IsLaid (generation.code_over r.now (context_of env.now) (map place.inner (map (λ h. h.now) held.now))) (map place.inner (map (λ h. h.now) held.now))) }
{
    let kids = inners(alloc, held, nothing)?;
    lay(alloc, r, kids.as_slice(), nothing, env)
}

// An operand, over the parts with its number.
#[cycle(lay)]
fn lay_part<'a>(
    alloc: Global,
    at: usize,
    r: &Rel,
    held: &[&'a Held],
    nothing: &'a Held,
    env: &TypeEnv<'_>,
) -> Result<Laid, Memory>
    requires { nothing.now ≡ place.nothing }
    ensures { IfOk result (IsLaid (generation.code_over r.now (context_of env.now) (map (place.part at) (map (λ h. h.now) held.now))) (map (place.part at) (map (λ h. h.now) held.now))) }
{
    let kids = parts(alloc, at, held, nothing)?;
    lay(alloc, r, kids.as_slice(), nothing, env)
}

// No part yet.
fn no_parts(alloc: Global, held: &[&Held]) -> Result<LaidParts, Memory>
    ensures codes { IfOk result (λ laid. laid.codes ≡ []) }
    ensures sizes { IfOk result (λ laid. laid.sizes.items ≡ map (parts_size 0 laid.codes) (map (λ h. h.now) held.now)) }
{
    Ok(LaidParts {
        codes: Items::new(alloc),
        sizes: no_sizes(alloc, held)?,
    })
}

// One part more, where there was memory for all.
fn with_part_of(
    alloc: Global,
    parts: Result<LaidParts, Memory>,
    part: Result<Laid, Memory>,
) -> Result<LaidParts, Memory>
    ensures codes { IfOk result (λ laid. IsOkAnd parts (λ p. IsOkAnd part (λ k. laid.codes ≡ p.codes ++ k.code ∷ []))) }
    ensures sizes { IfOk result (λ laid. IsOkAnd parts (λ p. IsOkAnd part (λ k. laid.sizes.items ≡ added p.sizes.items k.sizes.items))) }
{
    let (parts, part) = both(parts, part)?;
    with_part(alloc, parts, part)
}

#[cycle(lay)]
fn lay_parts<'a>(
    alloc: Global,
    rs: &[Rel],
    held: &[&'a Held],
    nothing: &'a Held,
    env: &TypeEnv<'_>,
) -> Result<LaidParts, Memory>
    requires { nothing.now ≡ place.nothing }
    ensures codes { IfOk result (λ laid. laid.codes ≡ generation.part_codes 0 (map generation.generator rs.now) (context_of env.now) (map (λ h. h.now) held.now)) }
    ensures sizes { IfOk result (λ laid. laid.sizes.items ≡ map (parts_size 0 laid.codes) (map (λ h. h.now) held.now)) }
{
    let mut laid = no_parts(alloc, held);
    let mut at = 0;
    for r in rs {
        let part = lay_part(alloc, at, r, held, nothing, env);
        laid = with_part_of(alloc, laid, part);
        at += 1;
    }
    laid
}

// The body of a binder.
#[cycle(lay)]
fn lay_body<'a, 'e>(
    alloc: Global,
    scope: u32,
    columns: &'e [Ty],
    s: &Rel,
    held: &[&'a Held],
    nothing: &'a Held,
    env: &'e TypeEnv<'e>,
) -> Result<Laid, Memory>
    requires { nothing.now ≡ place.nothing }
    ensures { IfOk result (IsLaid (generation.code_over s.now (extended (context_of env.now) scope columns.now) (map (λ h. h.now) held.now)) (map (λ h. h.now) held.now)) }
{
    let inner = TypeEnv::Bind(scope, columns, env);
    lay(alloc, s, held, nothing, &inner)
}

// The body of a dependent join, over the second parts.
#[cycle(lay)]
fn lay_second<'a, 'e>(
    alloc: Global,
    scope: u32,
    columns: &'e [Ty],
    s: &Rel,
    held: &[&'a Held],
    nothing: &'a Held,
    env: &'e TypeEnv<'e>,
) -> Result<Laid, Memory>
    requires { nothing.now ≡ place.nothing }
    ensures { IfOk result (IsLaid (generation.code_over s.now (extended (context_of env.now) scope columns.now) (map (place.part 1) (map (λ h. h.now) held.now))) (map (place.part 1) (map (λ h. h.now) held.now))) }
{
    let kids = parts(alloc, 1, held, nothing)?;
    lay_body(alloc, scope, columns, s, kids.as_slice(), nothing, env)
}

#[cycle(lay)]
fn lay_list<'a, 'e>(
    alloc: Global,
    scope: u32,
    columns: &'e [Ty],
    s: &Rel,
    held: &[&'a Held],
    nothing: &'a Held,
    env: &'e TypeEnv<'e>,
) -> Result<Laid, Memory>
    requires { nothing.now ≡ place.nothing }
    ensures { IfOk result (IsLaid (generation.list_code (generation.code_over s.now (extended (context_of env.now) scope columns.now)) (map (λ h. h.now) held.now)) (map (λ h. h.now) held.now)) }
{
    let all = children(alloc, held)?;
    let kid = lay_body(alloc, scope, columns, s, all.as_slice(), nothing, env);
    list_of(alloc, held, kid)
}

#[cycle(lay)]
fn lay_hash<'a, 'e>(
    alloc: Global,
    scope: u32,
    columns: &'e [Ty],
    s: &Rel,
    by: &[Expr],
    held: &[&'a Held],
    nothing: &'a Held,
    env: &'e TypeEnv<'e>,
) -> Result<Laid, Memory>
    requires { nothing.now ≡ place.nothing }
    ensures { IfOk result (IsLaid (generation.hash_code columns.now (generation.code_over s.now (extended (context_of env.now) scope columns.now)) by.now (map (λ h. h.now) held.now)) (map (λ h. h.now) held.now)) }
{
    let all = entries(alloc, held)?;
    let kid = lay_under_keys(alloc, scope, columns, s, all.as_slice(), nothing, env);
    let key = key_columns(alloc, columns, all.as_slice());
    hash_of(alloc, held, key, kid, by)
}

#[cycle(lay)]
fn lay_ord<'a, 'e>(
    alloc: Global,
    scope: u32,
    columns: &'e [Ty],
    s: &Rel,
    lo: &Bound,
    hi: &Bound,
    held: &[&'a Held],
    nothing: &'a Held,
    env: &'e TypeEnv<'e>,
) -> Result<Laid, Memory>
    requires { nothing.now ≡ place.nothing }
    ensures { IfOk result (IsLaid (generation.ord_code columns.now (generation.code_over s.now (extended (context_of env.now) scope columns.now)) lo.now hi.now (map (λ h. h.now) held.now)) (map (λ h. h.now) held.now)) }
{
    let all = entries(alloc, held)?;
    let kid = lay_under_keys(alloc, scope, columns, s, all.as_slice(), nothing, env);
    let key = first_column(alloc, columns, all.as_slice());
    ord_of(alloc, held, key, kid, lo, hi)
}

// The body of an index, over what stands under all keys.
#[cycle(lay)]
fn lay_under_keys<'a, 'e>(
    alloc: Global,
    scope: u32,
    columns: &'e [Ty],
    s: &Rel,
    all: &[&'a Entry],
    nothing: &'a Held,
    env: &'e TypeEnv<'e>,
) -> Result<Laid, Memory>
    requires { nothing.now ≡ place.nothing }
    ensures { IfOk result (IsLaid (generation.code_over s.now (extended (context_of env.now) scope columns.now) (generation.kids (map (λ e. e.now) all.now))) (generation.kids (map (λ e. e.now) all.now))) }
{
    let under = kids(alloc, all)?;
    lay_body(alloc, scope, columns, s, under.as_slice(), nothing, env)
}
