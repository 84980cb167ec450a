//! Codes over the codes of operands, where there was memory for these. No tree is held while another is made.

ghost use Rattle.std.specs.Prelude.{◌≡◌, ◌∷◌, [], IfOk, IsOkAnd, map};
ghost use Rattle.std.specs.List.{flat_map};
ghost use Rattle.castor_alg.specs.TypeEnvs.{context_of};
ghost use Rattle.castor_alg.specs.Typing.{type_under};
ghost use Rattle.castor_code.specs.Shapes.{leaf_of};
ghost use Rattle.castor_code.specs.declared.code.Code as code;
ghost use Rattle.castor_ltype.specs.Generation as generation;
ghost use Rattle.castor_ltype.specs.Places as place;
ghost use Rattle.castor_ltype.specs.Sizes as size;
ghost use Rattle.castor_ltype.specs.Sizes.{IsLaid, added};

use crate::indexes::{hash, ord};
use crate::laid::{Laid, LaidParts};
use crate::lists::list;
use crate::nodes::{concat, cross, dedup, filter, group, order, select};
use crate::parts::pair;
use crate::places::leaves;
use crate::scalars::scalar;
use crate::sizes::no_sizes;
use castor_alg::expr_typing::expr_type_in;
use castor_alg::{Agg, Bound, Expr, Held, Key, TypeEnv, both};
use castor_code::Code;
use castor_val::Memory;
use sqlite_items::Items;
use std::alloc::Global;

/// What stands where no data is held: a table and a join.
pub fn no_code(alloc: Global, held: &[&Held]) -> Result<Laid, Memory>
    ensures { IfOk result (IsLaid (code.Cross []) (map (λ h. h.now) held.now)) }
{
    Ok(Laid {
        code: Code::Cross(Items::new(alloc)),
        sizes: no_sizes(alloc, held)?,
    })
}

/// The code of the values of a scalar.
pub fn scalar_of(alloc: Global, e: &Expr, held: &[&Held], env: &TypeEnv<'_>) -> Result<Laid, Memory>
    ensures { IfOk result (IsLaid (generation.scalar_code (type_under e.now [] (context_of env.now)) (map leaf_of (map (λ h. h.now) held.now))) (map (λ h. h.now) held.now)) }
{
    let values = leaves(alloc, held)?;
    Ok(scalar(alloc, expr_type_in(e, &[], env), values.as_slice())?)
}

pub fn cross_of(parts: Result<LaidParts, Memory>) -> Result<Laid, Memory>
    ensures code { IfOk result (λ laid. IsOkAnd parts (λ p. laid.code ≡ code.Cross p.codes)) }
    ensures sizes { IfOk result (λ laid. IsOkAnd parts (λ p. laid.sizes.items ≡ p.sizes.items)) }
{
    Ok(cross(parts?))
}

pub fn concat_of(parts: Result<LaidParts, Memory>) -> Result<Laid, Memory>
    ensures code { IfOk result (λ laid. IsOkAnd parts (λ p. laid.code ≡ code.Concat p.codes)) }
    ensures sizes { IfOk result (λ laid. IsOkAnd parts (λ p. laid.sizes.items ≡ p.sizes.items)) }
{
    Ok(concat(parts?))
}

pub fn select_of(alloc: Global, es: &[Expr], kid: Result<Laid, Memory>) -> Result<Laid, Memory>
    ensures code { IfOk result (λ laid. IsOkAnd kid (λ k. laid.code ≡ code.Select es.now k.code)) }
    ensures sizes { IfOk result (λ laid. IsOkAnd kid (λ k. laid.sizes.items ≡ k.sizes.items)) }
{
    select(alloc, es, kid?)
}

pub fn filter_of(alloc: Global, e: &Expr, kid: Result<Laid, Memory>) -> Result<Laid, Memory>
    ensures code { IfOk result (λ laid. IsOkAnd kid (λ k. laid.code ≡ code.Filter e.now k.code)) }
    ensures sizes { IfOk result (λ laid. IsOkAnd kid (λ k. laid.sizes.items ≡ k.sizes.items)) }
{
    filter(alloc, e, kid?)
}

pub fn group_of(
    alloc: Global,
    ks: &[u32],
    aggs: &[Agg],
    kid: Result<Laid, Memory>,
) -> Result<Laid, Memory>
    ensures code { IfOk result (λ laid. IsOkAnd kid (λ k. laid.code ≡ code.Group ks.now aggs.now k.code)) }
    ensures sizes { IfOk result (λ laid. IsOkAnd kid (λ k. laid.sizes.items ≡ k.sizes.items)) }
{
    group(alloc, ks, aggs, kid?)
}

pub fn order_of(alloc: Global, ks: &[Key], kid: Result<Laid, Memory>) -> Result<Laid, Memory>
    ensures code { IfOk result (λ laid. IsOkAnd kid (λ k. laid.code ≡ code.Order ks.now k.code)) }
    ensures sizes { IfOk result (λ laid. IsOkAnd kid (λ k. laid.sizes.items ≡ k.sizes.items)) }
{
    order(alloc, ks, kid?)
}

pub fn dedup_of(alloc: Global, kid: Result<Laid, Memory>) -> Result<Laid, Memory>
    ensures code { IfOk result (λ laid. IsOkAnd kid (λ k. laid.code ≡ code.Dedup k.code)) }
    ensures sizes { IfOk result (λ laid. IsOkAnd kid (λ k. laid.sizes.items ≡ k.sizes.items)) }
{
    dedup(alloc, kid?)
}

/// `depjoin`: a dependent join over both its parts.
pub fn depjoin_of(
    alloc: Global,
    scope: u32,
    first: Result<Laid, Memory>,
    second: Result<Laid, Memory>,
) -> Result<Laid, Memory>
    ensures code { IfOk result (λ laid. IsOkAnd first (λ x. IsOkAnd second (λ y. laid.code ≡ code.Dep scope x.code y.code))) }
    ensures sizes { IfOk result (λ laid. IsOkAnd first (λ x. IsOkAnd second (λ y. laid.sizes.items ≡ added x.sizes.items y.sizes.items))) }
{
    let (first, second) = both(first, second)?;
    pair(alloc, scope, first, second)
}

/// `list`: lists over all their children.
pub fn list_of(alloc: Global, held: &[&Held], kid: Result<Laid, Memory>) -> Result<Laid, Memory>
    requires { IfOk kid (λ k. k.sizes.items ≡ map (size.held_size k.code) (flat_map place.children (map (λ h. h.now) held.now))) }
    ensures { IfOk result (λ laid. IsOkAnd kid (λ k. IsLaid (generation.list_code (λ hs. k.code) (map (λ h. h.now) held.now)) (map (λ h. h.now) held.now) laid)) }
{
    list(alloc, held, kid?)
}

/// `hash`: hash indexes over the columns of all their keys and all their children.
pub fn hash_of(
    alloc: Global,
    held: &[&Held],
    key: Result<LaidParts, Memory>,
    kid: Result<Laid, Memory>,
    by: &[Expr],
) -> Result<Laid, Memory>
    requires keys { IfOk key (λ x. x.sizes.items ≡ map (size.key_size 0 x.codes) (flat_map place.entries (map (λ h. h.now) held.now))) }
    requires kids { IfOk kid (λ y. y.sizes.items ≡ map (size.held_size y.code) (generation.kids (flat_map place.entries (map (λ h. h.now) held.now)))) }
    ensures code { IfOk result (λ laid. IsOkAnd key (λ x. IsOkAnd kid (λ y. laid.code ≡ code.Hash (generation.count_range (map (λ h. h.now) held.now)) (generation.body_range x.codes y.code (map (λ h. h.now) held.now)) x.codes y.code by.now))) }
    ensures sizes { IfOk result (λ laid. laid.sizes.items ≡ map (size.held_size laid.code) (map (λ h. h.now) held.now)) }
{
    let (key, kid) = both(key, kid)?;
    hash(alloc, held, key, kid, by)
}

/// `ordered`: ordered indexes over all their keys and all their children.
pub fn ord_of(
    alloc: Global,
    held: &[&Held],
    key: Result<Laid, Memory>,
    kid: Result<Laid, Memory>,
    lo: &Bound,
    hi: &Bound,
) -> Result<Laid, Memory>
    requires keys { IfOk key (λ x. x.sizes.items ≡ map (size.key_size 0 (x.code ∷ [])) (flat_map place.entries (map (λ h. h.now) held.now))) }
    requires kids { IfOk kid (λ y. y.sizes.items ≡ map (size.held_size y.code) (generation.kids (flat_map place.entries (map (λ h. h.now) held.now)))) }
    ensures code { IfOk result (λ laid. IsOkAnd key (λ x. IsOkAnd kid (λ y. laid.code ≡ code.Ord (generation.count_range (map (λ h. h.now) held.now)) (generation.body_range (x.code ∷ []) y.code (map (λ h. h.now) held.now)) x.code y.code lo.now hi.now))) }
    ensures sizes { IfOk result (λ laid. laid.sizes.items ≡ map (size.held_size laid.code) (map (λ h. h.now) held.now)) }
{
    let (key, kid) = both(key, kid)?;
    ord(alloc, held, key, kid, lo, hi)
}
