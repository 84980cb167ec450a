//! Nodes of codes over the codes of their kids.

ghost use Rattle.std.specs.Prelude.{◌≡◌, IfOk};
ghost use Rattle.castor_code.specs.declared.code.Code as code;

use crate::laid::{Laid, LaidParts};
use castor_alg::{Agg, Expr, Key, both, boxed, copy_expr, copy_exprs};
use castor_code::Code;
use castor_val::Memory;
use sqlite_items::Items;
use std::alloc::Global;

pub fn cross(parts: LaidParts) -> Laid
    ensures code { result.code ≡ code.Cross parts.codes }
    ensures sizes { result.sizes.items ≡ parts.sizes.items }
{
    let LaidParts { codes, sizes } = parts;
    Laid {
        code: Code::Cross(codes),
        sizes,
    }
}

pub fn concat(parts: LaidParts) -> Laid
    ensures code { result.code ≡ code.Concat parts.codes }
    ensures sizes { result.sizes.items ≡ parts.sizes.items }
{
    let LaidParts { codes, sizes } = parts;
    Laid {
        code: Code::Concat(codes),
        sizes,
    }
}

pub fn select(alloc: Global, es: &[Expr], kid: Laid) -> Result<Laid, Memory>
    ensures code { IfOk result (λ laid. laid.code ≡ code.Select es.now kid.code) }
    ensures sizes { IfOk result (λ laid. laid.sizes.items ≡ kid.sizes.items) }
{
    let Laid { code, sizes } = kid;
    let (es, kid) = both(copy_exprs(alloc, es), boxed(alloc, Ok(code)))?;
    Ok(Laid {
        code: Code::Select(es, kid),
        sizes,
    })
}

pub fn filter(alloc: Global, e: &Expr, kid: Laid) -> Result<Laid, Memory>
    ensures code { IfOk result (λ laid. laid.code ≡ code.Filter e.now kid.code) }
    ensures sizes { IfOk result (λ laid. laid.sizes.items ≡ kid.sizes.items) }
{
    let Laid { code, sizes } = kid;
    let (e, kid) = both(copy_expr(alloc, e), boxed(alloc, Ok(code)))?;
    Ok(Laid {
        code: Code::Filter(e, kid),
        sizes,
    })
}

pub fn group(alloc: Global, ks: &[u32], aggs: &[Agg], kid: Laid) -> Result<Laid, Memory>
    ensures code { IfOk result (λ laid. laid.code ≡ code.Group ks.now aggs.now kid.code) }
    ensures sizes { IfOk result (λ laid. laid.sizes.items ≡ kid.sizes.items) }
{
    let Laid { code, sizes } = kid;
    let kid = boxed(alloc, Ok(code));
    let (kid, (ks, aggs)) = both(kid, both(copy_items(alloc, ks), copy_items(alloc, aggs)))?;
    Ok(Laid {
        code: Code::Group(ks, aggs, kid),
        sizes,
    })
}

pub fn order(alloc: Global, ks: &[Key], kid: Laid) -> Result<Laid, Memory>
    ensures code { IfOk result (λ laid. laid.code ≡ code.Order ks.now kid.code) }
    ensures sizes { IfOk result (λ laid. laid.sizes.items ≡ kid.sizes.items) }
{
    let Laid { code, sizes } = kid;
    let (ks, kid) = both(copy_items(alloc, ks), boxed(alloc, Ok(code)))?;
    Ok(Laid {
        code: Code::Order(ks, kid),
        sizes,
    })
}

pub fn dedup(alloc: Global, kid: Laid) -> Result<Laid, Memory>
    ensures code { IfOk result (λ laid. laid.code ≡ code.Dedup kid.code) }
    ensures sizes { IfOk result (λ laid. laid.sizes.items ≡ kid.sizes.items) }
{
    let Laid { code, sizes } = kid;
    Ok(Laid {
        code: Code::Dedup(boxed(alloc, Ok(code))?),
        sizes,
    })
}

/// A dependent join, over the sizes of both parts added up.
pub fn dep(
    alloc: Global,
    scope: u32,
    first: Code,
    second: Code,
    sizes: Vec<u64>,
) -> Result<Laid, Memory>
    ensures code { IfOk result (λ laid. laid.code ≡ code.Dep scope first second) }
    ensures sizes { IfOk result (λ laid. laid.sizes.items ≡ sizes.items) }
{
    let (first, second) = both(boxed(alloc, Ok(first)), boxed(alloc, Ok(second)))?;
    Ok(Laid {
        code: Code::Dep(scope, first, second),
        sizes,
    })
}

fn copy_items<T: Copy>(alloc: Global, items: &[T]) -> Result<Items<T>, Memory>
    ensures { IfOk result (λ copies. copies ≡ items.now) }
{
    Ok(Items::from_slice(alloc, items)?)
}
