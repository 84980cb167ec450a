//! Codes of lists of children.

ghost use Rattle.std.specs.Prelude.{◌≡◌, IfOk, IsOkAnd, length, map};
ghost use Rattle.std.specs.List.{flat_map};
ghost use Rattle.castor_code.specs.Shapes.{rows_of};
ghost use Rattle.castor_code.specs.declared.code.Code as code;
ghost use Rattle.castor_ltype.specs.Generation.{list_code};
ghost use Rattle.castor_ltype.specs.Places as place;
ghost use Rattle.castor_ltype.specs.Ranges as range;
ghost use Rattle.castor_ltype.specs.Sizes as size;

use crate::laid::Laid;
use crate::places::children_of;
use crate::ranges::{least_range, range_width};
use crate::sizes::{added, sums};
use castor_alg::{Held, both, boxed};
use castor_code::{Code, Range};
use castor_val::Memory;
use std::alloc::Global;

/// The code of lists, over that of all their children.
pub fn list(alloc: Global, held: &[&Held], kid: Laid) -> Result<Laid, Memory>
    requires { kid.sizes.items ≡ map (size.held_size kid.code) (flat_map place.children (map (λ h. h.now) held.now)) }
    ensures { IfOk result (size.IsLaid (list_code (λ hs. kid.code) (map (λ h. h.now) held.now)) (map (λ h. h.now) held.now)) }
{
    let Laid { code, sizes: kids } = kid;
    let sizes = list_sizes(alloc, held, kids.as_slice());
    list_node(alloc, sizes, code)
}

// The node, where there was memory for the sizes.
fn list_node(alloc: Global, sizes: Result<ListSizes, Memory>, kid: Code) -> Result<Laid, Memory>
    ensures code { IfOk result (λ laid. IsOkAnd sizes (λ sizes. laid.code ≡ code.List sizes.count sizes.body kid)) }
    ensures sizes { IfOk result (λ laid. IsOkAnd sizes (λ sizes. laid.sizes.items ≡ sizes.sizes.items)) }
{
    let (sizes, kid) = both(sizes, boxed(alloc, Ok(kid)))?;
    let ListSizes { count, body, sizes } = sizes;
    Ok(Laid {
        code: Code::List { count, body, kid },
        sizes,
    })
}

// The ranges of the numbers of children and of the numbers of their bytes, and the bytes of each list.
#[derive(Drop)]
struct ListSizes {
    count: Range,
    body: Range,
    sizes: Vec<u64>,
}

// `kids` are the sizes of all children.
fn list_sizes(alloc: Global, held: &[&Held], kids: &[u64]) -> Result<ListSizes, Memory>
    ensures count { IfOk result (λ made. made.count ≡ range.least_range (map (λ h. length (place.children h)) (map (λ h. h.now) held.now))) }
    ensures body { IfOk result (λ made. made.body ≡ range.least_range (size.sums (map (λ h. length (place.children h)) (map (λ h. h.now) held.now)) kids.now)) }
    ensures sizes { IfOk result (λ made. made.sizes.items ≡ size.added (map (λ h. size.list_frame made.count made.body (rows_of h)) (map (λ h. h.now) held.now)) (size.sums (map (λ h. length (place.children h)) (map (λ h. h.now) held.now)) kids.now)) }
{
    let counts = child_counts(alloc, held)?;
    let bodies = sums(alloc, counts.as_slice(), kids)?;
    let count = least_range(counts.as_slice());
    let body = least_range(bodies.as_slice());
    let frames = frames(alloc, held, count, body)?;
    let sizes = added(alloc, frames.as_slice(), bodies.as_slice())?;
    Ok(ListSizes { count, body, sizes })
}

fn child_counts(alloc: Global, held: &[&Held]) -> Result<Vec<u64>, Memory>
    ensures { IfOk result (λ counts. counts.items ≡ map (λ h. length (place.children h)) (map (λ h. h.now) held.now)) }
{
    let mut counts = Vec::new(alloc);
    for h in held {
        counts.push(children_of(h).len() as u64)?;
    }
    Ok(counts)
}

fn frames(alloc: Global, held: &[&Held], count: Range, body: Range) -> Result<Vec<u64>, Memory>
    ensures { IfOk result (λ frames. frames.items ≡ map (λ h. size.list_frame count body (rows_of h)) (map (λ h. h.now) held.now)) }
{
    let mut frames = Vec::new(alloc);
    for h in held {
        frames.push(frame(h, count, body))?;
    }
    Ok(frames)
}

// The bytes of the ranges, where a list stands.
fn frame(held: &Held, count: Range, body: Range) -> u64
    ensures { result ≡ size.list_frame count body (rows_of held.now) }
{
    match held {
        Held::Leaf(_) => 0,
        Held::Parts(_) => 0,
        Held::Rows(_) => range_width(count) + range_width(body),
        Held::Keyed(_) => 0,
        Held::Inner(_) => 0,
    }
}
