//! Codes of indexes.

ghost use Rattle.std.specs.Prelude.{◌≡◌, ◌+◌, ◌*◌, IfOk, IsOkAnd, ◌∷◌, [], length, map};
ghost use Rattle.std.specs.List.{flat_map};
ghost use Rattle.castor_code.specs.Shapes.{keyed_of};
ghost use Rattle.castor_code.specs.declared.code.Code as code;
ghost use Rattle.castor_dir.specs.Buckets as buckets;
ghost use Rattle.castor_fixed.specs.Fields.{width};
ghost use Rattle.castor_ltype.specs.Generation.{body_range, count_range, kids};
ghost use Rattle.castor_ltype.specs.Places as place;
ghost use Rattle.castor_ltype.specs.Ranges as range;
ghost use Rattle.castor_ltype.specs.Sizes as size;

use crate::laid::{Laid, LaidParts};
use crate::places::entries_of;
use crate::ranges::{field_width, least_range, range_width};
use crate::sizes::{added, sum_of, sums};
use castor_alg::{Bound, Entry, Expr, Held, both, boxed, copy_bound, copy_exprs};
use castor_code::{Code, Range};
use castor_dir::bucket_count;
use castor_val::Memory;
use sqlite_items::Items;
use std::alloc::Global;

/// The code of hash indexes, over those of the columns of all their keys and of all their children.
pub fn hash(
    alloc: Global,
    held: &[&Held],
    key: LaidParts,
    kid: Laid,
    by: &[Expr],
) -> Result<Laid, Memory>
    requires keys { key.sizes.items ≡ map (size.key_size 0 key.codes) (flat_map place.entries (map (λ h. h.now) held.now)) }
    requires kids { kid.sizes.items ≡ map (size.held_size kid.code) (kids (flat_map place.entries (map (λ h. h.now) held.now))) }
    ensures code { IfOk result (λ laid. laid.code ≡ code.Hash (count_range (map (λ h. h.now) held.now)) (body_range key.codes kid.code (map (λ h. h.now) held.now)) key.codes kid.code by.now) }
    ensures sizes { IfOk result (λ laid. laid.sizes.items ≡ map (size.held_size laid.code) (map (λ h. h.now) held.now)) }
{
    let LaidParts { codes, sizes: keys } = key;
    let Laid { code, sizes: kids } = kid;
    let sizes = hash_sizes(alloc, held, keys.as_slice(), kids.as_slice());
    hash_node(alloc, sizes, codes, code, by)
}

// The node, where there was memory for the sizes.
fn hash_node(
    alloc: Global,
    sizes: Result<IndexSizes, Memory>,
    key: Items<Code>,
    kid: Code,
    by: &[Expr],
) -> Result<Laid, Memory>
    ensures code { IfOk result (λ laid. IsOkAnd sizes (λ sizes. laid.code ≡ code.Hash sizes.count sizes.body key kid by.now)) }
    ensures sizes { IfOk result (λ laid. IsOkAnd sizes (λ sizes. laid.sizes.items ≡ sizes.sizes.items)) }
{
    let kids = both(copy_exprs(alloc, by), boxed(alloc, Ok(kid)));
    let (sizes, (by, kid)) = both(sizes, kids)?;
    let IndexSizes { count, body, sizes } = sizes;
    Ok(Laid {
        code: Code::Hash {
            count,
            body,
            key,
            kid,
            by,
        },
        sizes,
    })
}

/// The code of ordered indexes, over those of all their keys and of all their children.
pub fn ord(
    alloc: Global,
    held: &[&Held],
    key: Laid,
    kid: Laid,
    lo: &Bound,
    hi: &Bound,
) -> Result<Laid, Memory>
    requires keys { key.sizes.items ≡ map (size.key_size 0 (key.code ∷ [])) (flat_map place.entries (map (λ h. h.now) held.now)) }
    requires kids { kid.sizes.items ≡ map (size.held_size kid.code) (kids (flat_map place.entries (map (λ h. h.now) held.now))) }
    ensures code { IfOk result (λ laid. laid.code ≡ code.Ord (count_range (map (λ h. h.now) held.now)) (body_range (key.code ∷ []) kid.code (map (λ h. h.now) held.now)) key.code kid.code lo.now hi.now) }
    ensures sizes { IfOk result (λ laid. laid.sizes.items ≡ map (size.held_size laid.code) (map (λ h. h.now) held.now)) }
{
    let Laid {
        code: key,
        sizes: keys,
    } = key;
    let Laid { code, sizes: kids } = kid;
    let ranges = index_ranges(alloc, held, keys.as_slice(), kids.as_slice())?;
    let frames = ord_frames(alloc, held, ranges.count, ranges.body)?;
    let sizes = added(alloc, frames.as_slice(), ranges.bodies.as_slice())?;
    let node = ord_node(alloc, ranges.count, ranges.body, key, code, lo, hi)?;
    Ok(Laid { code: node, sizes })
}

fn ord_node(
    alloc: Global,
    count: Range,
    body: Range,
    key: Code,
    kid: Code,
    lo: &Bound,
    hi: &Bound,
) -> Result<Code, Memory>
    ensures { IfOk result (λ node. node ≡ code.Ord count body key kid lo.now hi.now) }
{
    let bounds = both(copy_bound(alloc, lo), copy_bound(alloc, hi));
    let kids = both(boxed(alloc, Ok(key)), boxed(alloc, Ok(kid)));
    let ((lo, hi), (key, kid)) = both(bounds, kids)?;
    Ok(Code::Ord {
        count,
        body,
        key,
        kid,
        lo,
        hi,
    })
}

// The ranges of the numbers of entries and of the numbers of their bytes, and the bytes of each index.
#[derive(Drop)]
struct IndexSizes {
    count: Range,
    body: Range,
    sizes: Vec<u64>,
}

// `keys` and `kids` are the sizes of the keys of all entries and of what stands under them.
fn hash_sizes(
    alloc: Global,
    held: &[&Held],
    keys: &[u64],
    kids: &[u64],
) -> Result<IndexSizes, Memory>
    ensures count { IfOk result (λ made. made.count ≡ count_range (map (λ h. h.now) held.now)) }
    ensures body { IfOk result (λ made. made.body ≡ range.least_range (size.sums (map (λ h. length (place.entries h)) (map (λ h. h.now) held.now)) (size.added keys.now kids.now))) }
    ensures sizes { IfOk result (λ made. made.sizes.items ≡ size.added (map (λ h. size.hash_frame made.count made.body (keyed_of h)) (map (λ h. h.now) held.now)) (size.sums (map (λ h. length (place.entries h)) (map (λ h. h.now) held.now)) (size.added keys.now kids.now))) }
{
    let ranges = index_ranges(alloc, held, keys, kids)?;
    let frames = hash_frames(alloc, held, ranges.count, ranges.body)?;
    let sizes = added(alloc, frames.as_slice(), ranges.bodies.as_slice())?;
    Ok(IndexSizes {
        count: ranges.count,
        body: ranges.body,
        sizes,
    })
}

// The ranges of the numbers of entries and of the numbers of their bytes, and these for each index.
#[derive(Drop)]
struct IndexRanges {
    count: Range,
    body: Range,
    bodies: Vec<u64>,
}

// `keys` and `kids` are the sizes of the keys of all entries and of what stands under them.
fn index_ranges(
    alloc: Global,
    held: &[&Held],
    keys: &[u64],
    kids: &[u64],
) -> Result<IndexRanges, Memory>
    ensures count { IfOk result (λ ranges. ranges.count ≡ count_range (map (λ h. h.now) held.now)) }
    ensures bodies { IfOk result (λ ranges. ranges.bodies.items ≡ size.sums (map (λ h. length (place.entries h)) (map (λ h. h.now) held.now)) (size.added keys.now kids.now)) }
    ensures body { IfOk result (λ ranges. ranges.body ≡ range.least_range ranges.bodies.items) }
{
    let counts = entry_counts(alloc, held)?;
    let sizes = added(alloc, keys, kids)?;
    let bodies = sums(alloc, counts.as_slice(), sizes.as_slice())?;
    Ok(IndexRanges {
        count: least_range(counts.as_slice()),
        body: least_range(bodies.as_slice()),
        bodies,
    })
}

fn entry_counts(alloc: Global, held: &[&Held]) -> Result<Vec<u64>, Memory>
    ensures { IfOk result (λ counts. counts.items ≡ map (λ h. length (place.entries h)) (map (λ h. h.now) held.now)) }
{
    let mut counts = Vec::new(alloc);
    for h in held {
        counts.push(entries_of(h).len() as u64)?;
    }
    Ok(counts)
}

fn hash_frames(alloc: Global, held: &[&Held], count: Range, body: Range) -> Result<Vec<u64>, Memory>
    ensures { IfOk result (λ frames. frames.items ≡ map (λ h. size.hash_frame count body (keyed_of h)) (map (λ h. h.now) held.now)) }
{
    let mut frames = Vec::new(alloc);
    for h in held {
        frames.push(hash_frame(h, count, body)?)?;
    }
    Ok(frames)
}

// The bytes of the ranges and of one offset more than there are buckets, where an index stands.
fn hash_frame(held: &Held, count: Range, body: Range) -> Result<u64, Memory>
    ensures { IfOk result (λ bytes. bytes ≡ size.hash_frame count body (keyed_of held.now)) }
{
    match held {
        Held::Leaf(_) => Ok(0),
        Held::Parts(_) => Ok(0),
        Held::Rows(_) => Ok(0),
        Held::Keyed(entries) => Ok(frame(count, body, hash_offsets(entries.as_slice()))?),
        Held::Inner(_) => Ok(0),
    }
}

// One offset more than there are buckets.
fn hash_offsets(entries: &[Entry]) -> u64
    ensures { result ≡ buckets.bucket_count (length entries.now) + 1 }
{
    let buckets = bucket_count(entries.len() as u64);
    buckets + 1
}

fn ord_frames(alloc: Global, held: &[&Held], count: Range, body: Range) -> Result<Vec<u64>, Memory>
    ensures { IfOk result (λ frames. frames.items ≡ map (λ h. size.ord_frame count body (keyed_of h)) (map (λ h. h.now) held.now)) }
{
    let mut frames = Vec::new(alloc);
    for h in held {
        frames.push(ord_frame(h, count, body)?)?;
    }
    Ok(frames)
}

// The bytes of the ranges and of one offset for each entry, where an index stands.
fn ord_frame(held: &Held, count: Range, body: Range) -> Result<u64, Memory>
    ensures { IfOk result (λ bytes. bytes ≡ size.ord_frame count body (keyed_of held.now)) }
{
    match held {
        Held::Leaf(_) => Ok(0),
        Held::Parts(_) => Ok(0),
        Held::Rows(_) => Ok(0),
        Held::Keyed(entries) => Ok(frame(count, body, entries.as_slice().len() as u64)?),
        Held::Inner(_) => Ok(0),
    }
}

// The bytes of the ranges and of so many offsets.
fn frame(count: Range, body: Range, offsets: u64) -> Result<u64, Memory>
    ensures { IfOk result (λ bytes. bytes ≡ (size.range_bytes count + size.range_bytes body) + offsets * width body.hi) }
{
    match offsets.checked_mul(field_width(body.hi)) {
        Some(directory) => Ok(sum_of(range_width(count) + range_width(body), directory)?),
        None => Err(Memory),
    }
}
