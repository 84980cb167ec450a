//! Indexes: entries behind a directory that says where they stand.

ghost use Rattle.std.specs.Prelude.{◌≡◌, ◌≤◌, ◌<◌, ◌+◌, All, IfOk, length, map, slice_index, slice_range};
ghost use Rattle.castor_code.specs.Directories.{bucket_starts, bucketed, entry_starts, hash_piece, ord_piece};
ghost use Rattle.castor_code.specs.Pieces.{one_after_other};
ghost use Rattle.castor_code.specs.Shapes.{keyed_of};
ghost use Rattle.castor_dir.specs.Hashing.{hash_of};
ghost use Rattle.castor_dir.specs.Buckets.{places_in};
ghost use Rattle.castor_dir.specs.Plans.{buckets_of, plan_of};
ghost use Rattle.castor_alg.specs.declared.held.Entry.{Entry};
ghost use Rattle.castor_image.specs.Puts.{Puts, PutsAt, directed_piece, entry_by, entries_at, hashes};

use super::numbers::{fill_front, put_ranged, reserve_front};
use super::{PutError, put_entry};
use crate::shapes::keyed;
use crate::sorting::is_ascending;
use castor_alg::{Entry, Held};
use castor_code::{Code, Range};
use castor_dir::{Plan, key_hash, plan_hash};
use castor_val::Memory;
use std::alloc::Global;

/// A hash index: its entries stand by bucket and then by key, behind an offset for each bucket and one for
/// the end of the last.
#[cycle(put)]
pub fn put_hash(
    alloc: Global,
    out: &mut Vec<u8>,
    count: Range,
    body: Range,
    kid: &Code,
    key: &[Code],
    held: &Held,
) -> Result<(), PutError>
    ensures { Puts (hash_piece count body (entry_by key.now kid.now) (keyed_of held.now)) out.old.items out.new.items result }
{
    match keyed(held) {
        Some(entries) => {
            if !is_ascending(entries) {
                return Err(PutError::NotFit);
            }
            put_ranged(out, count, entries.len() as u64)?;
            put_hash_body(alloc, out, body, kid, key, entries)
        }
        None => Err(PutError::NotFit),
    }
}

/// The offsets and entries of a hash index, behind the number of bytes of the entries.
#[cycle(put)]
fn put_hash_body(
    alloc: Global,
    out: &mut Vec<u8>,
    body: Range,
    kid: &Code,
    key: &[Code],
    entries: &[Entry],
) -> Result<(), PutError>
    ensures { Puts (directed_piece body (bucket_starts (entry_by key.now kid.now) entries.now) (one_after_other (entry_by key.now kid.now) (bucketed entries.now))) out.old.items out.new.items result }
{
    let plan = plan_of(alloc, entries)?;
    let at = out.len();
    reserve_front(out, body, plan.starts.len())?;
    let first = out.len();
    let starts = put_buckets(alloc, out, kid, key, entries, &plan)?;
    fill_front(alloc, out, at, first, body, starts.as_slice())
}

/// The order of entries by bucket.
fn plan_of(alloc: Global, entries: &[Entry]) -> Result<Plan, Memory>
    ensures { IfOk result (λ plan. plan ≡ plan_of (hashes entries.now)) }
{
    let mut hashes = Vec::new(alloc);
    for entry in entries {
        hashes.push(entry_hash(alloc, entry)?)?;
    }
    plan_hash(alloc, hashes.as_slice())
}

/// The hash of an entry's key.
fn entry_hash(alloc: Global, entry: &Entry) -> Result<u64, Memory>
    ensures { IfOk result (λ h. h ≡ hash_of entry.now.key) }
{
    let cells = entry.key.cells(alloc)?;
    Ok(key_hash(cells.as_slice()))
}

/// The entries bucket by bucket. Gives where each bucket begins, and last where the last one ends.
#[cycle(put)]
fn put_buckets(
    alloc: Global,
    out: &mut Vec<u8>,
    kid: &Code,
    key: &[Code],
    entries: &[Entry],
    plan: &Plan,
) -> Result<Vec<u64>, PutError>
    requires { plan.now ≡ plan_of (hashes entries.now) }
    ensures { PutsAt (λ starts. starts.items) (one_after_other (entry_by key.now kid.now) (bucketed entries.now)) (bucket_starts (entry_by key.now kid.now) entries.now) out.old.items out.new.items result }
{
    let first = out.len();
    let mut starts = Vec::new(alloc);
    for bucket in 0..plan.buckets {
        starts.push((out.len() - first) as u64)?;
        match put_places(alloc, out, kid, key, entries, places_of(plan, bucket)) {
            Ok(()) => {}
            Err(why) => return Err(why),
        }
    }
    starts.push((out.len() - first) as u64)?;
    Ok(starts)
}

/// The places of the entries of a bucket.
fn places_of(plan: &Plan, bucket: u64) -> &[u64]
    requires bucket { bucket < plan.now.buckets }
    requires starts { length plan.now.starts ≡ plan.now.buckets + 1 }
    requires rises { slice_index plan.now.starts bucket ≤ slice_index plan.now.starts (bucket + 1) }
    requires within { slice_index plan.now.starts (bucket + 1) ≤ length plan.now.order }
    ensures { result.now ≡ slice_range plan.now.order (slice_index plan.now.starts bucket) (slice_index plan.now.starts (bucket + 1)) }
{
    let starts = plan.starts.as_slice();
    let from = starts[bucket as usize] as usize;
    let to = starts[bucket as usize + 1] as usize;
    &plan.order.as_slice()[from..to]
}

/// The entries at these places.
#[cycle(put)]
fn put_places(
    alloc: Global,
    out: &mut Vec<u8>,
    kid: &Code,
    key: &[Code],
    entries: &[Entry],
    places: &[u64],
) -> Result<(), PutError>
    requires { All (λ p. p < length entries.now) places.now }
    ensures { Puts (one_after_other (entry_by key.now kid.now) (entries_at entries.now places.now)) out.old.items out.new.items result }
{
    for place in places {
        match put_entry(alloc, out, kid, key, &entries[*place as usize]) {
            Ok(()) => {}
            Err(why) => return Err(why),
        }
    }
    Ok(())
}

/// An ordered index: its entries ascend by key, behind an offset for each.
#[cycle(put)]
pub fn put_ord(
    alloc: Global,
    out: &mut Vec<u8>,
    count: Range,
    body: Range,
    kid: &Code,
    key: &[Code],
    held: &Held,
) -> Result<(), PutError>
    ensures { Puts (ord_piece count body (entry_by key.now kid.now) (keyed_of held.now)) out.old.items out.new.items result }
{
    match keyed(held) {
        Some(entries) => {
            if !is_ascending(entries) {
                return Err(PutError::NotFit);
            }
            put_ranged(out, count, entries.len() as u64)?;
            put_ord_body(alloc, out, body, kid, key, entries)
        }
        None => Err(PutError::NotFit),
    }
}

/// The offsets and entries of an ordered index, behind the number of bytes of the entries.
#[cycle(put)]
fn put_ord_body(
    alloc: Global,
    out: &mut Vec<u8>,
    body: Range,
    kid: &Code,
    key: &[Code],
    entries: &[Entry],
) -> Result<(), PutError>
    ensures { Puts (directed_piece body (entry_starts (entry_by key.now kid.now) entries.now) (one_after_other (entry_by key.now kid.now) entries.now)) out.old.items out.new.items result }
{
    let at = out.len();
    reserve_front(out, body, entries.len())?;
    let first = out.len();
    let starts = put_entries(alloc, out, kid, key, entries)?;
    fill_front(alloc, out, at, first, body, starts.as_slice())
}

/// The entries as they come. Gives where each begins.
#[cycle(put)]
fn put_entries(
    alloc: Global,
    out: &mut Vec<u8>,
    kid: &Code,
    key: &[Code],
    entries: &[Entry],
) -> Result<Vec<u64>, PutError>
    ensures { PutsAt (λ starts. starts.items) (one_after_other (entry_by key.now kid.now) entries.now) (entry_starts (entry_by key.now kid.now) entries.now) out.old.items out.new.items result }
{
    let first = out.len();
    let mut starts = Vec::new(alloc);
    for entry in entries {
        starts.push((out.len() - first) as u64)?;
        match put_entry(alloc, out, kid, key, entry) {
            Ok(()) => {}
            Err(why) => return Err(why),
        }
    }
    Ok(starts)
}
