//! Fields of ranges, and fields that are filled in later.

ghost use Rattle.std.specs.Prelude.{◌≡◌, ◌≤◌, ◌+◌, ◌-◌, ◌++◌, All, OnOk, drop, length, replicate, take};
ghost use Rattle.castor_code.specs.Directories.{offset_fields};
ghost use Rattle.castor_fixed.specs.Fields.{width};
ghost use Rattle.castor_image.specs.Puts.{Fills, Puts, front_width, number_piece};

use super::PutError;
use castor_code::Range;
use castor_code::fields::push_field;
use castor_fixed::width;
use castor_val::Memory;
use std::alloc::Global;

/// The bytes of a field for the numbers from 0 to `most`.
fn field_width(most: u64) -> u8
    ensures value { result ≡ width most }
    ensures within { result ≤ 8 }
{
    width(0, most as i128)
}

/// The bytes of a field for a range.
fn ranged_width(range: Range) -> u8
    ensures value { result ≡ width (range.hi - range.lo) }
    ensures within { result ≤ 8 }
{
    field_width(range.hi.saturating_sub(range.lo))
}

/// Puts the field of a number of a range.
pub fn put_ranged(out: &mut Vec<u8>, range: Range, number: u64) -> Result<(), PutError>
    ensures { Puts (number_piece range number) out.old.items out.new.items result }
{
    if number < range.lo || number > range.hi {
        return Err(PutError::NotFit);
    }
    push_field(out, range.hi - range.lo, number - range.lo)?;
    Ok(())
}

/// Puts room for the field of a body length and for so many offsets, which are filled in later.
pub fn reserve_front(out: &mut Vec<u8>, body: Range, offsets: usize) -> Result<(), Memory>
    ensures { OnOk result (out.new.items ≡ out.old.items ++ replicate (front_width body offsets) 0) }
{
    match offsets.checked_mul(field_width(body.hi) as usize) {
        Some(bytes) => {
            reserve(out, ranged_width(body) as usize)?;
            reserve(out, bytes)
        }
        None => Err(Memory),
    }
}

/// Puts so many bytes, which are filled in later.
fn reserve(out: &mut Vec<u8>, bytes: usize) -> Result<(), Memory>
    ensures { OnOk result (out.new.items ≡ out.old.items ++ replicate bytes 0) }
{
    for _ in 0..bytes {
        out.push(0)?;
    }
    Ok(())
}

/// Fills in the room at a place, now that the body stands behind it: the field of the body's length, and
/// the offsets.
pub fn fill_front(
    alloc: Global,
    out: &mut Vec<u8>,
    at: usize,
    first: usize,
    body: Range,
    offsets: &[u64],
) -> Result<(), PutError>
    requires room { at + front_width body (length offsets.now) ≡ first }
    requires there { first ≤ length out.old.items }
    requires offsets { All (λ o. o ≤ length out.old.items - first) offsets.now }
    ensures { Fills body at first offsets.now out.old.items out.new.items result }
{
    let mut front = Vec::new(alloc);
    put_ranged(&mut front, body, (out.len() - first) as u64)?;
    put_offsets(&mut front, body, offsets)?;
    fill(out, at, front.as_slice());
    Ok(())
}

/// Puts fields for offsets, wide enough for the greatest body length.
fn put_offsets(out: &mut Vec<u8>, body: Range, offsets: &[u64]) -> Result<(), Memory>
    requires { All (λ o. o ≤ body.hi) offsets.now }
    ensures { OnOk result (out.new.items ≡ out.old.items ++ offset_fields body offsets.now) }
{
    for offset in offsets {
        push_field(out, body.hi, *offset)?;
    }
    Ok(())
}

/// Writes over the bytes at a place.
pub fn fill(out: &mut Vec<u8>, at: usize, bytes: &[u8])
    requires { at + length bytes.now ≤ length out.old.items }
    ensures { out.new.items ≡ take at out.old.items ++ (bytes.now ++ drop (at + length bytes.now) out.old.items) }
{
    out[at..at + bytes.len()].copy_from_slice(bytes);
}
