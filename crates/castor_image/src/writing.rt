//! The data of codes, written at the end of bytes.

ghost use Rattle.std.specs.Prelude.{◌≡◌, [], map};
ghost use Rattle.castor_code.specs.Data.{format, writers};
ghost use Rattle.castor_code.specs.Pieces.{inner_piece, list_piece, one_after_other, parts_piece, side_by_side};
ghost use Rattle.castor_code.specs.Shapes.{inner_of, parts_of, rows_of};
ghost use Rattle.castor_image.specs.Puts.{Puts, directed_piece, entry_by, first_piece, second_piece, value_piece, values_piece};

mod index;
mod numbers;
mod values;

use crate::shapes::{inner, leaf, parts, rows};
use castor_alg::{Entry, Held};
use castor_code::{Code, Range};
use castor_val::{Memory, Value};
pub use index::{put_hash, put_ord};
pub use numbers::fill;
use numbers::{fill_front, put_ranged, reserve_front};
use std::alloc::{AllocError, AllocFailed, Global};
use std::slice;
pub use values::gap;
use values::{put_bool, put_int, put_text};

/// Why held data isn't put.
#[derive(Clone, Copy, Debug, PartialEq, Eq)]
pub enum PutError {
    /// The held data doesn't fit the code.
    NotFit,
    /// There was no memory for the bytes.
    Memory,
}

impl From<Memory> for PutError {
    ghost use Rattle.castor_image.specs.declared.writing.PutError.TheVariants.{Memory};

    ghost from_gives = { λ _ e. e ≡ Memory };

    fn from(_: Memory) -> PutError {
        PutError::Memory
    }
}

impl From<AllocError> for PutError {
    ghost use Rattle.castor_image.specs.declared.writing.PutError.TheVariants.{Memory};

    ghost from_gives = { λ _ e. e ≡ Memory };

    fn from(_: AllocError) -> PutError {
        PutError::Memory
    }
}

impl<T: Drop> From<AllocFailed<T>> for PutError {
    ghost use Rattle.castor_image.specs.declared.writing.PutError.TheVariants.{Memory};

    ghost from_gives = { λ _ e. e ≡ Memory };

    fn from(_: AllocFailed<T>) -> PutError {
        PutError::Memory
    }
}

/// Puts the data of held data at the end. `NotFit` comes exactly where it doesn't fit the code, and else
/// `Memory`. Linear in the held data and the data.
#[cycle(put)]
pub fn put_data(alloc: Global, out: &mut Vec<u8>, code: &Code, held: &Held) -> Result<(), PutError>
    ensures { Puts ((format code.now).write held.now) out.old.items out.new.items result }
{
    match code {
        Code::Int { lo, hi } => put_int(out, *lo, *hi, leaf(held)),
        Code::Bool => put_bool(out, leaf(held)),
        Code::Text { min, max } => put_text(out, *min, *max, leaf(held)),
        Code::Cross(kids) => put_parts(alloc, out, kids.as_slice(), held),
        Code::Concat(kids) => put_parts(alloc, out, kids.as_slice(), held),
        Code::List { count, body, kid } => put_list(alloc, out, *count, *body, kid.get(), held),
        Code::Hash {
            count,
            body,
            key,
            kid,
            ..
        } => put_hash(alloc, out, *count, *body, kid.get(), key.as_slice(), held),
        Code::Ord {
            count,
            body,
            key,
            kid,
            ..
        } => put_ord(
            alloc,
            out,
            *count,
            *body,
            kid.get(),
            slice::from_ref(key.get()),
            held,
        ),
        Code::Select(_, kid) => put_inner(alloc, out, kid.get(), held),
        Code::Filter(_, kid) => put_inner(alloc, out, kid.get(), held),
        Code::Dep(_, first, second) => match put_first(alloc, out, first.get(), held) {
            Ok(()) => put_second(alloc, out, second.get(), held),
            Err(why) => Err(why),
        },
        Code::Group(_, _, kid) => put_inner(alloc, out, kid.get(), held),
        Code::Order(_, kid) => put_inner(alloc, out, kid.get(), held),
        Code::Dedup(kid) => put_inner(alloc, out, kid.get(), held),
    }
}

/// The parts, one for each kid.
#[cycle(put)]
fn put_parts(alloc: Global, out: &mut Vec<u8>, kids: &[Code], held: &Held) -> Result<(), PutError>
    ensures { Puts (parts_piece (writers (map format kids.now)) (parts_of held.now)) out.old.items out.new.items result }
{
    match parts(held) {
        Some(parts) => put_side_by_side(alloc, out, kids, parts),
        None => Err(PutError::NotFit),
    }
}

#[cycle(put)]
fn put_side_by_side(
    alloc: Global,
    out: &mut Vec<u8>,
    kids: &[Code],
    parts: &[Held],
) -> Result<(), PutError>
    ensures { Puts (side_by_side (writers (map format kids.now)) parts.now) out.old.items out.new.items result }
{
    if kids.len() != parts.len() {
        return Err(PutError::NotFit);
    }
    for at in 0..kids.len() {
        match put_data(alloc, out, &kids[at], &parts[at]) {
            Ok(()) => {}
            Err(why) => return Err(why),
        }
    }
    Ok(())
}

/// The first of the two parts of a dependent join.
#[cycle(put)]
fn put_first(alloc: Global, out: &mut Vec<u8>, first: &Code, held: &Held) -> Result<(), PutError>
    ensures { Puts (first_piece (format first.now).write (parts_of held.now)) out.old.items out.new.items result }
{
    match parts(held) {
        Some([part, _]) => put_data(alloc, out, first, part),
        _ => Err(PutError::NotFit),
    }
}

/// The second of the two parts of a dependent join.
#[cycle(put)]
fn put_second(alloc: Global, out: &mut Vec<u8>, second: &Code, held: &Held) -> Result<(), PutError>
    ensures { Puts (second_piece (format second.now).write (parts_of held.now)) out.old.items out.new.items result }
{
    match parts(held) {
        Some([_, part]) => put_data(alloc, out, second, part),
        _ => Err(PutError::NotFit),
    }
}

#[cycle(put)]
fn put_inner(alloc: Global, out: &mut Vec<u8>, kid: &Code, held: &Held) -> Result<(), PutError>
    ensures { Puts (inner_piece (format kid.now).write (inner_of held.now)) out.old.items out.new.items result }
{
    match inner(held) {
        Some(inner) => put_data(alloc, out, kid, inner),
        None => Err(PutError::NotFit),
    }
}

/// The children behind their number and the number of their bytes.
#[cycle(put)]
fn put_list(
    alloc: Global,
    out: &mut Vec<u8>,
    count: Range,
    body: Range,
    kid: &Code,
    held: &Held,
) -> Result<(), PutError>
    ensures { Puts (list_piece count body (format kid.now).write (rows_of held.now)) out.old.items out.new.items result }
{
    match rows(held) {
        Some(rows) => {
            put_ranged(out, count, rows.len() as u64)?;
            put_body(alloc, out, body, kid, rows)
        }
        None => Err(PutError::NotFit),
    }
}

/// The children behind the number of their bytes, which is filled in once they stand.
#[cycle(put)]
fn put_body(
    alloc: Global,
    out: &mut Vec<u8>,
    body: Range,
    kid: &Code,
    rows: &[Held],
) -> Result<(), PutError>
    ensures { Puts (directed_piece body [] (one_after_other (format kid.now).write rows.now)) out.old.items out.new.items result }
{
    let at = out.len();
    reserve_front(out, body, 0)?;
    let first = out.len();
    put_rows(alloc, out, kid, rows)?;
    fill_front(alloc, out, at, first, body, &[])
}

/// The children, one after the other.
#[cycle(put)]
fn put_rows(alloc: Global, out: &mut Vec<u8>, kid: &Code, rows: &[Held]) -> Result<(), PutError>
    ensures { Puts (one_after_other (format kid.now).write rows.now) out.old.items out.new.items result }
{
    for row in rows {
        match put_data(alloc, out, kid, row) {
            Ok(()) => {}
            Err(why) => return Err(why),
        }
    }
    Ok(())
}

/// The values of a key in order, then the child.
#[cycle(put)]
fn put_entry(
    alloc: Global,
    out: &mut Vec<u8>,
    kid: &Code,
    key: &[Code],
    entry: &Entry,
) -> Result<(), PutError>
    ensures { Puts (entry_by key.now kid.now entry.now) out.old.items out.new.items result }
{
    match put_key(out, key, entry.key.as_slice()) {
        Ok(()) => put_data(alloc, out, kid, &entry.kid),
        Err(why) => Err(why),
    }
}

/// The values of a key, one for each code.
fn put_key(out: &mut Vec<u8>, key: &[Code], values: &[Value]) -> Result<(), PutError>
    ensures { Puts (values_piece key.now values.now) out.old.items out.new.items result }
{
    if key.len() != values.len() {
        return Err(PutError::NotFit);
    }
    for at in 0..key.len() {
        match put_value(out, &key[at], &values[at]) {
            Ok(()) => {}
            Err(why) => return Err(why),
        }
    }
    Ok(())
}

/// A value of a key.
fn put_value(out: &mut Vec<u8>, code: &Code, value: &Value) -> Result<(), PutError>
    ensures { Puts (value_piece code.now value.now) out.old.items out.new.items result }
{
    match code {
        Code::Int { lo, hi } => put_int(out, *lo, *hi, Some(value)),
        Code::Bool => put_bool(out, Some(value)),
        Code::Text { min, max } => put_text(out, *min, *max, Some(value)),
        _ => Err(PutError::NotFit),
    }
}
