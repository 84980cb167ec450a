//! The codes of values.

ghost use Rattle.std.specs.Prelude.{◌≡◌, ◌+◌, ◌*◌, ◌≤◌, IfOk, length, map, sum};
ghost use Rattle.castor_code.specs.Pieces.{bool_piece};
ghost use Rattle.castor_code.specs.declared.code.Code.{Bool};
ghost use Rattle.std.specs.List.{flat_map};
ghost use Rattle.std.specs.Option.{option_map};
ghost use Rattle.castor_val.specs.Values.{value_of};
ghost use Rattle.castor_ltype.specs.Generation as generation;
ghost use Rattle.castor_ltype.specs.Places as place;
ghost use Rattle.castor_ltype.specs.Ranges as range;
ghost use Rattle.castor_ltype.specs.Sizes.{value_size};

use crate::laid::Laid;
use crate::ranges::{int_width, least_ends, least_range, range_width};
use castor_code::Code;
use castor_val::{Cell, Memory, Ty};
use std::alloc::Global;

/// The code of values of a type, of which some may be missing. Linear in their number.
pub fn scalar(alloc: Global, ty: Option<Ty>, values: &[Option<Cell>]) -> Result<Laid, Memory>
    ensures code { IfOk result (λ laid. laid.code ≡ generation.scalar_code ty (map (option_map value_of) values.now)) }
    ensures sizes { IfOk result (λ laid. laid.sizes.items ≡ map (λ o. value_size laid.code (option_map value_of o)) values.now) }
{
    match ty {
        Some(Ty::Int) => Ok(ints(alloc, values)?),
        Some(Ty::Bool) => Ok(bools(alloc, values)?),
        Some(Ty::Text) => Ok(texts(alloc, values)?),
        None => Ok(bools(alloc, values)?),
    }
}

fn ints(alloc: Global, values: &[Option<Cell>]) -> Result<Laid, Memory>
    ensures code { IfOk result (λ laid. laid.code ≡ range.int_code (flat_map place.int_in (map (option_map value_of) values.now))) }
    ensures sizes { IfOk result (λ laid. laid.sizes.items ≡ map (λ o. value_size laid.code (option_map value_of o)) values.now) }
{
    let numbers = ints_in(alloc, values)?;
    let ends = least_ends(numbers.as_slice());
    let width = int_width(ends);
    let mut sizes = Vec::new(alloc);
    for value in values {
        sizes.push(int_size(width, *value))?;
    }
    let code = Code::Int {
        lo: ends.lo,
        hi: ends.hi,
    };
    Ok(Laid { code, sizes })
}

// The width, where an int stands.
fn int_size(width: u64, value: Option<Cell>) -> u64
    ensures { result ≡ width * length (place.int_in (option_map value_of value.entry)) }
{
    match value {
        Some(Cell::Int(_)) => width,
        Some(Cell::Bool(_)) => 0,
        Some(Cell::Text(_)) => 0,
        None => 0,
    }
}

fn bools(alloc: Global, values: &[Option<Cell>]) -> Result<Laid, Memory>
    ensures code { IfOk result (λ laid. laid.code ≡ Bool) }
    ensures sizes { IfOk result (λ laid. laid.sizes.items ≡ map (λ o. value_size laid.code (option_map value_of o)) values.now) }
{
    let mut sizes = Vec::new(alloc);
    for value in values {
        sizes.push(bool_size(*value))?;
    }
    Ok(Laid {
        code: Code::Bool,
        sizes,
    })
}

// One byte, where a bool stands.
fn bool_size(value: Option<Cell>) -> u64
    ensures { result ≡ length (bool_piece (option_map value_of value.entry)).bytes }
{
    match value {
        Some(Cell::Int(_)) => 0,
        Some(Cell::Bool(_)) => 1,
        Some(Cell::Text(_)) => 0,
        None => 0,
    }
}

fn texts(alloc: Global, values: &[Option<Cell>]) -> Result<Laid, Memory>
    ensures code { IfOk result (λ laid. laid.code ≡ range.text_code (flat_map place.text_length_in (map (option_map value_of) values.now))) }
    ensures sizes { IfOk result (λ laid. laid.sizes.items ≡ map (λ o. value_size laid.code (option_map value_of o)) values.now) }
{
    let lengths = lengths_in(alloc, values)?;
    let lengths = least_range(lengths.as_slice());
    let min = text_length(lengths.lo)?;
    let max = text_length(lengths.hi)?;
    let width = range_width(lengths);
    let mut sizes = Vec::new(alloc);
    for value in values {
        sizes.push(text_size(width, *value))?;
    }
    Ok(Laid {
        code: Code::Text { min, max },
        sizes,
    })
}

// The width and the bytes of the text, where one stands.
fn text_size(width: u64, value: Option<Cell>) -> u64
    requires { width ≤ 8 }
    ensures { result ≡ sum (map (λ n. width + n) (place.text_length_in (option_map value_of value.entry))) }
{
    match value {
        Some(Cell::Int(_)) => 0,
        Some(Cell::Bool(_)) => 0,
        Some(Cell::Text(text)) => width + text.len() as u64,
        None => 0,
    }
}

// The length of a text. None that is held has more than 65,535 bytes.
fn text_length(len: u64) -> Result<u16, Memory>
    ensures { IfOk result (λ n. n ≡ len) }
{
    match u16::try_from(len) {
        Ok(len) => Ok(len),
        Err(_) => Err(Memory),
    }
}

fn ints_in(alloc: Global, values: &[Option<Cell>]) -> Result<Vec<i64>, Memory>
    ensures { IfOk result (λ ints. ints.items ≡ flat_map place.int_in (map (option_map value_of) values.now)) }
{
    let mut ints = Vec::new(alloc);
    for value in values {
        if let Some(Cell::Int(number)) = value {
            ints.push(*number)?;
        }
    }
    Ok(ints)
}

fn lengths_in(alloc: Global, values: &[Option<Cell>]) -> Result<Vec<u64>, Memory>
    ensures { IfOk result (λ lengths. lengths.items ≡ flat_map place.text_length_in (map (option_map value_of) values.now)) }
{
    let mut lengths = Vec::new(alloc);
    for value in values {
        if let Some(Cell::Text(text)) = value {
            lengths.push(text.len() as u64)?;
        }
    }
    Ok(lengths)
}
