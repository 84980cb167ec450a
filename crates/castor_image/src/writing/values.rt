//! Values.

ghost use Rattle.std.specs.Prelude.{◌≡◌, length};
ghost use Rattle.std.specs.Int.{int_gap};
ghost use Rattle.std.specs.Str.{is_utf8};
ghost use Rattle.castor_fixed.specs.Fields.{range_field};
ghost use Rattle.std.specs.Option.{option_copied};
ghost use Rattle.castor_code.specs.Pieces.{behind_number, bool_piece, int_piece, text_piece, within_int};
ghost use Rattle.castor_image.specs.Puts.{Puts};

use super::PutError;
use super::numbers::put_ranged;
use castor_code::Range;
use castor_code::fields::push_field;
use castor_val::Value;

/// How far the second number is above the first, and 0 where it is below.
pub fn gap(lo: i64, hi: i64) -> u64
    ensures { result ≡ int_gap lo hi }
{
    if hi < lo {
        0
    } else {
        (hi as i128 - lo as i128) as u64
    }
}

/// An int, in one field of its range.
pub fn put_int(out: &mut Vec<u8>, lo: i64, hi: i64, value: Option<&Value>) -> Result<(), PutError>
    ensures { Puts (int_piece lo hi (option_copied value.entry)) out.old.items out.new.items result }
{
    match value {
        Some(Value::Int(number)) => put_int_field(out, lo, hi, *number),
        Some(Value::Bool(_)) => Err(PutError::NotFit),
        Some(Value::Text(_)) => Err(PutError::NotFit),
        None => Err(PutError::NotFit),
    }
}

fn put_int_field(out: &mut Vec<u8>, lo: i64, hi: i64, number: i64) -> Result<(), PutError>
    ensures { Puts (record { fits = within_int lo hi number; bytes = range_field lo hi number }) out.old.items out.new.items result }
{
    if number < lo || hi < number {
        return Err(PutError::NotFit);
    }
    push_field(out, gap(lo, hi), gap(lo, number))?;
    Ok(())
}

/// A bool, as one byte.
pub fn put_bool(out: &mut Vec<u8>, value: Option<&Value>) -> Result<(), PutError>
    ensures { Puts (bool_piece (option_copied value.entry)) out.old.items out.new.items result }
{
    match value {
        Some(Value::Int(_)) => Err(PutError::NotFit),
        Some(Value::Bool(truth)) => {
            out.push(if *truth { 1 } else { 0 })?;
            Ok(())
        }
        Some(Value::Text(_)) => Err(PutError::NotFit),
        None => Err(PutError::NotFit),
    }
}

/// A text, behind a field for its length.
pub fn put_text(
    out: &mut Vec<u8>,
    min: u16,
    max: u16,
    value: Option<&Value>,
) -> Result<(), PutError>
    ensures { Puts (text_piece (record { lo = min; hi = max }) (option_copied value.entry)) out.old.items out.new.items result }
{
    match value {
        Some(Value::Int(_)) => Err(PutError::NotFit),
        Some(Value::Bool(_)) => Err(PutError::NotFit),
        Some(Value::Text(text)) => put_str(out, min, max, text.as_str()),
        None => Err(PutError::NotFit),
    }
}

fn put_str(out: &mut Vec<u8>, min: u16, max: u16, text: &str) -> Result<(), PutError>
    ensures { Puts (behind_number (record { lo = min; hi = max }) (length text.now) (record { fits = is_utf8 text.now; bytes = text.now })) out.old.items out.new.items result }
{
    let lengths = Range {
        lo: min as u64,
        hi: max as u64,
    };
    put_ranged(out, lengths, text.len() as u64)?;
    out.extend_from_slice(text.as_bytes())?;
    Ok(())
}
