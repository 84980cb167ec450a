//! Numbers and texts.

ghost use Rattle.std.specs.Prelude.{◌≡◌, ◌++◌, OnOk, true};
ghost use Rattle.castor_code.specs.CodeForms.{range_form, ranges_form};
ghost use Rattle.castor_code.specs.Forms.{bool_form, int_form, text_form, u16_form, u32_form, u64_form, u8_form};

use crate::code::Range;
use crate::fields::push_field;
use castor_val::Memory;

pub fn put_u8(out: &mut Vec<u8>, number: u8) -> Result<(), Memory>
    ensures { OnOk result (out.new.items ≡ out.old.items ++ (u8_form number).bytes) }
{
    push_field(out, u8::MAX as u64, number as u64)
}

pub fn put_u16(out: &mut Vec<u8>, number: u16) -> Result<(), Memory>
    ensures { OnOk result (out.new.items ≡ out.old.items ++ (u16_form number).bytes) }
{
    push_field(out, u16::MAX as u64, number as u64)
}

pub fn put_u32(out: &mut Vec<u8>, number: u32) -> Result<(), Memory>
    ensures { OnOk result (out.new.items ≡ out.old.items ++ (u32_form number).bytes) }
{
    push_field(out, u32::MAX as u64, number as u64)
}

pub fn put_u64(out: &mut Vec<u8>, number: u64) -> Result<(), Memory>
    ensures { OnOk result (out.new.items ≡ out.old.items ++ (u64_form number).bytes) }
{
    push_field(out, u64::MAX, number)
}

pub fn put_int(out: &mut Vec<u8>, number: i64) -> Result<(), Memory>
    ensures { OnOk result (out.new.items ≡ out.old.items ++ (int_form number).bytes) }
{
    put_u64(out, number.cast_unsigned())
}

pub fn put_bool(out: &mut Vec<u8>, truth: bool) -> Result<(), Memory>
    ensures { OnOk result (out.new.items ≡ out.old.items ++ (bool_form truth).bytes) }
{
    put_u8(out, if truth { 1 } else { 0 })
}

pub fn put_text(out: &mut Vec<u8>, text: &str) -> Result<(), Memory>
    requires { (text_form text.now).sound ≡ true }
    ensures { OnOk result (out.new.items ≡ out.old.items ++ (text_form text.now).bytes) }
{
    put_u16(out, text.len() as u16)?;
    out.extend_from_slice(text.as_bytes())?;
    Ok(())
}

fn put_range(out: &mut Vec<u8>, range: Range) -> Result<(), Memory>
    ensures { OnOk result (out.new.items ≡ out.old.items ++ (range_form range).bytes) }
{
    put_u64(out, range.lo)?;
    Ok(put_u64(out, range.hi)?)
}

/// The ranges of a count and of a body length.
pub fn put_ranges(out: &mut Vec<u8>, count: Range, body: Range) -> Result<(), Memory>
    ensures { OnOk result (out.new.items ≡ out.old.items ++ (ranges_form count body).bytes) }
{
    put_range(out, count)?;
    Ok(put_range(out, body)?)
}
