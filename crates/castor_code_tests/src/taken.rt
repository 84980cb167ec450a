//! What bytes are taken for.

ghost use Rattle.std.specs.Prelude.{◌≡◌, true};
ghost use Rattle.castor_code.specs.CodeForms.{is_well_formed};

use crate::bytes::bytes_of;
use crate::shown::push_code;
use castor_code::{Code, CodeError, decode, encode};
use castor_val::Memory;
use std::alloc::Global;

/// Whether these are the bytes of a code.
fn has_bytes(alloc: Global, code: &Code, bytes: &[u8]) -> Result<bool, Memory>
    requires { is_well_formed code.now ≡ true }
{
    let own = encode(alloc, code)?;
    Ok(own.as_slice() == bytes)
}

/// The text of a code that was read from these bytes, where it gives them back.
fn shown(alloc: Global, code: &Code, bytes: &[u8]) -> Result<String, Memory>
    requires { is_well_formed code.now ≡ true }
{
    let mut text = String::new(alloc);
    if has_bytes(alloc, code, bytes)? {
        push_code(&mut text, code)?;
    } else {
        text.push_str("other bytes")?;
    }
    Ok(text)
}

fn text_of(alloc: Global, code: Code, bytes: &[u8]) -> Result<String, Memory>
    requires { is_well_formed code ≡ true }
{
    shown(alloc, &code, bytes)
}

/// The text of the code that these bytes are, and `no code` where they are none.
pub fn taken(alloc: Global, bytes: &[u8]) -> Result<String, Memory> {
    match decode(alloc, bytes) {
        Ok(code) => text_of(alloc, code, bytes),
        Err(CodeError::NotCode) => Ok(String::from_str(alloc, "no code")?),
        Err(CodeError::Memory) => Err(Memory),
    }
}

/// The same of the bytes that hexadecimal digits are.
pub fn taken_for(alloc: Global, digits: &str) -> Result<String, Memory> {
    let bytes = bytes_of(alloc, digits)?;
    taken(alloc, bytes.as_slice())
}

fn gives_back(alloc: Global, code: Code, bytes: &[u8]) -> Result<bool, Memory>
    requires { is_well_formed code ≡ true }
{
    has_bytes(alloc, &code, bytes)
}

/// Whether these bytes are those of a code, which gives them back.
pub fn is_code(alloc: Global, bytes: &[u8]) -> Result<bool, Memory> {
    match decode(alloc, bytes) {
        Ok(code) => gives_back(alloc, code, bytes),
        Err(CodeError::NotCode) => Ok(false),
        Err(CodeError::Memory) => Err(Memory),
    }
}
