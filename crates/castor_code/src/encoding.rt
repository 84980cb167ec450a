//! The bytes of codes.

ghost use Rattle.std.specs.Prelude.{◌≡◌, IfOk, true};
ghost use Rattle.castor_code.specs.CodeForms.{code_bytes, is_well_formed};

mod codes;
mod exprs;
mod numbers;

use crate::code::Code;
use castor_val::Memory;
use codes::put_code;
use std::alloc::Global;

/// The bytes of a well-formed code. Linear in the code.
pub fn encode(alloc: Global, code: &Code) -> Result<Vec<u8>, Memory>
    requires { is_well_formed code.now ≡ true }
    ensures { IfOk result (λ bytes. bytes.items ≡ code_bytes code.now) }
{
    let mut bytes = Vec::new(alloc);
    put_code(&mut bytes, code)?;
    Ok(bytes)
}
