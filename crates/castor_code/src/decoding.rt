//! Codes from their bytes.

ghost use Rattle.std.specs.Prelude.{◌≡◌, ◌⊎◌, MatchResult, true};
ghost use Rattle.castor_code.specs.CodeAnswers.{EndsWith, IsNoCode};
ghost use Rattle.castor_code.specs.CodeForms.{CodesDiffer, code_bytes, is_well_formed};
ghost use Rattle.castor_code.specs.declared.decoding.CodeError.TheVariants as error;

mod codes;
mod exprs;
mod numbers;

use crate::code::Code;
use castor_val::{MAX_CODE_NODES, MAX_DEPTH, Memory};
use std::alloc::{AllocError, AllocFailed, Global};

/// Why bytes give no code.
#[derive(Clone, Copy, Debug, PartialEq, Eq)]
pub enum CodeError {
    /// No well-formed code has just these bytes.
    NotCode,
    /// There was no memory for the code.
    Memory,
}

impl From<Memory> for CodeError {
    ghost use Rattle.castor_code.specs.declared.decoding.CodeError.TheVariants.{Memory};

    ghost from_gives = { λ _ e. e ≡ Memory };

    fn from(_: Memory) -> CodeError {
        CodeError::Memory
    }
}

impl From<AllocError> for CodeError {
    ghost use Rattle.castor_code.specs.declared.decoding.CodeError.TheVariants.{Memory};

    ghost from_gives = { λ _ e. e ≡ Memory };

    fn from(_: AllocError) -> CodeError {
        CodeError::Memory
    }
}

impl<T: Drop> From<AllocFailed<T>> for CodeError {
    ghost use Rattle.castor_code.specs.declared.decoding.CodeError.TheVariants.{Memory};

    ghost from_gives = { λ _ e. e ≡ Memory };

    fn from(_: AllocFailed<T>) -> CodeError {
        CodeError::Memory
    }
}

/// What is left to read.
#[derive(Drop)]
pub(crate) struct Input<'a> {
    rest: &'a [u8],
    /// How many nodes may still come.
    nodes: u64,
}

/// The code that the bytes are. `NotCode` comes exactly where no well-formed code has just these
/// bytes, and else `Memory`. Linear in the bytes.
pub fn decode(alloc: Global, bytes: &[u8]) -> Result<Code, CodeError>
    ensures value { MatchResult result (λ c. (is_well_formed c ≡ true) × (bytes.now ≡ code_bytes c)) (λ e. (e ≡ error.Memory) ⊎ ((e ≡ error.NotCode) × IsNoCode bytes.now)) }

    // Two well-formed codes never share their bytes.
    ensures law { CodesDiffer }
{
    let mut input = Input {
        rest: bytes,
        nodes: MAX_CODE_NODES,
    };
    let code = input.code(alloc, MAX_DEPTH as u8);
    at_end(code, input.rest)
}

/// The code that was read, where nothing is left behind it.
fn at_end(code: Result<Code, CodeError>, rest: &[u8]) -> Result<Code, CodeError>
    ensures { EndsWith code rest.now result }
{
    match code {
        Ok(code) => {
            if rest.is_empty() {
                Ok(code)
            } else {
                Err(CodeError::NotCode)
            }
        }
        Err(why) => Err(why),
    }
}
