//! Why a step isn't taken.

use castor_val::Memory;
use std::alloc::{AllocError, AllocFailed};

/// Why a step of a script gives no query.
#[derive(Clone, Copy, Debug, PartialEq, Eq)]
pub enum StepError {
    /// The query would be past a limit, or would need a scope number past 32 bits.
    TooLarge,
    /// There was no memory for the new query.
    Memory,
}

impl From<Memory> for StepError {
    ghost use Rattle.std.specs.Prelude.{◌≡◌};
    ghost use Rattle.castor_script.specs.declared.step_error.StepError.TheVariants.{Memory};

    ghost from_gives = { λ _ e. e ≡ Memory };

    fn from(_: Memory) -> StepError {
        StepError::Memory
    }
}

impl<T: Drop> From<AllocFailed<T>> for StepError {
    ghost use Rattle.std.specs.Prelude.{◌≡◌};
    ghost use Rattle.castor_script.specs.declared.step_error.StepError.TheVariants.{Memory};

    ghost from_gives = { λ _ e. e ≡ Memory };

    fn from(_: AllocFailed<T>) -> StepError {
        StepError::Memory
    }
}

impl From<AllocError> for StepError {
    ghost use Rattle.std.specs.Prelude.{◌≡◌};
    ghost use Rattle.castor_script.specs.declared.step_error.StepError.TheVariants.{Memory};

    ghost from_gives = { λ _ e. e ≡ Memory };

    fn from(_: AllocError) -> StepError {
        StepError::Memory
    }
}
