//! Why an image isn't opened.

ghost use Rattle.std.specs.Prelude.{◌≡◌};

use castor_val::Memory;
use std::alloc::{AllocError, AllocFailed};

/// Why bytes give no image.
#[derive(Clone, Copy, Debug, PartialEq, Eq)]
pub enum OpenError {
    /// The bytes are no image.
    NotImage,
    /// There was no memory for what the image holds.
    Memory,
}

impl From<Memory> for OpenError {
    ghost use Rattle.castor_image.specs.declared.error.OpenError.TheVariants.{Memory};

    ghost from_gives = { λ _ e. e ≡ Memory };

    fn from(_: Memory) -> OpenError {
        OpenError::Memory
    }
}

impl From<AllocError> for OpenError {
    ghost use Rattle.castor_image.specs.declared.error.OpenError.TheVariants.{Memory};

    ghost from_gives = { λ _ e. e ≡ Memory };

    fn from(_: AllocError) -> OpenError {
        OpenError::Memory
    }
}

impl<T: Drop> From<AllocFailed<T>> for OpenError {
    ghost use Rattle.castor_image.specs.declared.error.OpenError.TheVariants.{Memory};

    ghost from_gives = { λ _ e. e ≡ Memory };

    fn from(_: AllocFailed<T>) -> OpenError {
        OpenError::Memory
    }
}
