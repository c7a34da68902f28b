//! Why a `.debug_gnu_pubnames` or `.debug_gnu_pubtypes` section is not read.

use std::alloc::{AllocError, AllocFailed};
use thiserror::Error;

/// Why a `.debug_gnu_pubnames` or `.debug_gnu_pubtypes` section is not read.
#[derive(Clone, Copy, Debug, PartialEq, Eq, Error)]
pub enum SetError {
    /// The bytes are no list of sets.
    #[error("the section is no list of sets")]
    BadSet,
    /// Out of memory.
    #[error("out of memory")]
    NoMemory,
}

impl From<AllocError> for SetError {
    ghost use Rattle.std.specs.Prelude.{◌≡◌};
    ghost use Rattle.dwarf_sections.specs.declared.set_error.SetError.TheVariants.{NoMemory};

    ghost from_gives = { λ _ e. e ≡ NoMemory };

    fn from(_: AllocError) -> Self {
        SetError::NoMemory
    }
}

impl<T: Drop> From<AllocFailed<T>> for SetError {
    ghost use Rattle.std.specs.Prelude.{◌≡◌};
    ghost use Rattle.dwarf_sections.specs.declared.set_error.SetError.TheVariants.{NoMemory};

    ghost from_gives = { λ _ e. e ≡ NoMemory };

    fn from(_: AllocFailed<T>) -> Self {
        SetError::NoMemory
    }
}
