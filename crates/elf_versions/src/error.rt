//! Why the names of versions are not returned.

use elf_format::ElfError;
use std::alloc::{AllocError, AllocFailed};
use thiserror::Error;

/// Why the names of versions are not returned.
#[derive(Clone, Copy, Debug, PartialEq, Eq, Error)]
pub enum VersionError {
    /// A version record is truncated, a definition has no name record, or a name is unreadable: `VersionTable`.
    #[error("the versions are not read: {0:?}")]
    Elf(ElfError),
    /// The index of a version definition is above the number of definitions.
    #[error("version index {0} is above the number of definitions")]
    BadIndex(u16),
    /// Out of memory.
    #[error("out of memory")]
    NoMemory,
}

impl From<ElfError> for VersionError {
    ghost use Rattle.std.specs.Prelude.{◌≡◌};
    ghost use Rattle.elf_versions.specs.declared.error.VersionError.TheVariants as version;

    ghost from_gives = { λ error e. e ≡ version.Elf error };

    fn from(error: ElfError) -> Self {
        VersionError::Elf(error)
    }
}

impl From<AllocError> for VersionError {
    ghost use Rattle.std.specs.Prelude.{◌≡◌};
    ghost use Rattle.elf_versions.specs.declared.error.VersionError.TheVariants.{NoMemory};

    ghost from_gives = { λ _ e. e ≡ NoMemory };

    fn from(_: AllocError) -> Self {
        VersionError::NoMemory
    }
}

impl<T: Drop> From<AllocFailed<T>> for VersionError {
    ghost use Rattle.std.specs.Prelude.{◌≡◌};
    ghost use Rattle.elf_versions.specs.declared.error.VersionError.TheVariants.{NoMemory};

    ghost from_gives = { λ _ e. e ≡ NoMemory };

    fn from(_: AllocFailed<T>) -> Self {
        VersionError::NoMemory
    }
}
