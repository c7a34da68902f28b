//! Why the table of relocation sections is not returned: the file's relocation sections are malformed, or an
//! allocation failed.

use elf_format::ElfError;
use std::alloc::{AllocError, AllocFailed};

/// Why the table of relocation sections is not returned.
#[derive(Clone, Copy, Debug, PartialEq, Eq)]
pub enum RelocError {
    /// A rule on ELF files is broken: `RelocationTable`.
    Elf(ElfError),
    /// An allocation failed.
    NoMemory,
}

impl From<ElfError> for RelocError {
    ghost use Rattle.std.specs.Prelude.{◌≡◌};
    ghost use Rattle.elf_view.specs.declared.reloc_error.RelocError.TheVariants as reloc;

    ghost from_gives = { λ error e. e ≡ reloc.Elf error };

    fn from(error: ElfError) -> Self {
        RelocError::Elf(error)
    }
}

impl From<AllocError> for RelocError {
    ghost use Rattle.std.specs.Prelude.{◌≡◌};
    ghost use Rattle.elf_view.specs.declared.reloc_error.RelocError.TheVariants as reloc;

    ghost from_gives = { λ _ e. e ≡ reloc.NoMemory };

    fn from(_: AllocError) -> Self {
        RelocError::NoMemory
    }
}

impl<T: Drop> From<AllocFailed<T>> for RelocError {
    ghost use Rattle.std.specs.Prelude.{◌≡◌};
    ghost use Rattle.elf_view.specs.declared.reloc_error.RelocError.TheVariants as reloc;

    ghost from_gives = { λ _ e. e ≡ reloc.NoMemory };

    fn from(_: AllocFailed<T>) -> Self {
        RelocError::NoMemory
    }
}
