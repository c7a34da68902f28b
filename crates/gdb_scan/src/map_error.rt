//! Why the units of sections are not found.

use elf_format::ElfError;
use std::alloc::{AllocError, AllocFailed};
use thiserror::Error;

/// Why the units of an object's sections are not found.
#[derive(Clone, Copy, Debug, PartialEq, Eq, Error)]
pub enum MapError {
    /// The relocations of the object's `.debug_info` are malformed: their bytes are out of range (`SectionData`), or no
    /// whole RELA records (`RelocationTable`), or a symbol or the index of its section is missing (`SymbolIndex`).
    #[error("the relocations of the units are malformed: {0:?}")]
    Elf(ElfError),
    /// Out of memory.
    #[error("out of memory")]
    NoMemory,
}

impl From<AllocError> for MapError {
    ghost use Rattle.std.specs.Prelude.{◌≡◌};
    ghost use Rattle.gdb_scan.specs.declared.map_error.MapError.TheVariants.{NoMemory};

    ghost from_gives = { λ _ e. e ≡ NoMemory };

    fn from(_: AllocError) -> Self {
        MapError::NoMemory
    }
}

impl<T: Drop> From<AllocFailed<T>> for MapError {
    ghost use Rattle.std.specs.Prelude.{◌≡◌};
    ghost use Rattle.gdb_scan.specs.declared.map_error.MapError.TheVariants.{NoMemory};

    ghost from_gives = { λ _ e. e ≡ NoMemory };

    fn from(_: AllocFailed<T>) -> Self {
        MapError::NoMemory
    }
}
