//! Why an `.eh_frame` section is not split.

use elf_format::ElfError;
use std::alloc::{AllocError, AllocFailed};
use thiserror::Error;

/// Why an `.eh_frame` section is not split.
#[derive(Clone, Copy, Debug, PartialEq, Eq, Error)]
pub enum FrameError {
    /// The entry at this offset, in bytes from the start of the section, ends after the section.
    #[error("the entry at {offset} ends after its section")]
    BadEntry { offset: usize },
    /// The relocation with this index in the list, from 0, says where the code of an FDE begins. Its symbol, or the extended
    /// section index of the symbol, is missing.
    #[error("the symbol of relocation {relocation}, or its section, is missing")]
    BadSymbol { relocation: usize },
    /// There is no such section (`SectionTable`), or its bytes are out of the file's range (`SectionData`).
    #[error("the section is not read: {0:?}")]
    Elf(ElfError),
    /// Out of memory.
    #[error("out of memory")]
    NoMemory,
}

impl From<AllocError> for FrameError {
    ghost use Rattle.std.specs.Prelude.{◌≡◌};
    ghost use Rattle.elf_frames.specs.declared.error.FrameError.TheVariants.{NoMemory};

    ghost from_gives = { λ _ e. e ≡ NoMemory };

    fn from(_: AllocError) -> Self {
        FrameError::NoMemory
    }
}

impl<T: Drop> From<AllocFailed<T>> for FrameError {
    ghost use Rattle.std.specs.Prelude.{◌≡◌};
    ghost use Rattle.elf_frames.specs.declared.error.FrameError.TheVariants.{NoMemory};

    ghost from_gives = { λ _ e. e ≡ NoMemory };

    fn from(_: AllocFailed<T>) -> Self {
        FrameError::NoMemory
    }
}
