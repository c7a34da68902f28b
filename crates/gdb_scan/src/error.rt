//! Why there is no index, with the object and the section that is malformed.

ghost use Rattle.std.specs.Prelude.{◌≡◌};
ghost use Rattle.gdb_scan.specs.steps.ErrorOf.{of_unit_error, of_set_error};

use dwarf_sections::{SetError, UnitError};
use elf_format::{ElfError, SectionIndex};
use gdb_index_format::UnitFault;
use std::alloc::{AllocError, AllocFailed};
use thiserror::Error;

/// Why there is no index. An object has its index in the input, from 0.
#[derive(Clone, Copy, Debug, PartialEq, Eq, Error)]
pub enum GdbError {
    /// The bytes of a section of the object that is read are out of range (`SectionData`), or another of its ELF parts is
    /// malformed.
    #[error("object {0} is a malformed ELF file: {1:?}")]
    BadElf(usize, ElfError),
    /// The section of the object is compressed: the lowest of those that are read and are compressed.
    #[error("object {0}: {1:?} is compressed")]
    CompressedSection(usize, SectionIndex),
    /// At this offset of the object's `.debug_info`, in bytes from its start, no compilation unit (CU) begins.
    #[error("the unit at {offset} of object {object} is malformed: {fault:?}")]
    BadUnit {
        object: usize,
        offset: u64,
        fault: UnitFault,
    },
    /// The `.debug_gnu_pubnames` or `.debug_gnu_pubtypes` section of the object is no list of sets.
    #[error("object {0}: {1:?} holds no list of sets")]
    BadPubnames(usize, SectionIndex),
    /// So many units are more than the elements of a CU vector can number: above 16,777,216.
    #[error("there are {0} units, more than an index can number")]
    TooManyUnits(u64),
    /// An index of so many bytes is larger than its offsets can count: above 4,294,967,295.
    #[error("the index would have {0} bytes, more than it can count")]
    IndexTooLarge(u128),
    /// Out of memory.
    #[error("out of memory")]
    NoMemory,
}

impl From<AllocError> for GdbError {
    ghost use Rattle.std.specs.Prelude.{◌≡◌};
    ghost use Rattle.gdb_scan.specs.declared.error.GdbError.TheVariants.{NoMemory};

    ghost from_gives = { λ _ e. e ≡ NoMemory };

    fn from(_: AllocError) -> Self {
        GdbError::NoMemory
    }
}

impl<T: Drop> From<AllocFailed<T>> for GdbError {
    ghost use Rattle.std.specs.Prelude.{◌≡◌};
    ghost use Rattle.gdb_scan.specs.declared.error.GdbError.TheVariants.{NoMemory};

    ghost from_gives = { λ _ e. e ≡ NoMemory };

    fn from(_: AllocFailed<T>) -> Self {
        GdbError::NoMemory
    }
}

/// Returns the error of an object whose units are not read.
pub(crate) fn of_units(object: usize, error: UnitError) -> GdbError
    ensures { result ≡ of_unit_error object error }
{
    match error {
        UnitError::Truncated { offset } => GdbError::BadUnit {
            object,
            offset,
            fault: UnitFault::Truncated,
        },
        UnitError::InvalidLength { offset } => GdbError::BadUnit {
            object,
            offset,
            fault: UnitFault::InvalidLength,
        },
        UnitError::NoMemory => GdbError::NoMemory,
    }
}

/// Returns the error of an object whose pubnames section is not read.
pub(crate) fn of_names(object: usize, section: SectionIndex, error: SetError) -> GdbError
    ensures { result ≡ of_set_error object section error }
{
    match error {
        SetError::BadSet => GdbError::BadPubnames(object, section),
        SetError::NoMemory => GdbError::NoMemory,
    }
}
