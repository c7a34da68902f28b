//! The errors of `derive_tables`: one variant a cause, in the order of the checks. `From` converts the errors of the
//! index and of the SFrame section.

use elf_format::{ElfError, SectionIndex};
use gdb_index_format::UnitFault;
use gdb_tables::GdbError;
use sframe_format::{LargeKind, SframeFault, TruncatedKind};
use std::alloc::{AllocError, AllocFailed};
use thiserror::Error;

/// The reason why no tables are derived. An object is given by its index in the input, from 0; offsets count bytes.
#[derive(Clone, Copy, Debug, PartialEq, Eq, Error)]
pub enum DeriveError {
    /// The span of this index is reversed or ends after the end of the buffer.
    #[error("span {0} does not lie in the buffer")]
    BadSpan(usize),
    /// The object is malformed, not relocatable or for another machine; or the bytes of a section that is read are out of
    /// range, or the relocations of its CUs are malformed.
    #[error("object {0} is no relocatable file of the machine: {1:?}")]
    BadElf(usize, ElfError),
    /// The placement of this index does not follow the one before it by object and section, names an object or a section
    /// that does not exist, or has an end that does not fit 64 bits.
    #[error("placement {0} is out of order, of no section, or ends too high")]
    BadPlacement(usize),
    /// This section of the object is compressed: the lowest of those that are read and are compressed.
    #[error("object {0}: {1:?} is compressed")]
    CompressedSection(usize, SectionIndex),
    /// No compilation unit (CU) begins at this offset of the object's `.debug_info`.
    #[error("the unit at {offset} of object {object} is malformed: {fault:?}")]
    BadUnit {
        object: usize,
        offset: u64,
        fault: UnitFault,
    },
    /// This `.debug_gnu_pubnames` or `.debug_gnu_pubtypes` of the object is not a list of sets.
    #[error("object {0}: {1:?} holds no list of sets")]
    BadPubnames(usize, SectionIndex),
    /// The number of CUs, above 16,777,216: the CU vectors of an index cannot hold their indexes.
    #[error("there are {0} units, more than an index can number")]
    TooManyUnits(u64),
    /// The size of the index in bytes, above 4,294,967,295: its offsets of four bytes cannot hold it.
    #[error("the index would have {0} bytes, more than it can count")]
    IndexTooLarge(u128),
    /// The range of this index is reversed or ends after the end of the SFrame bytes.
    #[error("range {0} does not lie in the SFrame section")]
    BadRange(usize),
    /// The contribution at this offset of the SFrame bytes has this magic, which is not 0xdee2.
    #[error("the contribution at {offset} begins with {value:#x}")]
    BadMagicBytes {
        value: u16,
        offset: usize,
    },
    /// A contribution is truncated: `offset` is that of the contribution, or of the FDE whose FREs are out of range.
    #[error("a part of the contribution at {offset} ends beyond it")]
    SframeTruncated {
        kind: TruncatedKind,
        offset: usize,
    },
    /// More is needed than the limit allows: bytes of the section or of the merged contribution, or FREs.
    #[error("the SFrame section needs {needed}, above the limit of {limit}")]
    SframeTooLarge {
        kind: LargeKind,
        needed: u128,
        limit: u64,
    },
    /// The start value of the function of this index in the new order does not fit 32 signed bits.
    #[error("the start value {value} of function {function} does not fit")]
    SframeAddressRange {
        function: usize,
        value: i128,
    },
    /// Out of memory.
    #[error("out of memory")]
    NoMemory,
}

impl From<AllocError> for DeriveError {
    ghost use Rattle.std.specs.Prelude.{◌≡◌};
    ghost use Rattle.derivation.specs.declared.error.DeriveError.TheVariants.{NoMemory};

    ghost from_gives = { λ _ e. e ≡ NoMemory };

    fn from(_error: AllocError) -> DeriveError {
        DeriveError::NoMemory
    }
}

impl<T: Drop> From<AllocFailed<T>> for DeriveError {
    ghost use Rattle.std.specs.Prelude.{◌≡◌};
    ghost use Rattle.derivation.specs.declared.error.DeriveError.TheVariants.{NoMemory};

    ghost from_gives = { λ _ e. e ≡ NoMemory };

    fn from(_error: AllocFailed<T>) -> DeriveError {
        DeriveError::NoMemory
    }
}

impl From<GdbError> for DeriveError {
    ghost use Rattle.std.specs.Prelude.{◌≡◌};
    ghost use Rattle.derivation.specs.Cause as cause;

    ghost from_gives = { λ g e. e ≡ cause.of_gdb_error g };

    fn from(error: GdbError) -> DeriveError {
        match error {
            GdbError::BadElf(object, kind) => DeriveError::BadElf(object, kind),
            GdbError::CompressedSection(object, section) => {
                DeriveError::CompressedSection(object, section)
            }
            GdbError::BadUnit {
                object,
                offset,
                fault,
            } => DeriveError::BadUnit {
                object,
                offset,
                fault,
            },
            GdbError::BadPubnames(object, section) => DeriveError::BadPubnames(object, section),
            GdbError::TooManyUnits(count) => DeriveError::TooManyUnits(count),
            GdbError::IndexTooLarge(size) => DeriveError::IndexTooLarge(size),
            GdbError::NoMemory => DeriveError::NoMemory,
        }
    }
}

impl From<SframeFault> for DeriveError {
    ghost use Rattle.std.specs.Prelude.{◌≡◌};
    ghost use Rattle.derivation.specs.Cause as cause;

    ghost from_gives = { λ g e. e ≡ cause.of_sframe_fault g };

    fn from(fault: SframeFault) -> DeriveError {
        match fault {
            SframeFault::BadRange(index) => DeriveError::BadRange(index),
            SframeFault::BadMagic { value, offset } => DeriveError::BadMagicBytes { value, offset },
            SframeFault::Truncated { kind, offset } => {
                DeriveError::SframeTruncated { kind, offset }
            }
            SframeFault::TooLarge {
                kind,
                needed,
                limit,
            } => DeriveError::SframeTooLarge {
                kind,
                needed,
                limit,
            },
            SframeFault::AddressRange { function, value } => {
                DeriveError::SframeAddressRange { function, value }
            }
            SframeFault::NoMemory => DeriveError::NoMemory,
        }
    }
}
