//! The reasons why an index cannot be browsed.

use gdb_index_format::BadIndex;
use thiserror::Error;

/// The first test that an index fails. Slots are numbered from 0.
#[derive(Clone, Copy, Debug, PartialEq, Eq, Error)]
pub enum BrowseError {
    /// The bytes are shorter than the header of their version, and not empty.
    #[error("the index is shorter than its header")]
    Short,
    /// No probe can be made: the version, the offsets of the parts, or the slot count.
    #[error("the index is malformed: {0:?}")]
    Format(BadIndex),
    /// The types CU list is not empty.
    #[error("the index lists type units")]
    TypeUnits,
    /// The CU list is no whole number of entries.
    #[error("the CU list is no whole number of entries")]
    UnitArea,
    /// The number of whole entries, where more bytes follow the last of them in the address area; else the index of the
    /// first address entry whose unit is not in the CU list.
    #[error("address entry {0} is truncated or of no unit")]
    AddressArea(usize),
    /// No zero byte ends the name of this slot.
    #[error("the name of slot {0} has no end")]
    NameOutside(usize),
    /// The CU vector of this slot is truncated.
    #[error("the CU vector of slot {0} is truncated")]
    VectorOutside(usize),
    /// The CU vector of this slot is empty, or has an element whose bits 24 to 27 are not zero or whose unit is not in the CU
    /// list.
    #[error("the CU vector of slot {0} is malformed")]
    BadVector(usize),
    /// The probe for the name of this slot does not end there.
    #[error("the name of slot {0} is not found there")]
    Misplaced(usize),
}
