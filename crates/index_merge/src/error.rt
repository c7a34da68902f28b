//! The reasons why two indexes are not merged.

use thiserror::Error;

/// Why two indexes are not merged.
#[derive(Clone, Copy, Debug, PartialEq, Eq, Error)]
pub enum MergeError {
    /// The first unit of the second index, by its index from 0, whose moved offset is above 2^64 - 1.
    #[error("the offset of unit {0} of the second index is too large")]
    OffsetTooLarge(usize),
    /// The number of units of both indexes, which is above 16,777,216.
    #[error("{0} units are more than a CU index can count")]
    TooManyUnits(u64),
    /// The size of the merged index in bytes, which is above 4,294,967,295.
    #[error("an index of {0} bytes is larger than its offsets can count")]
    IndexTooLarge(u128),
    /// Out of memory.
    #[error("out of memory")]
    NoMemory,
}
