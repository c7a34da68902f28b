//! Why an SFrame section cannot be searched.

use sframe_format::{SframeError, TruncatedKind};
use thiserror::Error;

/// Why a section cannot be searched. The first cause is reported, in this order. Functions are numbered from 0, in the
/// order of their FDEs.
#[derive(Clone, Copy, Debug, PartialEq, Eq, Error)]
pub enum FindFault {
    /// The section has fewer than 28 bytes.
    #[error("the section is shorter than a header")]
    Short,
    /// The section does not begin with a header of version 2.
    #[error("{0}")]
    Header(SframeError),
    /// Flag 1 is missing: the section does not claim that its functions ascend by address.
    #[error("the section is not sorted")]
    NotSorted,
    /// The FDEs or FREs are out of range. The offset, in bytes from the start of the section, is 0, or that of the FDE
    /// whose row offset is out of range.
    #[error("a part of the contribution at {offset} ends beyond it")]
    Truncated { kind: TruncatedKind, offset: usize },
    /// The function of this index is the first whose address is below that of the function before it.
    #[error("the address of function {0} is below the one before it")]
    NotAscending(usize),
}
