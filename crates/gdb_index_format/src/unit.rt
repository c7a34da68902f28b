//! The compilation units (CUs) of `.debug_info` (DWARF 5, 7.4 and 7.5.1), and the faults of their lengths.

/// A unit of `.debug_info`, or of the CU list of an index (GDB manual, "Index Section Format").
#[derive(Clone, Copy, Debug, PartialEq, Eq)]
pub struct CuBoundary {
    /// The offset of the unit, in bytes from the start of `.debug_info`.
    pub offset: u64,
    /// The size of the unit in bytes, its initial length included.
    pub length: u64,
}

/// The reason why no unit begins at an offset that at least four bytes follow (DWARF 5, 7.4).
#[derive(Clone, Copy, Debug, PartialEq, Eq)]
pub enum UnitFault {
    /// The length begins with 0xffffffff, and the eight bytes after that are truncated.
    Truncated,
    /// The unit ends after the end of the bytes.
    InvalidLength,
}
