//! The two formats of DWARF (DWARF 5, 7.4), which an initial length selects.

/// The width of lengths and offsets.
#[derive(Clone, Copy, Debug, PartialEq, Eq)]
pub enum DwarfFormat {
    /// Four bytes.
    Dwarf32,
    /// Eight bytes.
    Dwarf64,
}
