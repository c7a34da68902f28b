//! Indexes into the tables of a file, and spans of bytes.

/// The index of a section in the section header table, from 0.
#[derive(Clone, Copy, Debug, PartialEq, Eq)]
pub struct SectionIndex(pub usize);

/// The index of a symbol in the symbol table, from 0.
#[derive(Clone, Copy, Debug, PartialEq, Eq)]
pub struct SymbolIndex(pub usize);

/// The bytes from the offset `start` up to the offset `stop`, without the one at `stop`.
#[derive(Clone, Copy, Debug, PartialEq, Eq)]
pub struct Span {
    /// The offset of the first byte.
    pub start: usize,
    /// The offset after the last byte.
    pub stop: usize,
}
