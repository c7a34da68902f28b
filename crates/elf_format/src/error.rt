//! The errors of reading a file.

/// The rule that a file, or the part of it that is read, breaks.
#[derive(Clone, Copy, Debug, PartialEq, Eq)]
pub enum ElfError {
    /// The file header is truncated, or not one of the class, little endian and version 1.
    Header,
    /// The machine is not supported, or not the expected one.
    Machine,
    /// The section header table is out of range, a section index is out of range, or a section name is unreadable.
    SectionTable,
    /// The bytes of a section are out of range.
    SectionData,
    /// A symbol table or its string table is malformed, or a symbol name is unreadable.
    SymbolTable,
    /// A symbol index is out of range, or the symbol has no section index.
    SymbolIndex,
    /// A section of relocations is malformed.
    RelocationTable,
    /// A section of versions is malformed.
    VersionTable,
    /// The bytes of a section are compressed.
    Compressed,
}
