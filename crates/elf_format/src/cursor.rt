//! Why a number or a string at the front of some bytes cannot be read.

/// Why a cursor cannot read. The cursor is unchanged.
#[derive(Clone, Copy, Debug, PartialEq, Eq)]
pub enum CursorError {
    /// The bytes end first.
    Short,
    /// A LEB128 number has more than ten bytes, or does not fit 64 bits.
    TooLong,
    /// A string is not UTF-8.
    NotUtf8,
}
