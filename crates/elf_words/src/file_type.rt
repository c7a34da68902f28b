//! The types of a file (gABI, ELF Header, `e_type`).

/// A relocatable file.
pub const ET_REL: u16 = 1;
/// A shared object.
pub const ET_DYN: u16 = 3;
