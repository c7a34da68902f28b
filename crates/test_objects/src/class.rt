//! The classes of ELF files (gABI, "Data Representation"), by what differs in a test object.

use std::alloc::AllocError;

/// The class of an object.
#[derive(Clone, Copy)]
pub enum ObjectClass {
    /// ELFCLASS32.
    Elf32,
    /// ELFCLASS64.
    Elf64,
}

impl ObjectClass {
    /// Returns EI_CLASS of `e_ident`.
    pub(crate) fn byte(self) -> u8 {
        match self {
            ObjectClass::Elf32 => 1,
            ObjectClass::Elf64 => 2,
        }
    }

    /// Returns the size of the file header in bytes.
    pub(crate) fn file_header_size(self) -> u8 {
        match self {
            ObjectClass::Elf32 => 52,
            ObjectClass::Elf64 => 64,
        }
    }

    /// Returns the size of a section header in bytes.
    pub(crate) fn section_header_size(self) -> u8 {
        match self {
            ObjectClass::Elf32 => 40,
            ObjectClass::Elf64 => 64,
        }
    }

    /// Returns the size of a symbol in bytes.
    pub(crate) fn symbol_size(self) -> u64 {
        match self {
            ObjectClass::Elf32 => 16,
            ObjectClass::Elf64 => 24,
        }
    }

    /// Returns the size of a RELA record in bytes.
    pub(crate) fn rela_size(self) -> u64 {
        match self {
            ObjectClass::Elf32 => 12,
            ObjectClass::Elf64 => 24,
        }
    }

    /// Appends a number as wide as an address: of eight bytes, or of four with a number that does not fit cut to the
    /// greatest.
    pub(crate) fn push(self, bytes: &mut Vec<u8>, number: u64) -> Result<(), AllocError> {
        match self {
            ObjectClass::Elf32 => {
                bytes.extend_from_slice(&u32::try_from(number).unwrap_or(u32::MAX).to_le_bytes())
            }
            ObjectClass::Elf64 => bytes.extend_from_slice(&number.to_le_bytes()),
        }
    }
}
