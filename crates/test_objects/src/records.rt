//! Symbols, relocations and dynamic entries, as the bytes of their sections.

use crate::class::ObjectClass;
use elf_format::Crel;
use std::alloc::{AllocError, Global};

/// Returns the bytes of a symbol table of ELFCLASS64 (gABI, "Symbol Table"): the null symbol, and for each of these section
/// indexes a section symbol of value 0.
pub fn symbol_table(alloc: Global, sections: &[u16]) -> Result<Vec<u8>, AllocError> {
    let mut bytes = vec![in alloc; 0u8; 24]?;
    for section in sections {
        bytes.extend_from_slice(&[0, 0, 0, 0, 3, 0])?;
        bytes.extend_from_slice(&section.to_le_bytes())?;
        bytes.extend_from_slice(&[0; 16])?;
    }
    Ok(bytes)
}

/// Returns the bytes of RELA records of ELFCLASS64 (gABI, "Relocation").
pub fn rela_records(alloc: Global, relocations: &[Crel]) -> Result<Vec<u8>, AllocError> {
    let mut bytes = Vec::new(alloc);
    for relocation in relocations {
        bytes.extend_from_slice(&relocation.offset.to_le_bytes())?;
        bytes.extend_from_slice(&relocation.kind.to_le_bytes())?;
        bytes.extend_from_slice(&relocation.symbol.to_le_bytes())?;
        bytes.extend_from_slice(&relocation.addend.to_le_bytes())?;
    }
    Ok(bytes)
}

/// A symbol, by the fields of its entry (gABI, "Symbol Table").
#[derive(Clone, Copy)]
pub struct SymbolRecord {
    /// `st_name`.
    pub name: u32,
    /// `st_info`.
    pub info: u8,
    /// `st_other`.
    pub other: u8,
    /// `st_shndx`.
    pub section: u16,
    /// `st_value`.
    pub value: u64,
    /// `st_size`.
    pub size: u64,
}

impl SymbolRecord {
    /// Appends the entry in a class.
    fn push(self, class: ObjectClass, bytes: &mut Vec<u8>) -> Result<(), AllocError> {
        bytes.extend_from_slice(&self.name.to_le_bytes())?;
        if matches!(class, ObjectClass::Elf32) {
            class.push(bytes, self.value)?;
            class.push(bytes, self.size)?;
        }
        bytes.extend_from_slice(&[self.info, self.other])?;
        bytes.extend_from_slice(&self.section.to_le_bytes())?;
        if matches!(class, ObjectClass::Elf64) {
            class.push(bytes, self.value)?;
            class.push(bytes, self.size)?;
        }
        Ok(())
    }
}

/// Returns the bytes of a symbol table of a class with these entries.
pub fn symbol_records(
    alloc: Global,
    class: ObjectClass,
    symbols: &[SymbolRecord],
) -> Result<Vec<u8>, AllocError> {
    let mut bytes = Vec::new(alloc);
    for symbol in symbols {
        symbol.push(class, &mut bytes)?;
    }
    Ok(bytes)
}

/// Returns the bytes of a dynamic section of a class with these entries, each a tag and a value (gABI, "Dynamic Section").
pub fn dynamic_entries(
    alloc: Global,
    class: ObjectClass,
    entries: &[(u64, u64)],
) -> Result<Vec<u8>, AllocError> {
    let mut bytes = Vec::new(alloc);
    for (tag, value) in entries {
        class.push(&mut bytes, *tag)?;
        class.push(&mut bytes, *value)?;
    }
    Ok(bytes)
}
