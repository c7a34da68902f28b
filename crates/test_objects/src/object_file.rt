//! The bytes of an object: its header, its sections without gaps, and the section header table.

use crate::class::ObjectClass;
use crate::section::{Section, plain};
use elf_words::SHT_STRTAB;
use std::alloc::{AllocError, Global};

/// The sections of an object so far.
#[derive(Drop)]
struct Parts {
    /// The class of the object.
    class: ObjectClass,
    /// The bytes of the sections, which follow the file header.
    body: Vec<u8>,
    /// The section header table.
    table: Vec<u8>,
    /// The section names, each with a zero byte after it.
    names: Vec<u8>,
}

impl Parts {
    /// Returns the null section header and the empty name.
    fn new(alloc: Global, class: ObjectClass) -> Result<Parts, AllocError> {
        let table = vec![in alloc; 0u8; usize::from(class.section_header_size())]?;
        let names = vec![in alloc; 0u8; 1]?;
        Ok(Parts {
            class,
            body: Vec::new(alloc),
            table,
            names,
        })
    }

    /// Returns the offset in the file of the first byte after the sections.
    fn end(&self) -> u64 {
        (self.body.len() as u64).saturating_add(u64::from(self.class.file_header_size()))
    }

    /// Appends a section.
    fn push(&mut self, section: &Section<'_>) -> Result<(), AllocError> {
        let name = u32::try_from(self.names.len()).unwrap_or(u32::MAX);
        let offset = self.end();
        self.table.extend_from_slice(&name.to_le_bytes())?;
        self.table
            .extend_from_slice(&section.section_type.to_le_bytes())?;
        for number in [section.flags, 0, offset, section.bytes.len() as u64] {
            self.class.push(&mut self.table, number)?;
        }
        self.table.extend_from_slice(&section.link.to_le_bytes())?;
        self.table.extend_from_slice(&section.info.to_le_bytes())?;
        for number in [1, section.entry_size] {
            self.class.push(&mut self.table, number)?;
        }
        self.names.extend_from_slice(section.name)?;
        self.names.push(0)?;
        self.body.extend_from_slice(section.bytes)
    }

    /// Appends the section that holds the section names, its own included.
    fn push_names(&mut self, alloc: Global) -> Result<(), AllocError> {
        let mut names = self.names.as_slice().to_vec(alloc)?;
        names.extend_from_slice(b".shstrtab\0")?;
        self.push(&Section {
            section_type: SHT_STRTAB,
            ..plain(b".shstrtab", 0, &names)
        })
    }
}

/// Returns an object of ELFCLASS64 with a null section header, these sections and `.shstrtab`. At most 65,533
/// sections are counted right.
pub fn object(
    alloc: Global,
    file_type: u16,
    machine: u16,
    sections: &[Section<'_>],
) -> Result<Vec<u8>, AllocError> {
    object_of_class(alloc, ObjectClass::Elf64, file_type, machine, sections)
}

/// Returns such an object of a class.
pub fn object_of_class(
    alloc: Global,
    class: ObjectClass,
    file_type: u16,
    machine: u16,
    sections: &[Section<'_>],
) -> Result<Vec<u8>, AllocError> {
    let mut parts = Parts::new(alloc, class)?;
    for section in sections {
        parts.push(section)?;
    }
    parts.push_names(alloc)?;
    let last = u16::try_from(sections.len())
        .unwrap_or(u16::MAX)
        .saturating_add(1);
    let mut object = b"\x7fELF".to_vec(alloc)?;
    object.extend_from_slice(&[class.byte(), 1, 1, 0, 0, 0, 0, 0, 0, 0, 0, 0])?;
    object.extend_from_slice(&file_type.to_le_bytes())?;
    object.extend_from_slice(&machine.to_le_bytes())?;
    object.extend_from_slice(&[1, 0, 0, 0])?;
    for number in [0, 0, parts.end()] {
        class.push(&mut object, number)?;
    }
    object.extend_from_slice(&[0, 0, 0, 0, class.file_header_size(), 0, 0, 0, 0, 0])?;
    object.extend_from_slice(&[class.section_header_size(), 0])?;
    object.extend_from_slice(&last.saturating_add(1).to_le_bytes())?;
    object.extend_from_slice(&last.to_le_bytes())?;
    object.extend_from_slice(&parts.body)?;
    object.extend_from_slice(&parts.table)?;
    Ok(object)
}
