//! A section of a test object: the fields of its header that a test chooses, and its bytes.

use elf_words::SHT_PROGBITS;

/// A section, by the fields of its header (gABI, "Sections") and its bytes.
#[derive(Clone, Copy)]
pub struct Section<'a> {
    /// The name, without the zero byte after it.
    pub name: &'a [u8],
    /// `sh_type`.
    pub section_type: u32,
    /// `sh_flags`.
    pub flags: u64,
    /// `sh_link`.
    pub link: u32,
    /// `sh_info`.
    pub info: u32,
    /// `sh_entsize`.
    pub entry_size: u64,
    /// The section's bytes in the file.
    pub bytes: &'a [u8],
}

/// Returns a section of type PROGBITS without link, info and entry size.
pub fn plain<'a>(name: &'a [u8], flags: u64, bytes: &'a [u8]) -> Section<'a> {
    Section {
        name,
        section_type: SHT_PROGBITS,
        flags,
        link: 0,
        info: 0,
        entry_size: 0,
        bytes,
    }
}
