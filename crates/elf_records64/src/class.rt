//! The class ELFCLASS64 (gABI, Data Representation): its records, their sizes and the alignments of its
//! tables, in bytes.

ghost use Rattle.elf_format.specs.Class.{class64};
ghost use Rattle.std.specs.Prelude.{refl};

use crate::{
    CompressionHeader64, Dyn64, FileHeader64, ProgramHeader64, Rela64, Relr64, SectionHeader64,
    Sym64,
};
use elf_words::{ElfClass, ElfSymbol, NoteHeader};

/// The class ELFCLASS64, whose addresses have 64 bits.
#[derive(Clone, Copy, Debug, Default)]
pub struct Class64;

impl ElfSymbol for Sym64 {
    type Class = Class64;
}

impl ElfClass for Class64 {
    ghost class = { class64 };

    ghost CLASS_BYTE = { 2 };

    const CLASS_BYTE: u8 = 2;

    type Word = u64;

    type FileHeader = FileHeader64;

    type ProgramHeader = ProgramHeader64;

    type SectionHeader = SectionHeader64;

    type CompressionHeader = CompressionHeader64;

    type Sym = Sym64;

    type Dyn = Dyn64;

    type Rela = Rela64;

    type Relr = Relr64;

    type NoteHeader = NoteHeader;

    ghost FILE_HEADER_SIZE = { 64 };

    const FILE_HEADER_SIZE: u16 = 64;

    ghost PROGRAM_HEADER_SIZE = { 56 };

    const PROGRAM_HEADER_SIZE: u16 = 56;

    ghost SECTION_HEADER_SIZE = { 64 };

    const SECTION_HEADER_SIZE: u16 = 64;

    ghost ADDRESS_SIZE = { 8 };

    const ADDRESS_SIZE: u64 = 8;

    ghost GOT_ENTRY_SIZE = { 8 };

    const GOT_ENTRY_SIZE: u64 = 8;

    ghost RELA_ENTRY_SIZE = { 24 };

    const RELA_ENTRY_SIZE: u64 = 24;

    ghost RELR_ENTRY_SIZE = { 8 };

    const RELR_ENTRY_SIZE: u64 = 8;

    ghost SYMTAB_ENTRY_SIZE = { 24 };

    const SYMTAB_ENTRY_SIZE: u64 = 24;

    ghost DYNAMIC_ENTRY_SIZE = { 16 };

    const DYNAMIC_ENTRY_SIZE: u64 = 16;

    ghost NOTE_HEADER_SIZE = { 12 };

    const NOTE_HEADER_SIZE: u64 = 12;

    ghost GNU_HASH_BLOOM_SIZE = { 8 };

    const GNU_HASH_BLOOM_SIZE: u64 = 8;

    ghost ADDRESS_ALIGNMENT = { 8 };

    const ADDRESS_ALIGNMENT: u64 = 8;

    ghost PROGRAM_HEADER_ALIGNMENT = { 8 };

    const PROGRAM_HEADER_ALIGNMENT: u64 = 8;

    ghost SECTION_HEADER_ALIGNMENT = { 8 };

    const SECTION_HEADER_ALIGNMENT: u64 = 8;

    ghost GOT_ENTRY_ALIGNMENT = { 8 };

    const GOT_ENTRY_ALIGNMENT: u64 = 8;

    ghost RELA_ENTRY_ALIGNMENT = { 8 };

    const RELA_ENTRY_ALIGNMENT: u64 = 8;

    ghost RELR_ENTRY_ALIGNMENT = { 8 };

    const RELR_ENTRY_ALIGNMENT: u64 = 8;

    ghost GNU_HASH_ALIGNMENT = { 8 };

    const GNU_HASH_ALIGNMENT: u64 = 8;

    ghost SYMTAB_ENTRY_ALIGNMENT = { 8 };

    const SYMTAB_ENTRY_ALIGNMENT: u64 = 8;

    ghost VERSION_D_ALIGNMENT = { 8 };

    const VERSION_D_ALIGNMENT: u64 = 8;

    ghost VERSION_R_ALIGNMENT = { 8 };

    const VERSION_R_ALIGNMENT: u64 = 8;

    ghost GNU_PROPERTY_ALIGNMENT = { 8 };

    const GNU_PROPERTY_ALIGNMENT: u64 = 8;

    ghost class_byte_is = { refl };

    ghost word_is = { refl };

    ghost file_header_class = { refl };

    ghost file_header_size_is = { refl };

    ghost program_header_class = { refl };

    ghost program_header_size_is = { refl };

    ghost section_header_class = { refl };

    ghost section_header_size_is = { refl };

    ghost compression_header_class = { refl };

    ghost compression_header_size_is = { refl };

    ghost symbol_class = { refl };

    ghost symbol_size_is = { refl };

    ghost dyn_class = { refl };

    ghost dyn_size_is = { refl };

    ghost rela_class = { refl };

    ghost rela_size_is = { refl };

    ghost relr_class = { refl };

    ghost relr_size_is = { refl };

    ghost note_header_size_is = { refl };

    ghost sizes_are = { (refl, refl, refl, refl, refl, refl, refl, refl, refl, refl, refl) };

    ghost alignments_are = { (refl, refl, refl, refl, refl, refl, refl, refl, refl, refl, refl) };
}
