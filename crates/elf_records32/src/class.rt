//! The class ELFCLASS32 (gABI, Data Representation): its records, their sizes and the alignments of its
//! tables, in bytes.

ghost use Rattle.elf_format.specs.Class.{class32};
ghost use Rattle.std.specs.Prelude.{refl};

use crate::{
    CompressionHeader32, Dyn32, FileHeader32, ProgramHeader32, Rela32, Relr32, SectionHeader32,
    Sym32,
};
use elf_words::{ElfClass, ElfSymbol, NoteHeader};

/// The class ELFCLASS32, whose addresses have 32 bits.
#[derive(Clone, Copy, Debug, Default)]
pub struct Class32;

impl ElfSymbol for Sym32 {
    type Class = Class32;
}

impl ElfClass for Class32 {
    ghost class = { class32 };

    ghost CLASS_BYTE = { 1 };

    const CLASS_BYTE: u8 = 1;

    type Word = u32;

    type FileHeader = FileHeader32;

    type ProgramHeader = ProgramHeader32;

    type SectionHeader = SectionHeader32;

    type CompressionHeader = CompressionHeader32;

    type Sym = Sym32;

    type Dyn = Dyn32;

    type Rela = Rela32;

    type Relr = Relr32;

    type NoteHeader = NoteHeader;

    ghost FILE_HEADER_SIZE = { 52 };

    const FILE_HEADER_SIZE: u16 = 52;

    ghost PROGRAM_HEADER_SIZE = { 32 };

    const PROGRAM_HEADER_SIZE: u16 = 32;

    ghost SECTION_HEADER_SIZE = { 40 };

    const SECTION_HEADER_SIZE: u16 = 40;

    ghost ADDRESS_SIZE = { 4 };

    const ADDRESS_SIZE: u64 = 4;

    ghost GOT_ENTRY_SIZE = { 4 };

    const GOT_ENTRY_SIZE: u64 = 4;

    ghost RELA_ENTRY_SIZE = { 12 };

    const RELA_ENTRY_SIZE: u64 = 12;

    ghost RELR_ENTRY_SIZE = { 4 };

    const RELR_ENTRY_SIZE: u64 = 4;

    ghost SYMTAB_ENTRY_SIZE = { 16 };

    const SYMTAB_ENTRY_SIZE: u64 = 16;

    ghost DYNAMIC_ENTRY_SIZE = { 8 };

    const DYNAMIC_ENTRY_SIZE: u64 = 8;

    ghost NOTE_HEADER_SIZE = { 12 };

    const NOTE_HEADER_SIZE: u64 = 12;

    ghost GNU_HASH_BLOOM_SIZE = { 4 };

    const GNU_HASH_BLOOM_SIZE: u64 = 4;

    ghost ADDRESS_ALIGNMENT = { 4 };

    const ADDRESS_ALIGNMENT: u64 = 4;

    ghost PROGRAM_HEADER_ALIGNMENT = { 4 };

    const PROGRAM_HEADER_ALIGNMENT: u64 = 4;

    ghost SECTION_HEADER_ALIGNMENT = { 4 };

    const SECTION_HEADER_ALIGNMENT: u64 = 4;

    ghost GOT_ENTRY_ALIGNMENT = { 4 };

    const GOT_ENTRY_ALIGNMENT: u64 = 4;

    ghost RELA_ENTRY_ALIGNMENT = { 4 };

    const RELA_ENTRY_ALIGNMENT: u64 = 4;

    ghost RELR_ENTRY_ALIGNMENT = { 4 };

    const RELR_ENTRY_ALIGNMENT: u64 = 4;

    ghost GNU_HASH_ALIGNMENT = { 4 };

    const GNU_HASH_ALIGNMENT: u64 = 4;

    ghost SYMTAB_ENTRY_ALIGNMENT = { 4 };

    const SYMTAB_ENTRY_ALIGNMENT: u64 = 4;

    ghost VERSION_D_ALIGNMENT = { 4 };

    const VERSION_D_ALIGNMENT: u64 = 4;

    ghost VERSION_R_ALIGNMENT = { 4 };

    const VERSION_R_ALIGNMENT: u64 = 4;

    ghost GNU_PROPERTY_ALIGNMENT = { 4 };

    const GNU_PROPERTY_ALIGNMENT: u64 = 4;

    ghost class_byte_is = { refl };

    ghost word_is = { refl };

    ghost file_header_class = { refl };

    ghost file_header_size_is = { refl };

    ghost program_header_class = { refl };

    ghost program_header_size_is = { refl };

    ghost section_header_class = { refl };

    ghost section_header_size_is = { refl };

    ghost compression_header_class = { refl };

    ghost compression_header_size_is = { refl };

    ghost symbol_class = { refl };

    ghost symbol_size_is = { refl };

    ghost dyn_class = { refl };

    ghost dyn_size_is = { refl };

    ghost rela_class = { refl };

    ghost rela_size_is = { refl };

    ghost relr_class = { refl };

    ghost relr_size_is = { refl };

    ghost note_header_size_is = { refl };

    ghost sizes_are = { (refl, refl, refl, refl, refl, refl, refl, refl, refl, refl, refl) };

    ghost alignments_are = { (refl, refl, refl, refl, refl, refl, refl, refl, refl, refl, refl) };
}
