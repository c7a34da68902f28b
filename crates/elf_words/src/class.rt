//! The two classes of ELF files (gABI, Data Representation). A class names the types of its records and their
//! sizes. Laws tie each type and each constant to the sizes and field offsets of the definitions. Sizes and
//! alignments are in bytes.

ghost use Rattle.std.specs.Prelude.{◌≡◌, ℕ};
ghost use Rattle.elf_format.specs.Class.{Class, class_byte, word_at, file_header_size, program_header_size, section_header_size, compression_header_size, symbol_size, dyn_size, rela_size, relr_size};
ghost use Rattle.elf_format.specs.Table.{note_header_size};

use crate::compression::CompressionFields;
use crate::dynamic::DynFields;
use crate::file_header::FileHeaderFields;
use crate::program_header::ProgramHeaderFields;
use crate::record::Record;
use crate::rela::RelaFields;
use crate::relr::RelrFields;
use crate::section_header::SectionHeaderFields;
use crate::sym::SymFields;
use crate::word::ElfWord;

/// A class of ELF files, ELFCLASS32 or ELFCLASS64, by its records and their sizes.
pub trait ElfClass: Copy {
    ghost class: { Class };

    ghost CLASS_BYTE: { ℕ };

    /// The byte of `e_ident` that names the class: 1 or 2.
    const CLASS_BYTE: u8;

    /// A number as wide as an address.
    type Word: ElfWord;

    /// The file header.
    type FileHeader: FileHeaderFields;

    /// A program header.
    type ProgramHeader: ProgramHeaderFields;

    /// A section header.
    type SectionHeader: SectionHeaderFields;

    /// A compression header.
    type CompressionHeader: CompressionFields;

    /// A symbol table entry.
    type Sym: SymFields;

    /// An entry of the dynamic section.
    type Dyn: DynFields;

    /// A RELA record.
    type Rela: RelaFields;

    /// An entry of a table of relative relocations.
    type Relr: RelrFields;

    /// The header of a note.
    type NoteHeader: Record;

    ghost FILE_HEADER_SIZE: { ℕ };

    /// The size of the file header.
    const FILE_HEADER_SIZE: u16;

    ghost PROGRAM_HEADER_SIZE: { ℕ };

    /// The size of a program header.
    const PROGRAM_HEADER_SIZE: u16;

    ghost SECTION_HEADER_SIZE: { ℕ };

    /// The size of a section header.
    const SECTION_HEADER_SIZE: u16;

    ghost ADDRESS_SIZE: { ℕ };

    /// The size of an address.
    const ADDRESS_SIZE: u64;

    ghost GOT_ENTRY_SIZE: { ℕ };

    /// The size of an entry of the global offset table.
    const GOT_ENTRY_SIZE: u64;

    ghost RELA_ENTRY_SIZE: { ℕ };

    /// The size of a RELA record.
    const RELA_ENTRY_SIZE: u64;

    ghost RELR_ENTRY_SIZE: { ℕ };

    /// The size of an entry of a table of relative relocations.
    const RELR_ENTRY_SIZE: u64;

    ghost SYMTAB_ENTRY_SIZE: { ℕ };

    /// The size of a symbol table entry.
    const SYMTAB_ENTRY_SIZE: u64;

    ghost DYNAMIC_ENTRY_SIZE: { ℕ };

    /// The size of an entry of the dynamic section.
    const DYNAMIC_ENTRY_SIZE: u64;

    ghost NOTE_HEADER_SIZE: { ℕ };

    /// The size of the header of a note.
    const NOTE_HEADER_SIZE: u64;

    ghost GNU_HASH_BLOOM_SIZE: { ℕ };

    /// The size of a word of the Bloom filter of a GNU hash table.
    const GNU_HASH_BLOOM_SIZE: u64;

    ghost ADDRESS_ALIGNMENT: { ℕ };

    /// The alignment of an address.
    const ADDRESS_ALIGNMENT: u64;

    ghost PROGRAM_HEADER_ALIGNMENT: { ℕ };

    /// The alignment of program headers.
    const PROGRAM_HEADER_ALIGNMENT: u64;

    ghost SECTION_HEADER_ALIGNMENT: { ℕ };

    /// The alignment of section headers.
    const SECTION_HEADER_ALIGNMENT: u64;

    ghost GOT_ENTRY_ALIGNMENT: { ℕ };

    /// The alignment of the global offset table.
    const GOT_ENTRY_ALIGNMENT: u64;

    ghost RELA_ENTRY_ALIGNMENT: { ℕ };

    /// The alignment of RELA records.
    const RELA_ENTRY_ALIGNMENT: u64;

    ghost RELR_ENTRY_ALIGNMENT: { ℕ };

    /// The alignment of relative relocations.
    const RELR_ENTRY_ALIGNMENT: u64;

    ghost GNU_HASH_ALIGNMENT: { ℕ };

    /// The alignment of a GNU hash table.
    const GNU_HASH_ALIGNMENT: u64;

    ghost SYMTAB_ENTRY_ALIGNMENT: { ℕ };

    /// The alignment of symbol table entries.
    const SYMTAB_ENTRY_ALIGNMENT: u64;

    ghost VERSION_D_ALIGNMENT: { ℕ };

    /// The alignment of version definitions.
    const VERSION_D_ALIGNMENT: u64;

    ghost VERSION_R_ALIGNMENT: { ℕ };

    /// The alignment of the versions needed.
    const VERSION_R_ALIGNMENT: u64;

    ghost GNU_PROPERTY_ALIGNMENT: { ℕ };

    /// The alignment of program properties.
    const GNU_PROPERTY_ALIGNMENT: u64;

    ghost class_byte_is: { CLASS_BYTE ≡ class_byte Self.FileHeader.class };

    ghost word_is: { Self.Word.BYTES ≡ (word_at class 0 0).width };

    ghost file_header_class: { Self.FileHeader.class ≡ class };

    ghost file_header_size_is: { Self.FileHeader.SIZE ≡ file_header_size class };

    ghost program_header_class: { Self.ProgramHeader.class ≡ class };

    ghost program_header_size_is: { Self.ProgramHeader.SIZE ≡ program_header_size class };

    ghost section_header_class: { Self.SectionHeader.class ≡ class };

    ghost section_header_size_is: { Self.SectionHeader.SIZE ≡ section_header_size class };

    ghost compression_header_class: { Self.CompressionHeader.class ≡ class };

    ghost compression_header_size_is: { Self.CompressionHeader.SIZE ≡ compression_header_size class };

    ghost symbol_class: { Self.Sym.class ≡ class };

    ghost symbol_size_is: { Self.Sym.SIZE ≡ symbol_size class };

    ghost dyn_class: { Self.Dyn.class ≡ class };

    ghost dyn_size_is: { Self.Dyn.SIZE ≡ dyn_size class };

    ghost rela_class: { Self.Rela.class ≡ class };

    ghost rela_size_is: { Self.Rela.SIZE ≡ rela_size class };

    ghost relr_class: { Self.Relr.class ≡ class };

    ghost relr_size_is: { Self.Relr.SIZE ≡ relr_size class };

    ghost note_header_size_is: { Self.NoteHeader.SIZE ≡ note_header_size };

    ghost sizes_are: { (FILE_HEADER_SIZE ≡ Self.FileHeader.SIZE)
        × (PROGRAM_HEADER_SIZE ≡ Self.ProgramHeader.SIZE)
        × (SECTION_HEADER_SIZE ≡ Self.SectionHeader.SIZE)
        × (ADDRESS_SIZE ≡ Self.Word.BYTES)
        × (GOT_ENTRY_SIZE ≡ Self.Word.BYTES)
        × (RELA_ENTRY_SIZE ≡ Self.Rela.SIZE)
        × (RELR_ENTRY_SIZE ≡ Self.Relr.SIZE)
        × (SYMTAB_ENTRY_SIZE ≡ Self.Sym.SIZE)
        × (DYNAMIC_ENTRY_SIZE ≡ Self.Dyn.SIZE)
        × (NOTE_HEADER_SIZE ≡ Self.NoteHeader.SIZE)
        × (GNU_HASH_BLOOM_SIZE ≡ Self.Word.BYTES) };

    ghost alignments_are: { (ADDRESS_ALIGNMENT ≡ Self.Word.BYTES)
        × (PROGRAM_HEADER_ALIGNMENT ≡ Self.Word.BYTES)
        × (SECTION_HEADER_ALIGNMENT ≡ Self.Word.BYTES)
        × (GOT_ENTRY_ALIGNMENT ≡ Self.Word.BYTES)
        × (RELA_ENTRY_ALIGNMENT ≡ Self.Word.BYTES)
        × (RELR_ENTRY_ALIGNMENT ≡ Self.Word.BYTES)
        × (GNU_HASH_ALIGNMENT ≡ Self.Word.BYTES)
        × (SYMTAB_ENTRY_ALIGNMENT ≡ Self.Word.BYTES)
        × (VERSION_D_ALIGNMENT ≡ Self.Word.BYTES)
        × (VERSION_R_ALIGNMENT ≡ Self.Word.BYTES)
        × (GNU_PROPERTY_ALIGNMENT ≡ Self.Word.BYTES) };
}

/// A symbol table entry that names its class.
pub trait ElfSymbol {
    /// The class of the file.
    type Class: ElfClass;
}
