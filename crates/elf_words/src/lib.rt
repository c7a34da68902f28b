//! Numbers, records and classes of ELF files (System V gABI): little-endian numbers at an offset, LEB128,
//! alignments, records as the bytes of a file, tables of records, and the fields that both classes name
//! alike. The records of a class stand in a crate of their own. Code for both classes is generic over
//! `ElfClass`. The definitions are those of `elf_format`.
#![tactic(auto)]

mod alignment;
mod bits;
mod class;
mod compression;
mod cursor;
mod dynamic;
mod file_header;
mod file_type;
mod leb128;
mod little_endian;
mod note_header;
mod numbers;
mod program_header;
mod record;
mod records;
mod rela;
mod relr;
mod section_flags;
mod section_header;
mod section_index;
mod section_type;
mod segment;
mod span;
mod sym;
mod word;
mod zero_byte;

pub use alignment::{Alignment, BadAlignment};
pub use bits::extract_bit_range;
pub use class::{ElfClass, ElfSymbol};
pub use compression::CompressionFields;
pub use cursor::ByteCursor;
pub use dynamic::DynFields;
pub use elf_format::{Architecture, CursorError, SectionIndex, Span, SymbolIndex};
pub use file_header::FileHeaderFields;
pub use file_type::{ET_DYN, ET_REL};
pub use leb128::{push_sleb128, push_uleb128, uleb128_size};
pub use little_endian::{read_u8, read_u16, read_u32, read_u64, u32_from_slice, u64_from_slice};
pub use note_header::NoteHeader;
pub use numbers::{
    file_types_are_the_standards, section_flags_are_the_standards,
    section_indexes_are_the_standards, section_types_are_the_standards,
};
pub use program_header::ProgramHeaderFields;
pub use record::Record;
pub use records::Records;
pub use rela::RelaFields;
pub use relr::RelrFields;
pub use section_flags::{
    SHF_ALLOC, SHF_COMPRESSED, SHF_EXCLUDE, SHF_EXECINSTR, SHF_GNU_RETAIN, SHF_GROUP, SHF_MERGE,
    SHF_STRINGS, SHF_TLS, SHF_WRITE, SectionFlags,
};
pub use section_header::SectionHeaderFields;
pub use section_index::{SHN_LORESERVE, SHN_XINDEX};
pub use section_type::{
    SHT_CREL, SHT_DYNAMIC, SHT_DYNSYM, SHT_GNU_VERDEF, SHT_GNU_VERNEED, SHT_GNU_VERSYM, SHT_GROUP,
    SHT_NOBITS, SHT_NOTE, SHT_NULL, SHT_PROGBITS, SHT_REL, SHT_RELA, SHT_RISCV_ATTRIBUTES,
    SHT_STRTAB, SHT_SYMTAB, SHT_SYMTAB_SHNDX, SectionType,
};
pub use segment::{SegmentFlags, SegmentType};
pub use span::first_outside;
pub use sym::SymFields;
pub use word::{ElfWord, Field, FieldError};
pub use zero_byte::first_zero;
