//! The numbers of the constants, as the standards give them (gABI, ELF Header, Sections, Section Attribute
//! Flags and Special Section Indexes; GNU symbol versioning; RISC-V ELF psABI; CREL). Each group is a law, the
//! contract of a function that does nothing. The definitions of `elf_format` use the same numbers.

ghost use Rattle.std.specs.Prelude.{◌≡◌};
ghost use Rattle.elf_format.specs.FileHeader as file_header;
ghost use Rattle.elf_format.specs.Flags as flags;
ghost use Rattle.elf_format.specs.SectionIndex as indexes;
ghost use Rattle.elf_format.specs.SectionType as types;

use crate::file_type::{ET_DYN, ET_REL};
use crate::section_flags::{
    SHF_ALLOC, SHF_COMPRESSED, SHF_EXCLUDE, SHF_EXECINSTR, SHF_GNU_RETAIN, SHF_GROUP, SHF_MERGE,
    SHF_STRINGS, SHF_TLS, SHF_WRITE,
};
use crate::section_index::{SHN_LORESERVE, SHN_XINDEX};
use crate::section_type::{
    SHT_CREL, SHT_DYNAMIC, SHT_DYNSYM, SHT_GNU_VERDEF, SHT_GNU_VERNEED, SHT_GNU_VERSYM, SHT_GROUP,
    SHT_NOBITS, SHT_NOTE, SHT_NULL, SHT_PROGBITS, SHT_REL, SHT_RELA, SHT_RISCV_ATTRIBUTES,
    SHT_STRTAB, SHT_SYMTAB, SHT_SYMTAB_SHNDX,
};

/// The section types are the standards' numbers, and those of the definitions.
pub fn section_types_are_the_standards()
    ensures numbers { (SHT_NULL ≡ 0) × (SHT_PROGBITS ≡ 1) × (SHT_SYMTAB ≡ 2) × (SHT_STRTAB ≡ 3) × (SHT_RELA ≡ 4) × (SHT_DYNAMIC ≡ 6) × (SHT_NOTE ≡ 7) × (SHT_NOBITS ≡ 8) × (SHT_REL ≡ 9) × (SHT_DYNSYM ≡ 11) × (SHT_GROUP ≡ 17) × (SHT_SYMTAB_SHNDX ≡ 18) }
    ensures extension_numbers { (SHT_CREL ≡ 0x40000014) × (SHT_GNU_VERDEF ≡ 0x6ffffffd) × (SHT_GNU_VERNEED ≡ 0x6ffffffe) × (SHT_GNU_VERSYM ≡ 0x6fffffff) × (SHT_RISCV_ATTRIBUTES ≡ 0x70000003) }
    ensures same { (SHT_NULL ≡ types.sht_null) × (SHT_PROGBITS ≡ types.sht_progbits) × (SHT_SYMTAB ≡ types.sht_symtab) × (SHT_STRTAB ≡ types.sht_strtab) × (SHT_RELA ≡ types.sht_rela) × (SHT_DYNAMIC ≡ types.sht_dynamic) × (SHT_NOTE ≡ types.sht_note) × (SHT_NOBITS ≡ types.sht_nobits) × (SHT_REL ≡ types.sht_rel) × (SHT_DYNSYM ≡ types.sht_dynsym) × (SHT_GROUP ≡ types.sht_group) × (SHT_SYMTAB_SHNDX ≡ types.sht_symtab_shndx) }
    ensures same_extensions { (SHT_CREL ≡ types.sht_crel) × (SHT_GNU_VERDEF ≡ types.sht_gnu_verdef) × (SHT_GNU_VERNEED ≡ types.sht_gnu_verneed) × (SHT_GNU_VERSYM ≡ types.sht_gnu_versym) × (SHT_RISCV_ATTRIBUTES ≡ types.sht_riscv_attributes) }
{}

/// The section flags are the standards' bits, and those of the definitions.
pub fn section_flags_are_the_standards()
    ensures numbers { (SHF_WRITE ≡ 0x1) × (SHF_ALLOC ≡ 0x2) × (SHF_EXECINSTR ≡ 0x4) × (SHF_MERGE ≡ 0x10) × (SHF_STRINGS ≡ 0x20) × (SHF_GROUP ≡ 0x200) × (SHF_TLS ≡ 0x400) × (SHF_COMPRESSED ≡ 0x800) × (SHF_GNU_RETAIN ≡ 0x200000) × (SHF_EXCLUDE ≡ 0x80000000) }
    ensures same { (SHF_WRITE ≡ flags.shf_write) × (SHF_ALLOC ≡ flags.shf_alloc) × (SHF_EXECINSTR ≡ flags.shf_execinstr) × (SHF_MERGE ≡ flags.shf_merge) × (SHF_STRINGS ≡ flags.shf_strings) × (SHF_GROUP ≡ flags.shf_group) × (SHF_TLS ≡ flags.shf_tls) × (SHF_COMPRESSED ≡ flags.shf_compressed) × (SHF_GNU_RETAIN ≡ flags.shf_gnu_retain) × (SHF_EXCLUDE ≡ flags.shf_exclude) }
{}

/// The special section indexes are the standard's numbers, and those of the definitions.
pub fn section_indexes_are_the_standards()
    ensures numbers { (SHN_LORESERVE ≡ 0xff00) × (SHN_XINDEX ≡ 0xffff) }
    ensures same { (SHN_LORESERVE ≡ indexes.shn_loreserve) × (SHN_XINDEX ≡ indexes.shn_xindex) }
{}

/// The file types are the standard's numbers, and those of the definitions.
pub fn file_types_are_the_standards()
    ensures numbers { (ET_REL ≡ 1) × (ET_DYN ≡ 3) }
    ensures same { (ET_REL ≡ file_header.et_rel) × (ET_DYN ≡ file_header.et_dyn) }
{}
