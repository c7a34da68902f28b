//! The section types (gABI, Sections; GNU symbol versioning; RISC-V ELF psABI; CREL).

ghost use Rattle.std.specs.Prelude.{◌≡◌, ◌==◌};
ghost use Rattle.elf_format.specs.SectionType.{sht_rela, sht_rel, sht_symtab, sht_strtab};

/// An unused section header.
pub const SHT_NULL: u32 = 0;
/// Bytes whose meaning the program defines.
pub const SHT_PROGBITS: u32 = 1;
/// The symbol table of a relocatable file.
pub const SHT_SYMTAB: u32 = 2;
/// A string table.
pub const SHT_STRTAB: u32 = 3;
/// Relocations with addends (RELA).
pub const SHT_RELA: u32 = 4;
/// Information for dynamic linking.
pub const SHT_DYNAMIC: u32 = 6;
/// Notes.
pub const SHT_NOTE: u32 = 7;
/// A section that takes no room in the file.
pub const SHT_NOBITS: u32 = 8;
/// Relocations without addends (REL).
pub const SHT_REL: u32 = 9;
/// The symbol table for dynamic linking.
pub const SHT_DYNSYM: u32 = 11;
/// A section group.
pub const SHT_GROUP: u32 = 17;
/// The section indexes of symbols whose own field is too small.
pub const SHT_SYMTAB_SHNDX: u32 = 18;
/// Relocations in the compact form (CREL).
pub const SHT_CREL: u32 = 0x4000_0014;
/// The version definitions of a file.
pub const SHT_GNU_VERDEF: u32 = 0x6fff_fffd;
/// The versions needed by a file.
pub const SHT_GNU_VERNEED: u32 = 0x6fff_fffe;
/// The version index of each symbol.
pub const SHT_GNU_VERSYM: u32 = 0x6fff_ffff;
/// The attributes of a RISC-V file.
pub const SHT_RISCV_ATTRIBUTES: u32 = 0x7000_0003;

/// The type of a section.
#[derive(Debug, Clone, Copy, Default, PartialEq, Eq, PartialOrd, Ord)]
pub struct SectionType(pub u32);

impl SectionType {
    /// Reports whether the type is `SHT_RELA`.
    pub fn is_rela(self) -> bool
        ensures { result ≡ (self.0 == sht_rela) }
    {
        self.0 == SHT_RELA
    }

    /// Reports whether the type is `SHT_REL`.
    pub fn is_rel(self) -> bool
        ensures { result ≡ (self.0 == sht_rel) }
    {
        self.0 == SHT_REL
    }

    /// Reports whether the type is `SHT_SYMTAB`.
    pub fn is_symtab(self) -> bool
        ensures { result ≡ (self.0 == sht_symtab) }
    {
        self.0 == SHT_SYMTAB
    }

    /// Reports whether the type is `SHT_STRTAB`.
    pub fn is_strtab(self) -> bool
        ensures { result ≡ (self.0 == sht_strtab) }
    {
        self.0 == SHT_STRTAB
    }
}
