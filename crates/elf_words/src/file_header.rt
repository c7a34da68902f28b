//! The file header (gABI, ELF Header), by the names of its fields. Numbers as wide as an address are returned as
//! 64 bits. Offsets and sizes are in bytes, offsets from the start of the file.

ghost use Rattle.std.specs.Prelude.{◌≡◌, take};
ghost use Rattle.elf_format.specs.Bytes.{get};
ghost use Rattle.elf_format.specs.Class.{Class};
ghost use Rattle.elf_format.specs.Class as fields;

use crate::record::Record;

/// The file header, by its fields (gABI, ELF Header).
pub trait FileHeaderFields: Record {
    ghost class: { Class };

    /// Returns `e_ident`, the first 16 bytes.
    fn e_ident(&self) -> [u8; 16]
        ensures { result ≡ take 16 (Self.contents self.now) };

    /// Returns `e_type`: 1 is a relocatable file, 3 a shared object.
    fn e_type(&self) -> u16
        ensures { result ≡ get (fields.e_type class) (Self.contents self.now) };

    /// Returns `e_machine`, the number of the machine.
    fn e_machine(&self) -> u16
        ensures { result ≡ get (fields.e_machine class) (Self.contents self.now) };

    /// Returns `e_version`, the version of the format.
    fn e_version(&self) -> u32
        ensures { result ≡ get (fields.e_version class) (Self.contents self.now) };

    /// Returns `e_entry`, the address at which the program starts, 0 for none.
    fn e_entry(&self) -> u64
        ensures { result ≡ get (fields.e_entry class) (Self.contents self.now) };

    /// Returns `e_phoff`, the offset of the program header table, 0 for none.
    fn e_phoff(&self) -> u64
        ensures { result ≡ get (fields.e_phoff class) (Self.contents self.now) };

    /// Returns `e_shoff`, the offset of the section header table, 0 for none.
    fn e_shoff(&self) -> u64
        ensures { result ≡ get (fields.e_shoff class) (Self.contents self.now) };

    /// Returns `e_flags`, the flags of the machine.
    fn e_flags(&self) -> u32
        ensures { result ≡ get (fields.e_flags class) (Self.contents self.now) };

    /// Returns `e_ehsize`, the size of the file header.
    fn e_ehsize(&self) -> u16
        ensures { result ≡ get (fields.e_ehsize class) (Self.contents self.now) };

    /// Returns `e_phentsize`, the size of a program header.
    fn e_phentsize(&self) -> u16
        ensures { result ≡ get (fields.e_phentsize class) (Self.contents self.now) };

    /// Returns `e_phnum`, the number of program headers.
    fn e_phnum(&self) -> u16
        ensures { result ≡ get (fields.e_phnum class) (Self.contents self.now) };

    /// Returns `e_shentsize`, the size of a section header.
    fn e_shentsize(&self) -> u16
        ensures { result ≡ get (fields.e_shentsize class) (Self.contents self.now) };

    /// Returns `e_shnum`, the number of section headers. Where it is 0, `sh_size` of section 0 has the number.
    fn e_shnum(&self) -> u16
        ensures { result ≡ get (fields.e_shnum class) (Self.contents self.now) };

    /// Returns `e_shstrndx`, the index of the section that holds the section names, 0 for none. Where it is
    /// 0xffff, `sh_link` of section 0 has the index.
    fn e_shstrndx(&self) -> u16
        ensures { result ≡ get (fields.e_shstrndx class) (Self.contents self.now) };
}
