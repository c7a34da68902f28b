//! A symbol table entry (gABI, Symbol Table), by the names of its fields. Numbers as wide as an address are
//! returned as 64 bits.

ghost use Rattle.std.specs.Prelude.{◌≡◌};
ghost use Rattle.elf_format.specs.Bytes.{get};
ghost use Rattle.elf_format.specs.Class.{Class};
ghost use Rattle.elf_format.specs.Class as fields;

use crate::record::Record;

/// A symbol table entry, by its fields (gABI, Symbol Table).
pub trait SymFields: Record {
    ghost class: { Class };

    /// Returns `st_name`, the offset of the name in the string table, 0 for none.
    fn st_name(&self) -> u32
        ensures { result ≡ get (fields.st_name class) (Self.contents self.now) };

    /// Returns `st_info`: the binding in the high four bits, the type in the low four.
    fn st_info(&self) -> u8
        ensures { result ≡ get (fields.st_info class) (Self.contents self.now) };

    /// Returns `st_other`: the visibility in the low two bits, and flags of the machine.
    fn st_other(&self) -> u8
        ensures { result ≡ get (fields.st_other class) (Self.contents self.now) };

    /// Returns `st_shndx`, the index of the section in which the symbol is defined: 0 for none. Indexes from
    /// 0xff00 have special meanings.
    fn st_shndx(&self) -> u16
        ensures { result ≡ get (fields.st_shndx class) (Self.contents self.now) };

    /// Returns `st_value`: in a relocatable file, the offset in the section.
    fn st_value(&self) -> u64
        ensures { result ≡ get (fields.st_value class) (Self.contents self.now) };

    /// Returns `st_size`, the size of the symbol in bytes, 0 for none or unknown.
    fn st_size(&self) -> u64
        ensures { result ≡ get (fields.st_size class) (Self.contents self.now) };
}
