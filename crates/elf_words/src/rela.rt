//! A RELA record (gABI, Relocation), by the names of its fields. Numbers as wide as an address are returned as
//! 64 bits.

ghost use Rattle.std.specs.Prelude.{◌≡◌, ◌/◌, ◌%◌};
ghost use Rattle.elf_format.specs.Bytes.{get};
ghost use Rattle.elf_format.specs.Class.{Class};
ghost use Rattle.elf_format.specs.Class as fields;

use crate::record::Record;

/// A RELA record, by its fields (gABI, Relocation).
pub trait RelaFields: Record {
    ghost class: { Class };

    /// Returns `r_offset`: in a relocatable file, the offset in the section to which the relocation applies.
    fn r_offset(&self) -> u64
        ensures { result ≡ get (fields.r_offset class) (Self.contents self.now) };

    /// Returns `r_info`, which holds the symbol index and the relocation type.
    fn r_info(&self) -> u64
        ensures { result ≡ get (fields.r_info class) (Self.contents self.now) };

    /// Returns the symbol index of `r_info`, 0 for none.
    fn r_sym(&self) -> u32
        ensures { result ≡ get (fields.r_info class) (Self.contents self.now) / fields.symbol_unit class };

    /// Returns the relocation type of `r_info`. Its meaning depends on the machine.
    fn r_type(&self) -> u32
        ensures { result ≡ get (fields.r_info class) (Self.contents self.now) % fields.symbol_unit class };

    /// Returns `r_addend`, which is added to the value of the symbol.
    fn r_addend(&self) -> i64
        ensures { result ≡ fields.signed_word class (get (fields.r_addend class) (Self.contents self.now)) };
}
