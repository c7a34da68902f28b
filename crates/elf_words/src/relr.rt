//! An entry of a table of relative relocations (gABI, Relocation, RELR).

ghost use Rattle.std.specs.Prelude.{◌≡◌};
ghost use Rattle.elf_format.specs.Bytes.{get};
ghost use Rattle.elf_format.specs.Class.{Class};
ghost use Rattle.elf_format.specs.Class as fields;

use crate::record::Record;

/// An entry of a table of relative relocations (gABI, Relocation, RELR).
pub trait RelrFields: Record {
    ghost class: { Class };

    /// Returns the entry: an address where it is even, else a bitmap of the addresses after the last one.
    fn r_value(&self) -> u64
        ensures { result ≡ get (fields.r_value class) (Self.contents self.now) };
}
