//! An entry of the dynamic section (gABI, Dynamic Section), by the names of its fields.

ghost use Rattle.std.specs.Prelude.{◌≡◌};
ghost use Rattle.elf_format.specs.Bytes.{get};
ghost use Rattle.elf_format.specs.Class.{Class};
ghost use Rattle.elf_format.specs.Class as fields;

use crate::record::Record;

/// An entry of the dynamic section, by its fields (gABI, Dynamic Section).
pub trait DynFields: Record {
    ghost class: { Class };

    /// Returns `d_tag`, the meaning of the entry. 0 ends the list.
    fn d_tag(&self) -> i64
        ensures { result ≡ fields.signed_word class (get (fields.d_tag class) (Self.contents self.now)) };

    /// Returns `d_val` or `d_ptr`, the number or address of the entry.
    fn d_value(&self) -> u64
        ensures { result ≡ get (fields.d_value class) (Self.contents self.now) };
}
