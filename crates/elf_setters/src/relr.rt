//! The setter of an entry of a table of relative relocations (gABI, Relocation, RELR), for both classes. The field
//! is the whole record. A number that does not fit 32 bits is an error in ELFCLASS32, and the record is then
//! unchanged.

ghost use Rattle.elf_format.specs.Class as fields;
ghost use Rattle.elf_words.specs.declared.word.Field.TheVariants.{Relr};
ghost use Rattle.elf_setters.specs.Put.{IsPut};

use crate::put::{put_u64, put_word};
use elf_records32::Relr32;
use elf_records64::Relr64;
use elf_words::{Field, FieldError, RelrFields};

/// The setter of an entry of a table of relative relocations (gABI, Relocation, RELR).
pub trait WritableRelr: RelrFields {
    /// Sets the entry: an address where it is even, else a bitmap of the addresses after the last one.
    /// `DoesNotFit` exactly where the value is above the range of the field. The record is then unchanged.
    fn set_value(&mut self, value: u64) -> Result<(), FieldError>
        ensures { IsPut (fields.r_value Self.class) Relr value (Self.contents self.old) (Self.contents self.new) result };
}

impl WritableRelr for Relr64 {
    fn set_value(&mut self, value: u64) -> Result<(), FieldError> {
        put_u64(&mut self.bytes, 0, value);
        Ok(())
    }
}

impl WritableRelr for Relr32 {
    fn set_value(&mut self, value: u64) -> Result<(), FieldError> {
        put_word(&mut self.bytes, 0, Field::Relr, value)
    }
}
