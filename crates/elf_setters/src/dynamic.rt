//! Setters of an entry of the dynamic section (gABI, Dynamic Section), for both classes. Each sets its field, a
//! tag in two's complement, and leaves all other bytes. A number that does not fit 32 bits is an error in
//! ELFCLASS32, and the record is then unchanged.

ghost use Rattle.elf_format.specs.Class as fields;
ghost use Rattle.elf_words.specs.declared.word.Field.TheVariants.{DTag, DVal};
ghost use Rattle.elf_setters.specs.Put.{IsPut, IsSignedPut};

use crate::put::{put_signed_word, put_u64, put_word};
use elf_records32::Dyn32;
use elf_records64::Dyn64;
use elf_words::{DynFields, Field, FieldError};

/// The setters of an entry of the dynamic section (gABI, Dynamic Section).
pub trait WritableDynamicEntry: DynFields {
    /// Sets `d_tag`, the meaning of the entry. 0 ends the list.
    /// `DoesNotFit` or `Negative` exactly where the value is above or below the range of the field. The record is
    /// then unchanged.
    fn set_tag(&mut self, value: i64) -> Result<(), FieldError>
        ensures { IsSignedPut Self.class (fields.d_tag Self.class) DTag value (Self.contents self.old) (Self.contents self.new) result };

    /// Sets `d_val` or `d_ptr`, the number or address of the entry.
    /// `DoesNotFit` exactly where the value is above the range of the field. The record is then unchanged.
    fn set_value(&mut self, value: u64) -> Result<(), FieldError>
        ensures { IsPut (fields.d_value Self.class) DVal value (Self.contents self.old) (Self.contents self.new) result };
}

impl WritableDynamicEntry for Dyn64 {
    fn set_tag(&mut self, value: i64) -> Result<(), FieldError> {
        put_u64(&mut self.bytes, 0, value.cast_unsigned());
        Ok(())
    }

    fn set_value(&mut self, value: u64) -> Result<(), FieldError> {
        put_u64(&mut self.bytes, 8, value);
        Ok(())
    }
}

impl WritableDynamicEntry for Dyn32 {
    fn set_tag(&mut self, value: i64) -> Result<(), FieldError> {
        put_signed_word(&mut self.bytes, 0, Field::DTag, value)
    }

    fn set_value(&mut self, value: u64) -> Result<(), FieldError> {
        put_word(&mut self.bytes, 4, Field::DVal, value)
    }
}
