//! Setters of a RELA record (gABI, Relocation), for both classes. Each sets its field, an addend in two's
//! complement, and leaves all other bytes. A number that does not fit is an error in ELFCLASS32, and the record is
//! then unchanged.

ghost use Rattle.std.specs.Prelude.{◌≡◌, ◌*◌, ◌+◌, ◌<◌, ◌≤◌, Err, IsOk, OnOk, OnErr};
ghost use Rattle.elf_format.specs.Class as fields;
ghost use Rattle.elf_words.specs.declared.word.FieldError.TheVariants.{DoesNotFit};
ghost use Rattle.elf_words.specs.declared.word.Field.TheVariants.{ROffset, RAddend, RInfoSymbol, RInfoType};
ghost use Rattle.elf_setters.specs.Put.{with_field, IsPut, IsSignedPut, symbol_limit};

use crate::put::{does_not_fit, put_signed_word, put_u32, put_u64, put_word};
use elf_records32::Rela32;
use elf_records64::Rela64;
use elf_words::{Field, FieldError, RelaFields};

/// The setters of a RELA record (gABI, Relocation).
pub trait WritableRela: RelaFields {
    /// Sets `r_offset`: in a relocatable file, the offset in the section to which the relocation applies.
    /// `DoesNotFit` exactly where the value is above the range of the field. The record is then unchanged.
    fn set_offset(&mut self, value: u64) -> Result<(), FieldError>
        ensures { IsPut (fields.r_offset Self.class) ROffset value (Self.contents self.old) (Self.contents self.new) result };

    /// Sets `r_addend`, which is added to the value of the symbol.
    /// `DoesNotFit` or `Negative` exactly where the value is above or below the range of the field. The record is
    /// then unchanged.
    fn set_addend(&mut self, value: i64) -> Result<(), FieldError>
        ensures { IsSignedPut Self.class (fields.r_addend Self.class) RAddend value (Self.contents self.old) (Self.contents self.new) result };

    /// Sets `r_info` to a symbol index, 0 for none, and a relocation type. `DoesNotFit` exactly where one of them
    /// is above its range, the symbol index first. The record is then unchanged.
    fn set_info(&mut self, symbol: u32, relocation_type: u32) -> Result<(), FieldError>
        ensures symbol { symbol_limit Self.class ≤ symbol → result ≡ Err (DoesNotFit RInfoSymbol symbol) }
        ensures relocation_type { symbol < symbol_limit Self.class → fields.symbol_unit Self.class ≤ relocation_type → result ≡ Err (DoesNotFit RInfoType relocation_type) }
        ensures fits { symbol < symbol_limit Self.class → relocation_type < fields.symbol_unit Self.class → IsOk result }
        ensures info { OnOk result (Self.contents self.new ≡ with_field (fields.r_info Self.class) (symbol * fields.symbol_unit Self.class + relocation_type) (Self.contents self.old)) }
        ensures unchanged { OnErr result (Self.contents self.new ≡ Self.contents self.old) };
}

impl WritableRela for Rela64 {
    fn set_offset(&mut self, value: u64) -> Result<(), FieldError> {
        put_u64(&mut self.bytes, 0, value);
        Ok(())
    }

    fn set_addend(&mut self, value: i64) -> Result<(), FieldError> {
        put_u64(&mut self.bytes, 16, value.cast_unsigned());
        Ok(())
    }

    fn set_info(&mut self, symbol: u32, relocation_type: u32) -> Result<(), FieldError> {
        let info = u64::from(symbol) * (1 << 32) + u64::from(relocation_type);
        put_u64(&mut self.bytes, 8, info);
        Ok(())
    }
}

impl WritableRela for Rela32 {
    fn set_offset(&mut self, value: u64) -> Result<(), FieldError> {
        put_word(&mut self.bytes, 0, Field::ROffset, value)
    }

    fn set_addend(&mut self, value: i64) -> Result<(), FieldError> {
        put_signed_word(&mut self.bytes, 8, Field::RAddend, value)
    }

    fn set_info(&mut self, symbol: u32, relocation_type: u32) -> Result<(), FieldError> {
        if symbol >= 1 << 24 {
            return Err(does_not_fit(Field::RInfoSymbol, symbol));
        }
        if relocation_type >= 1 << 8 {
            return Err(does_not_fit(Field::RInfoType, relocation_type));
        }
        put_u32(&mut self.bytes, 4, symbol * (1 << 8) + relocation_type);
        Ok(())
    }
}
