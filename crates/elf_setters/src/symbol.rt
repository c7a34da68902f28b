//! Setters of a symbol table entry (gABI, Symbol Table), for both classes. Each sets its field and leaves all
//! other bytes. A number that does not fit 32 bits is an error in ELFCLASS32, and the record is then unchanged.
//! Binding and type share one byte, four bits each.

ghost use Rattle.std.specs.Prelude.{◌≡◌};
ghost use Rattle.elf_format.specs.Bytes.{get};
ghost use Rattle.elf_format.specs.Class as fields;
ghost use Rattle.elf_words.specs.declared.word.Field.TheVariants.{StValue, StSize};
ghost use Rattle.elf_setters.specs.Put.{with_field, IsPut, binding_and_type, with_visibility};

use crate::put::{put_u8, put_u16, put_u32, put_u64, put_word};
use elf_records32::Sym32;
use elf_records64::Sym64;
use elf_words::{Field, FieldError, SymFields};

/// The setters of a symbol table entry (gABI, Symbol Table).
pub trait WritableSymbol: SymFields {
    /// Sets `st_name`, the offset of the name in the string table, 0 for none.
    fn set_name(&mut self, value: u32)
        ensures { Self.contents self.new ≡ with_field (fields.st_name Self.class) value (Self.contents self.old) };

    /// Sets `st_info`: the binding in the high four bits, the type in the low four.
    fn set_info(&mut self, value: u8)
        ensures { Self.contents self.new ≡ with_field (fields.st_info Self.class) value (Self.contents self.old) };

    /// Sets `st_other`: the visibility in the low two bits, and flags of the machine.
    fn set_other(&mut self, value: u8)
        ensures { Self.contents self.new ≡ with_field (fields.st_other Self.class) value (Self.contents self.old) };

    /// Sets `st_shndx`, the index of the section in which the symbol is defined: 0 for none. Indexes from 0xff00
    /// have special meanings.
    fn set_section(&mut self, value: u16)
        ensures { Self.contents self.new ≡ with_field (fields.st_shndx Self.class) value (Self.contents self.old) };

    /// Sets `st_value`: in a relocatable file, the offset in the section.
    /// `DoesNotFit` exactly where the value is above the range of the field. The record is then unchanged.
    fn set_value(&mut self, value: u64) -> Result<(), FieldError>
        ensures { IsPut (fields.st_value Self.class) StValue value (Self.contents self.old) (Self.contents self.new) result };

    /// Sets `st_size`, the size of the symbol in bytes, 0 for none or unknown.
    /// `DoesNotFit` exactly where the value is above the range of the field. The record is then unchanged.
    fn set_size(&mut self, value: u64) -> Result<(), FieldError>
        ensures { IsPut (fields.st_size Self.class) StSize value (Self.contents self.old) (Self.contents self.new) result };

    /// Sets `st_info` to a binding and a type: the low four bits of each.
    fn set_binding_and_type(&mut self, binding: u8, symbol_type: u8)
        ensures { Self.contents self.new ≡ with_field (fields.st_info Self.class) (binding_and_type binding symbol_type) (Self.contents self.old) }
    {
        self.set_info(binding % 16 * 16 + symbol_type % 16);
    }

    /// Sets the visibility, the low two bits of `st_other`, to the low two bits of the value.
    fn set_visibility(&mut self, visibility: u8)
        ensures { Self.contents self.new ≡ with_field (fields.st_other Self.class) (with_visibility visibility (get (fields.st_other Self.class) (Self.contents self.old))) (Self.contents self.old) }
    {
        self.set_other(self.st_other() / 4 * 4 + visibility % 4);
    }
}

impl WritableSymbol for Sym64 {
    fn set_name(&mut self, value: u32) {
        put_u32(&mut self.bytes, 0, value);
    }

    fn set_info(&mut self, value: u8) {
        put_u8(&mut self.bytes, 4, value);
    }

    fn set_other(&mut self, value: u8) {
        put_u8(&mut self.bytes, 5, value);
    }

    fn set_section(&mut self, value: u16) {
        put_u16(&mut self.bytes, 6, value);
    }

    fn set_value(&mut self, value: u64) -> Result<(), FieldError> {
        put_u64(&mut self.bytes, 8, value);
        Ok(())
    }

    fn set_size(&mut self, value: u64) -> Result<(), FieldError> {
        put_u64(&mut self.bytes, 16, value);
        Ok(())
    }
}

impl WritableSymbol for Sym32 {
    fn set_name(&mut self, value: u32) {
        put_u32(&mut self.bytes, 0, value);
    }

    fn set_info(&mut self, value: u8) {
        put_u8(&mut self.bytes, 12, value);
    }

    fn set_other(&mut self, value: u8) {
        put_u8(&mut self.bytes, 13, value);
    }

    fn set_section(&mut self, value: u16) {
        put_u16(&mut self.bytes, 14, value);
    }

    fn set_value(&mut self, value: u64) -> Result<(), FieldError> {
        put_word(&mut self.bytes, 4, Field::StValue, value)
    }

    fn set_size(&mut self, value: u64) -> Result<(), FieldError> {
        put_word(&mut self.bytes, 8, Field::StSize, value)
    }
}
