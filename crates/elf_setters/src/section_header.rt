//! Setters of the section header (gABI, Sections), for both classes. Each sets its field and leaves all other
//! bytes. A number that does not fit 32 bits is an error in ELFCLASS32, and the record is then unchanged. Offsets
//! and sizes are in bytes.

ghost use Rattle.std.specs.Prelude.{◌≡◌};
ghost use Rattle.elf_format.specs.Class as fields;
ghost use Rattle.elf_words.specs.declared.word.Field.TheVariants.{ShFlags, ShAddr, ShOffset, ShSize, ShAddralign, ShEntsize};
ghost use Rattle.elf_setters.specs.Put.{with_field, IsPut};

use crate::put::{put_u32, put_u64, put_word};
use elf_records32::SectionHeader32;
use elf_records64::SectionHeader64;
use elf_words::{Field, FieldError, SectionFlags, SectionHeaderFields, SectionType};

/// The setters of a section header (gABI, Sections).
pub trait WritableSectionHeader: SectionHeaderFields {
    /// Sets `sh_name`, the offset of the name in the section that holds the section names.
    fn set_name(&mut self, value: u32)
        ensures { Self.contents self.new ≡ with_field (fields.sh_name Self.class) value (Self.contents self.old) };

    /// Sets `sh_type`, the type of the section.
    fn set_type(&mut self, value: SectionType)
        ensures { Self.contents self.new ≡ with_field (fields.sh_type Self.class) value.0 (Self.contents self.old) };

    /// Sets `sh_flags`, the flags of the section.
    /// `DoesNotFit` exactly where the value is above the range of the field. The record is then unchanged.
    fn set_flags(&mut self, value: SectionFlags) -> Result<(), FieldError>
        ensures { IsPut (fields.sh_flags Self.class) ShFlags value.0 (Self.contents self.old) (Self.contents self.new) result };

    /// Sets `sh_addr`, the address of the section in memory, 0 for none.
    /// `DoesNotFit` exactly where the value is above the range of the field. The record is then unchanged.
    fn set_address(&mut self, value: u64) -> Result<(), FieldError>
        ensures { IsPut (fields.sh_addr Self.class) ShAddr value (Self.contents self.old) (Self.contents self.new) result };

    /// Sets `sh_offset`, the offset of the section in the file.
    /// `DoesNotFit` exactly where the value is above the range of the field. The record is then unchanged.
    fn set_offset(&mut self, value: u64) -> Result<(), FieldError>
        ensures { IsPut (fields.sh_offset Self.class) ShOffset value (Self.contents self.old) (Self.contents self.new) result };

    /// Sets `sh_size`, the size of the section.
    /// `DoesNotFit` exactly where the value is above the range of the field. The record is then unchanged.
    fn set_size(&mut self, value: u64) -> Result<(), FieldError>
        ensures { IsPut (fields.sh_size Self.class) ShSize value (Self.contents self.old) (Self.contents self.new) result };

    /// Sets `sh_link`, a section index. Its meaning depends on `sh_type`.
    fn set_link(&mut self, value: u32)
        ensures { Self.contents self.new ≡ with_field (fields.sh_link Self.class) value (Self.contents self.old) };

    /// Sets `sh_info`, a number. Its meaning depends on `sh_type`.
    fn set_info(&mut self, value: u32)
        ensures { Self.contents self.new ≡ with_field (fields.sh_info Self.class) value (Self.contents self.old) };

    /// Sets `sh_addralign`, the alignment of the section. 0 and 1 mean none.
    /// `DoesNotFit` exactly where the value is above the range of the field. The record is then unchanged.
    fn set_alignment(&mut self, value: u64) -> Result<(), FieldError>
        ensures { IsPut (fields.sh_addralign Self.class) ShAddralign value (Self.contents self.old) (Self.contents self.new) result };

    /// Sets `sh_entsize`, the size of an entry, 0 where the section has no entries of a fixed size.
    /// `DoesNotFit` exactly where the value is above the range of the field. The record is then unchanged.
    fn set_entry_size(&mut self, value: u64) -> Result<(), FieldError>
        ensures { IsPut (fields.sh_entsize Self.class) ShEntsize value (Self.contents self.old) (Self.contents self.new) result };
}

impl WritableSectionHeader for SectionHeader64 {
    fn set_name(&mut self, value: u32) {
        put_u32(&mut self.bytes, 0, value);
    }

    fn set_type(&mut self, value: SectionType) {
        put_u32(&mut self.bytes, 4, value.0);
    }

    fn set_flags(&mut self, value: SectionFlags) -> Result<(), FieldError> {
        put_u64(&mut self.bytes, 8, value.0);
        Ok(())
    }

    fn set_address(&mut self, value: u64) -> Result<(), FieldError> {
        put_u64(&mut self.bytes, 16, value);
        Ok(())
    }

    fn set_offset(&mut self, value: u64) -> Result<(), FieldError> {
        put_u64(&mut self.bytes, 24, value);
        Ok(())
    }

    fn set_size(&mut self, value: u64) -> Result<(), FieldError> {
        put_u64(&mut self.bytes, 32, value);
        Ok(())
    }

    fn set_link(&mut self, value: u32) {
        put_u32(&mut self.bytes, 40, value);
    }

    fn set_info(&mut self, value: u32) {
        put_u32(&mut self.bytes, 44, value);
    }

    fn set_alignment(&mut self, value: u64) -> Result<(), FieldError> {
        put_u64(&mut self.bytes, 48, value);
        Ok(())
    }

    fn set_entry_size(&mut self, value: u64) -> Result<(), FieldError> {
        put_u64(&mut self.bytes, 56, value);
        Ok(())
    }
}

impl WritableSectionHeader for SectionHeader32 {
    fn set_name(&mut self, value: u32) {
        put_u32(&mut self.bytes, 0, value);
    }

    fn set_type(&mut self, value: SectionType) {
        put_u32(&mut self.bytes, 4, value.0);
    }

    fn set_flags(&mut self, value: SectionFlags) -> Result<(), FieldError> {
        put_word(&mut self.bytes, 8, Field::ShFlags, value.0)
    }

    fn set_address(&mut self, value: u64) -> Result<(), FieldError> {
        put_word(&mut self.bytes, 12, Field::ShAddr, value)
    }

    fn set_offset(&mut self, value: u64) -> Result<(), FieldError> {
        put_word(&mut self.bytes, 16, Field::ShOffset, value)
    }

    fn set_size(&mut self, value: u64) -> Result<(), FieldError> {
        put_word(&mut self.bytes, 20, Field::ShSize, value)
    }

    fn set_link(&mut self, value: u32) {
        put_u32(&mut self.bytes, 24, value);
    }

    fn set_info(&mut self, value: u32) {
        put_u32(&mut self.bytes, 28, value);
    }

    fn set_alignment(&mut self, value: u64) -> Result<(), FieldError> {
        put_word(&mut self.bytes, 32, Field::ShAddralign, value)
    }

    fn set_entry_size(&mut self, value: u64) -> Result<(), FieldError> {
        put_word(&mut self.bytes, 36, Field::ShEntsize, value)
    }
}
