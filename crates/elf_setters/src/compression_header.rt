//! Setters of the compression header (gABI, Section Compression), for both classes. Each sets its field and
//! leaves all other bytes. A number that does not fit 32 bits is an error in ELFCLASS32, and the record is then
//! unchanged. Sizes are in bytes.

ghost use Rattle.std.specs.Prelude.{◌≡◌};
ghost use Rattle.elf_format.specs.Class as fields;
ghost use Rattle.elf_words.specs.declared.word.Field.TheVariants.{ChSize, ChAddralign};
ghost use Rattle.elf_setters.specs.Put.{with_field, IsPut};

use crate::put::{put_u32, put_u64, put_word};
use elf_records32::CompressionHeader32;
use elf_records64::CompressionHeader64;
use elf_words::{CompressionFields, Field, FieldError};

/// The setters of a compression header (gABI, Section Compression).
pub trait WritableCompressionHeader: CompressionFields {
    /// Sets `ch_type`, the compression algorithm.
    fn set_type(&mut self, value: u32)
        ensures { Self.contents self.new ≡ with_field (fields.ch_type Self.class) value (Self.contents self.old) };

    /// Sets `ch_size`, the size of the uncompressed bytes.
    /// `DoesNotFit` exactly where the value is above the range of the field. The record is then unchanged.
    fn set_size(&mut self, value: u64) -> Result<(), FieldError>
        ensures { IsPut (fields.ch_size Self.class) ChSize value (Self.contents self.old) (Self.contents self.new) result };

    /// Sets `ch_addralign`, the alignment of the uncompressed bytes.
    /// `DoesNotFit` exactly where the value is above the range of the field. The record is then unchanged.
    fn set_alignment(&mut self, value: u64) -> Result<(), FieldError>
        ensures { IsPut (fields.ch_addralign Self.class) ChAddralign value (Self.contents self.old) (Self.contents self.new) result };
}

impl WritableCompressionHeader for CompressionHeader64 {
    fn set_type(&mut self, value: u32) {
        put_u32(&mut self.bytes, 0, value);
    }

    fn set_size(&mut self, value: u64) -> Result<(), FieldError> {
        put_u64(&mut self.bytes, 8, value);
        Ok(())
    }

    fn set_alignment(&mut self, value: u64) -> Result<(), FieldError> {
        put_u64(&mut self.bytes, 16, value);
        Ok(())
    }
}

impl WritableCompressionHeader for CompressionHeader32 {
    fn set_type(&mut self, value: u32) {
        put_u32(&mut self.bytes, 0, value);
    }

    fn set_size(&mut self, value: u64) -> Result<(), FieldError> {
        put_word(&mut self.bytes, 4, Field::ChSize, value)
    }

    fn set_alignment(&mut self, value: u64) -> Result<(), FieldError> {
        put_word(&mut self.bytes, 8, Field::ChAddralign, value)
    }
}
