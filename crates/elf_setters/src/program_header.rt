//! Setters of the program header (gABI, Program Header), for both classes. Each sets its field and leaves all
//! other bytes. A number that does not fit 32 bits is an error in ELFCLASS32, and the record is then unchanged.
//! Offsets and sizes are in bytes.

ghost use Rattle.std.specs.Prelude.{◌≡◌};
ghost use Rattle.elf_format.specs.Class as fields;
ghost use Rattle.elf_words.specs.declared.word.Field.TheVariants.{POffset, PVaddr, PPaddr, PFilesz, PMemsz, PAlign};
ghost use Rattle.elf_setters.specs.Put.{with_field, IsPut};

use crate::put::{put_u32, put_u64, put_word};
use elf_records32::ProgramHeader32;
use elf_records64::ProgramHeader64;
use elf_words::{Field, FieldError, ProgramHeaderFields};

/// The setters of a program header (gABI, Program Header).
pub trait WritableProgramHeader: ProgramHeaderFields {
    /// Sets `p_type`, the type of the segment.
    fn set_type(&mut self, value: u32)
        ensures { Self.contents self.new ≡ with_field (fields.p_type Self.class) value (Self.contents self.old) };

    /// Sets `p_flags`, the flags of the segment.
    fn set_flags(&mut self, value: u32)
        ensures { Self.contents self.new ≡ with_field (fields.p_flags Self.class) value (Self.contents self.old) };

    /// Sets `p_offset`, the offset of the segment in the file.
    /// `DoesNotFit` exactly where the value is above the range of the field. The record is then unchanged.
    fn set_offset(&mut self, value: u64) -> Result<(), FieldError>
        ensures { IsPut (fields.p_offset Self.class) POffset value (Self.contents self.old) (Self.contents self.new) result };

    /// Sets `p_vaddr`, the address of the segment in memory.
    /// `DoesNotFit` exactly where the value is above the range of the field. The record is then unchanged.
    fn set_virtual_address(&mut self, value: u64) -> Result<(), FieldError>
        ensures { IsPut (fields.p_vaddr Self.class) PVaddr value (Self.contents self.old) (Self.contents self.new) result };

    /// Sets `p_paddr`, the physical address of the segment, where that is relevant.
    /// `DoesNotFit` exactly where the value is above the range of the field. The record is then unchanged.
    fn set_physical_address(&mut self, value: u64) -> Result<(), FieldError>
        ensures { IsPut (fields.p_paddr Self.class) PPaddr value (Self.contents self.old) (Self.contents self.new) result };

    /// Sets `p_filesz`, the size of the segment in the file.
    /// `DoesNotFit` exactly where the value is above the range of the field. The record is then unchanged.
    fn set_file_size(&mut self, value: u64) -> Result<(), FieldError>
        ensures { IsPut (fields.p_filesz Self.class) PFilesz value (Self.contents self.old) (Self.contents self.new) result };

    /// Sets `p_memsz`, the size of the segment in memory.
    /// `DoesNotFit` exactly where the value is above the range of the field. The record is then unchanged.
    fn set_memory_size(&mut self, value: u64) -> Result<(), FieldError>
        ensures { IsPut (fields.p_memsz Self.class) PMemsz value (Self.contents self.old) (Self.contents self.new) result };

    /// Sets `p_align`, the alignment of the segment. 0 and 1 mean none.
    /// `DoesNotFit` exactly where the value is above the range of the field. The record is then unchanged.
    fn set_alignment(&mut self, value: u64) -> Result<(), FieldError>
        ensures { IsPut (fields.p_align Self.class) PAlign value (Self.contents self.old) (Self.contents self.new) result };
}

impl WritableProgramHeader for ProgramHeader64 {
    fn set_type(&mut self, value: u32) {
        put_u32(&mut self.bytes, 0, value);
    }

    fn set_flags(&mut self, value: u32) {
        put_u32(&mut self.bytes, 4, value);
    }

    fn set_offset(&mut self, value: u64) -> Result<(), FieldError> {
        put_u64(&mut self.bytes, 8, value);
        Ok(())
    }

    fn set_virtual_address(&mut self, value: u64) -> Result<(), FieldError> {
        put_u64(&mut self.bytes, 16, value);
        Ok(())
    }

    fn set_physical_address(&mut self, value: u64) -> Result<(), FieldError> {
        put_u64(&mut self.bytes, 24, value);
        Ok(())
    }

    fn set_file_size(&mut self, value: u64) -> Result<(), FieldError> {
        put_u64(&mut self.bytes, 32, value);
        Ok(())
    }

    fn set_memory_size(&mut self, value: u64) -> Result<(), FieldError> {
        put_u64(&mut self.bytes, 40, value);
        Ok(())
    }

    fn set_alignment(&mut self, value: u64) -> Result<(), FieldError> {
        put_u64(&mut self.bytes, 48, value);
        Ok(())
    }
}

impl WritableProgramHeader for ProgramHeader32 {
    fn set_type(&mut self, value: u32) {
        put_u32(&mut self.bytes, 0, value);
    }

    fn set_flags(&mut self, value: u32) {
        put_u32(&mut self.bytes, 24, value);
    }

    fn set_offset(&mut self, value: u64) -> Result<(), FieldError> {
        put_word(&mut self.bytes, 4, Field::POffset, value)
    }

    fn set_virtual_address(&mut self, value: u64) -> Result<(), FieldError> {
        put_word(&mut self.bytes, 8, Field::PVaddr, value)
    }

    fn set_physical_address(&mut self, value: u64) -> Result<(), FieldError> {
        put_word(&mut self.bytes, 12, Field::PPaddr, value)
    }

    fn set_file_size(&mut self, value: u64) -> Result<(), FieldError> {
        put_word(&mut self.bytes, 16, Field::PFilesz, value)
    }

    fn set_memory_size(&mut self, value: u64) -> Result<(), FieldError> {
        put_word(&mut self.bytes, 20, Field::PMemsz, value)
    }

    fn set_alignment(&mut self, value: u64) -> Result<(), FieldError> {
        put_word(&mut self.bytes, 28, Field::PAlign, value)
    }
}
