//! Setters of the file header (gABI, ELF Header), for both classes. Each sets its field and leaves all other
//! bytes. A number that does not fit 32 bits is an error in ELFCLASS32, and the record is then unchanged. Offsets
//! and sizes are in bytes.

ghost use Rattle.std.specs.Prelude.{◌≡◌, ℕ, ◌++◌, drop, refl};
ghost use Rattle.elf_format.specs.Class.{class_byte};
ghost use Rattle.elf_format.specs.Class as fields;
ghost use Rattle.elf_words.specs.declared.word.Field.TheVariants.{EEntry, EPhoff, EShoff};
ghost use Rattle.elf_setters.specs.Put.{with_field, IsPut};

use crate::put::{put_u16, put_u32, put_u64, put_word};
use elf_records32::FileHeader32;
use elf_records64::FileHeader64;
use elf_words::{Field, FieldError, FileHeaderFields};

/// The setters of a file header (gABI, ELF Header).
pub trait WritableFileHeader: FileHeaderFields {
    ghost CLASS: { ℕ };

    /// The byte of `e_ident` that names the class: 1 is ELFCLASS32, 2 is ELFCLASS64.
    const CLASS: u8;

    /// Sets `e_ident`, the first 16 bytes.
    fn set_ident(&mut self, value: &[u8; 16])
        ensures { Self.contents self.new ≡ value.now ++ drop 16 (Self.contents self.old) };

    /// Sets `e_type`: 1 is a relocatable file, 3 a shared object.
    fn set_type(&mut self, value: u16)
        ensures { Self.contents self.new ≡ with_field (fields.e_type Self.class) value (Self.contents self.old) };

    /// Sets `e_machine`, the number of the machine.
    fn set_machine(&mut self, value: u16)
        ensures { Self.contents self.new ≡ with_field (fields.e_machine Self.class) value (Self.contents self.old) };

    /// Sets `e_version`, the version of the format.
    fn set_version(&mut self, value: u32)
        ensures { Self.contents self.new ≡ with_field (fields.e_version Self.class) value (Self.contents self.old) };

    /// Sets `e_entry`, the address at which the program starts, 0 for none.
    /// `DoesNotFit` exactly where the value is above the range of the field. The record is then unchanged.
    fn set_entry(&mut self, value: u64) -> Result<(), FieldError>
        ensures { IsPut (fields.e_entry Self.class) EEntry value (Self.contents self.old) (Self.contents self.new) result };

    /// Sets `e_phoff`, the offset of the program header table, 0 for none.
    /// `DoesNotFit` exactly where the value is above the range of the field. The record is then unchanged.
    fn set_program_header_offset(&mut self, value: u64) -> Result<(), FieldError>
        ensures { IsPut (fields.e_phoff Self.class) EPhoff value (Self.contents self.old) (Self.contents self.new) result };

    /// Sets `e_shoff`, the offset of the section header table, 0 for none.
    /// `DoesNotFit` exactly where the value is above the range of the field. The record is then unchanged.
    fn set_section_header_offset(&mut self, value: u64) -> Result<(), FieldError>
        ensures { IsPut (fields.e_shoff Self.class) EShoff value (Self.contents self.old) (Self.contents self.new) result };

    /// Sets `e_flags`, the flags of the machine.
    fn set_flags(&mut self, value: u32)
        ensures { Self.contents self.new ≡ with_field (fields.e_flags Self.class) value (Self.contents self.old) };

    /// Sets `e_ehsize`, the size of the file header.
    fn set_header_size(&mut self, value: u16)
        ensures { Self.contents self.new ≡ with_field (fields.e_ehsize Self.class) value (Self.contents self.old) };

    /// Sets `e_phentsize`, the size of a program header.
    fn set_program_header_entry_size(&mut self, value: u16)
        ensures { Self.contents self.new ≡ with_field (fields.e_phentsize Self.class) value (Self.contents self.old) };

    /// Sets `e_phnum`, the number of program headers.
    fn set_program_header_count(&mut self, value: u16)
        ensures { Self.contents self.new ≡ with_field (fields.e_phnum Self.class) value (Self.contents self.old) };

    /// Sets `e_shentsize`, the size of a section header.
    fn set_section_header_entry_size(&mut self, value: u16)
        ensures { Self.contents self.new ≡ with_field (fields.e_shentsize Self.class) value (Self.contents self.old) };

    /// Sets `e_shnum`, the number of section headers. 0 where `sh_size` of section 0 has the number.
    fn set_section_header_count(&mut self, value: u16)
        ensures { Self.contents self.new ≡ with_field (fields.e_shnum Self.class) value (Self.contents self.old) };

    /// Sets `e_shstrndx`, the index of the section that holds the section names, 0 for none. 0xffff where `sh_link`
    /// of section 0 has the index.
    fn set_section_name_table_index(&mut self, value: u16)
        ensures { Self.contents self.new ≡ with_field (fields.e_shstrndx Self.class) value (Self.contents self.old) };

    ghost class_byte_is: { CLASS ≡ class_byte Self.class };
}

impl WritableFileHeader for FileHeader64 {
    ghost CLASS = { 2 };

    const CLASS: u8 = 2;

    fn set_ident(&mut self, value: &[u8; 16]) {
        self.bytes[..16].copy_from_slice(value);
    }

    fn set_type(&mut self, value: u16) {
        put_u16(&mut self.bytes, 16, value);
    }

    fn set_machine(&mut self, value: u16) {
        put_u16(&mut self.bytes, 18, value);
    }

    fn set_version(&mut self, value: u32) {
        put_u32(&mut self.bytes, 20, value);
    }

    fn set_entry(&mut self, value: u64) -> Result<(), FieldError> {
        put_u64(&mut self.bytes, 24, value);
        Ok(())
    }

    fn set_program_header_offset(&mut self, value: u64) -> Result<(), FieldError> {
        put_u64(&mut self.bytes, 32, value);
        Ok(())
    }

    fn set_section_header_offset(&mut self, value: u64) -> Result<(), FieldError> {
        put_u64(&mut self.bytes, 40, value);
        Ok(())
    }

    fn set_flags(&mut self, value: u32) {
        put_u32(&mut self.bytes, 48, value);
    }

    fn set_header_size(&mut self, value: u16) {
        put_u16(&mut self.bytes, 52, value);
    }

    fn set_program_header_entry_size(&mut self, value: u16) {
        put_u16(&mut self.bytes, 54, value);
    }

    fn set_program_header_count(&mut self, value: u16) {
        put_u16(&mut self.bytes, 56, value);
    }

    fn set_section_header_entry_size(&mut self, value: u16) {
        put_u16(&mut self.bytes, 58, value);
    }

    fn set_section_header_count(&mut self, value: u16) {
        put_u16(&mut self.bytes, 60, value);
    }

    fn set_section_name_table_index(&mut self, value: u16) {
        put_u16(&mut self.bytes, 62, value);
    }

    ghost class_byte_is = { refl };
}

impl WritableFileHeader for FileHeader32 {
    ghost CLASS = { 1 };

    const CLASS: u8 = 1;

    fn set_ident(&mut self, value: &[u8; 16]) {
        self.bytes[..16].copy_from_slice(value);
    }

    fn set_type(&mut self, value: u16) {
        put_u16(&mut self.bytes, 16, value);
    }

    fn set_machine(&mut self, value: u16) {
        put_u16(&mut self.bytes, 18, value);
    }

    fn set_version(&mut self, value: u32) {
        put_u32(&mut self.bytes, 20, value);
    }

    fn set_entry(&mut self, value: u64) -> Result<(), FieldError> {
        put_word(&mut self.bytes, 24, Field::EEntry, value)
    }

    fn set_program_header_offset(&mut self, value: u64) -> Result<(), FieldError> {
        put_word(&mut self.bytes, 28, Field::EPhoff, value)
    }

    fn set_section_header_offset(&mut self, value: u64) -> Result<(), FieldError> {
        put_word(&mut self.bytes, 32, Field::EShoff, value)
    }

    fn set_flags(&mut self, value: u32) {
        put_u32(&mut self.bytes, 36, value);
    }

    fn set_header_size(&mut self, value: u16) {
        put_u16(&mut self.bytes, 40, value);
    }

    fn set_program_header_entry_size(&mut self, value: u16) {
        put_u16(&mut self.bytes, 42, value);
    }

    fn set_program_header_count(&mut self, value: u16) {
        put_u16(&mut self.bytes, 44, value);
    }

    fn set_section_header_entry_size(&mut self, value: u16) {
        put_u16(&mut self.bytes, 46, value);
    }

    fn set_section_header_count(&mut self, value: u16) {
        put_u16(&mut self.bytes, 48, value);
    }

    fn set_section_name_table_index(&mut self, value: u16) {
        put_u16(&mut self.bytes, 50, value);
    }

    ghost class_byte_is = { refl };
}
