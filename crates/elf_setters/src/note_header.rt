//! Setters of the header of a note (gABI, Note Section), which has the same form in both classes. Each sets its
//! field and leaves all other bytes. Sizes are in bytes.

ghost use Rattle.std.specs.Prelude.{◌≡◌};
ghost use Rattle.elf_format.specs.Table as fields;
ghost use Rattle.elf_setters.specs.Put.{with_field};

use crate::put::put_u32;
use elf_words::{NoteHeader, Record};

/// The setters of the header of a note (gABI, Note Section).
pub trait WritableNoteHeader: Record {
    /// Sets `n_namesz`, the size of the name in bytes.
    fn set_name_size(&mut self, value: u32)
        ensures { Self.contents self.new ≡ with_field fields.n_namesz value (Self.contents self.old) };

    /// Sets `n_descsz`, the size of the descriptor in bytes.
    fn set_descriptor_size(&mut self, value: u32)
        ensures { Self.contents self.new ≡ with_field fields.n_descsz value (Self.contents self.old) };

    /// Sets `n_type`, the type of the descriptor.
    fn set_type(&mut self, value: u32)
        ensures { Self.contents self.new ≡ with_field fields.n_type value (Self.contents self.old) };
}

impl WritableNoteHeader for NoteHeader {
    fn set_name_size(&mut self, value: u32) {
        put_u32(&mut self.bytes, 0, value);
    }

    fn set_descriptor_size(&mut self, value: u32) {
        put_u32(&mut self.bytes, 4, value);
    }

    fn set_type(&mut self, value: u32) {
        put_u32(&mut self.bytes, 8, value);
    }
}
