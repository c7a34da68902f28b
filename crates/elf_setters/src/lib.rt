//! Setters of the ELF records of both classes (System V gABI), one trait for each record. A setter sets its field,
//! where its getter reads it again, and changes nothing else. After an error nothing is changed. In ELFCLASS64 no
//! setter fails.
#![tactic(auto)]

mod compression_header;
mod dynamic;
mod file_header;
mod laws;
mod note_header;
mod program_header;
mod put;
mod rela;
mod relr;
mod section_header;
mod symbol;

pub use compression_header::WritableCompressionHeader;
pub use dynamic::WritableDynamicEntry;
pub use elf_words::{Field, FieldError};
pub use file_header::WritableFileHeader;
pub use laws::{
    elfclass64_fields_hold_64_bits, info_is_read_again, nothing_else_changes,
    numbers_are_read_again, signed_numbers_are_read_again,
};
pub use note_header::WritableNoteHeader;
pub use program_header::WritableProgramHeader;
pub use rela::WritableRela;
pub use relr::WritableRelr;
pub use section_header::WritableSectionHeader;
pub use symbol::WritableSymbol;
