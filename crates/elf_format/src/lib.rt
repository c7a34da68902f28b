//! What the bytes of an ELF file mean (System V gABI). The definitions are in `specs/`, for both classes over
//! one table of record sizes and field offsets. Here are the plain types that they name, and laws and worked
//! examples of them: each law and each example is a public function with an empty body.
#![tactic(auto)]

mod architecture;
mod crel;
mod crel_examples;
mod cursor;
mod error;
mod examples;
mod index;
mod laws;
mod version_examples;
mod view_examples;

pub use architecture::Architecture;
pub use crel::{Crel, CrelError};
pub use crel_examples::{small_lists, small_numbers};
pub use cursor::CursorError;
pub use error::ElfError;
pub use examples::{
    small_object_is_well_formed, small_object_of_class_32_is_well_formed,
    symbols_and_versions_are_found,
};
pub use index::{SectionIndex, Span, SymbolIndex};
pub use laws::{
    file_header_numbers_are_the_standards, lists_are_read_again, no_number_is_shorter,
    numbers_are_read_again,
};
pub use version_examples::{
    needed_versions_are_named, symbol_names_are_split, version_chains_are_followed,
    version_definitions_are_named, version_texts_have_their_mark,
};
pub use view_examples::{
    dynamic_entries_are_found, dynamic_tags_are_the_standards, groups_are_found,
};
