//! Small ELF objects for tests (System V gABI, "ELF Header", "Sections"), of both classes and little endian, and small indexes.
//! An object is its header, the bytes of its sections without gaps, and the section header table. The last section holds the
//! section names. Only tests use this crate; it promises safety and no more.
#![tactic(auto)]

mod class;
mod indexes;
mod object_file;
mod records;
mod samples;
mod section;

pub use class::ObjectClass;
pub use elf_words::ET_REL;
pub use indexes::{MAIN, MAIN_8, MAIN_TWICE, PLACED, with_bytes};
pub use object_file::{object, object_of_class};
pub use records::{SymbolRecord, dynamic_entries, rela_records, symbol_records, symbol_table};
pub use samples::{
    SET_OF_MAIN, UNIT, object_of_two_units, object_of_two_units_of, object_with_names,
    object_with_names_of, sample, sections_of_two_units,
};
pub use section::{Section, plain};
