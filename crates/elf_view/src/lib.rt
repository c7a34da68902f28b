//! Views of an ELF file's bytes (System V gABI). `File` is a well-formed file: it returns its section headers, section
//! names and bytes, its symbols with their names, sections and versions, its section groups, its dynamic entries, and the
//! relocations of a section. A view borrows the file's bytes and copies none. Little-endian files of both classes are
//! read, by one generic code.
#![tactic(auto)]

mod any_file;
mod dynamic;
mod enumerate;
mod file;
mod file_kind;
mod group;
mod group_error;
mod groups;
mod laws;
mod reloc_error;
mod relocation_list;
mod relocation_sections;
mod section_views;
mod sonames;
mod symbols;
mod versions;

pub use any_file::{AnyFile, class_is_named};
pub use dynamic::{DynView, DynamicTagValues};
pub use elf_format::{Architecture, ElfError};
pub use elf_versions::{
    RawSymbolName, VerdauxIter, VerdefIter, VernauxIter, VerneedIter, VerneedTable, VersionError,
    VersionNames, raw_symbol_name,
};
pub use enumerate::{RecordEnum, SectionEnum, SymbolEnum, TableIndex};
pub use file::{File, File64, RelocationList64, SectionIter};
pub use file_kind::FileKind;
pub use group::{MemberView, SectionGroup};
pub use group_error::GroupError;
pub use laws::{group_causes_are_one, relocation_causes_are_one};
pub use reloc_error::RelocError;
pub use relocation_sections::RelocationSections;
pub use sonames::{Sonames, has_complete_deps, should_enforce_undefined};
pub use symbols::{SymbolIter, VersymView};
