//! What a file's bytes hold before they are known to be well formed: the file header, the section headers with their
//! names and bytes, and the tables of symbols, section indexes and version indexes, each with the rule that it keeps
//! (System V gABI; GNU symbol versioning). A function takes the bytes and the section headers that were read from
//! them; none takes memory. The definitions are those of `elf_format`, over both classes.
#![tactic(auto)]

mod header;
mod index_entry;
mod section;
mod section_table;
mod symbol;
mod symbol_table;
mod version;

pub use header::read_header;
pub use index_entry::IndexEntry;
pub use section::{bytes_of_section, is_string_at, strings_of_link};
pub use section_table::{read_section_headers, read_section_names};
pub use symbol::are_symbols_well_formed;
pub use symbol_table::{
    find_symbol_table, read_section_indexes, read_symbol_strings, read_symbols,
};
pub use version::{are_versions_well_formed, find_version_section, read_symbol_versions};
