//! Browses an index (`.gdb_index`: GDB manual, "Index Section Format"): checks untrusted bytes of versions 8 and 9, and lists
//! the units, address entries and names of an index that passes. `specs/` defines which indexes pass, and which test fails
//! first for any other.
#![tactic(auto)]

mod areas;
mod check;
mod error;
mod examples;
mod fault;
mod laws;
mod names;
mod slots;

pub use check::{CheckedIndex, check_index};
pub use error::BrowseError;
pub use examples::{damaged_areas, damaged_slots, small_indexes_pass};
pub use laws::{
    checked_has_no_fault, checked_is_well_formed, layout_is_checked, layout_lists_addresses,
    name_lists_are_one,
};
pub use names::NameEntry;
