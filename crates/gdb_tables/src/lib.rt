//! Builds the `.gdb_index` of all objects of a program (GDB manual, "Index Section Format"): the merge of the scans of
//! all objects, the size of the index, the entries of its address area, and one call that builds the whole index. The
//! public calls of the crates below that belong to this task are re-exported here.
#![tactic(auto)]

mod addresses;
mod buckets;
mod element;
mod files;
mod hashed_name;
mod index;
mod laws;
mod merge;
mod misplaced;
mod sizing;
mod vectors;

pub use addresses::build_address_entries;
pub use dwarf_sections::{
    PubnamesSet, SetError, UnitError, cu_index_for_offset, parse_cu_boundaries, parse_pubnames_sets,
};
pub use files::scan_objects;
pub use gdb_index::{
    AddressEntry, BadIndex, CuVector, GdbIndexScanResult, IndexCounts, IndexTooLarge, NameWords,
    Steps, checked_index_size, compute_hash_table_slots, encode_cu_vector_entry, gdb_hash,
    index_size, lookup, write_gdb_index,
};
pub use gdb_index_format::{CuBoundary, IndexVersion, Placement, UnitFault};
pub use gdb_scan::{
    GdbError, MapError, Mark, PerObjectScan, Publication, build_section_cu_map,
    scan_causes_are_one, scan_one_object,
};
pub use index::{IndexTables, build_index};
pub use laws::{
    address_causes_are_one, build_causes_are_one, built_indexes_are_one, files_causes_are_one,
    index_has_few_steps, indexable_has_no_cause, merges_are_one, merging_causes_are_one,
    object_scans_are_one, relocated_has_no_cause, size_causes_are_one, sized_indexes_are_one,
};
pub use merge::merge_gdb_index_scans;
pub use misplaced::{first_misplaced, placed_are_not_misplaced};
pub use sizing::compute_gdb_index_size;
