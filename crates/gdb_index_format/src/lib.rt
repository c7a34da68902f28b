//! The `.gdb_index` format (GDB manual, "Index Section Format"), with the compilation units (CUs) of `.debug_info`
//! (DWARF 5, 7.4 and 7.5.1) and the sets of `.debug_gnu_pubnames` and `.debug_gnu_pubtypes` that an index is made of.
//! The definitions stand in `specs/`; the plain types that they name, laws over them and examples of them stand
//! here. `specs/Version.antt` alone holds what depends on the version of an index.
#![tactic(auto)]

mod bad_index;
mod dwarf_format;
mod examples;
mod laws;
mod name_words;
mod placement;
mod unit;
mod version;

pub use bad_index::BadIndex;
pub use dwarf_format::DwarfFormat;
pub use examples::{
    faulty_indexes, faulty_versions, names_in_buckets, one_name_is_found,
    one_name_is_found_in_version_8, small_object_publishes_main, small_sets, small_units,
    two_names_are_found,
};
pub use laws::{
    class_is_the_named, each_slot_once, names_have_buckets, objects_are_one, pool_has_each_name,
    published_names_are_one, sets_are_one, sizes_are_one, units_are_one, units_of_all_run,
    words_are_one,
};
pub use name_words::NameWords;
pub use placement::{AddressEntry, Placement};
pub use unit::{CuBoundary, UnitFault};
pub use version::IndexVersion;
