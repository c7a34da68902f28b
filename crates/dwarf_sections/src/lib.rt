//! Reads the DWARF sections that an index is made of: the compilation units (CUs) of `.debug_info` (DWARF 5, 7.4 and
//! 7.5.1), and the sets of `.debug_gnu_pubnames` and `.debug_gnu_pubtypes` (the layout of DWARF 4, 6.1.1). Bytes are
//! read once, from the first to the last, and names stay slices of them. The unit of an offset is found by binary
//! search.
#![tactic(auto)]

mod entries;
mod laws;
mod set_error;
mod sets;
mod unit_search;
mod units;

pub use gdb_index_format::{CuBoundary, DwarfFormat, UnitFault};
pub use laws::unit_list_causes_are_one;
pub use set_error::SetError;
pub use sets::{PubnamesSet, parse_pubnames_sets};
pub use unit_search::{cu_index_for_offset, unit_with_offset};
pub use units::{UnitError, parse_cu_boundaries};
