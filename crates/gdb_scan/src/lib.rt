//! What one object gives to an index (GDB manual, "Index Section Format"): its compilation units, the names that it
//! publishes, how many of its placed sections count, and the unit that the relocations of its `.debug_info` assign to
//! each section (gABI, Relocation).
#![tactic(auto)]

mod ascending;
mod debug_sections;
mod error;
mod laws;
mod map;
mod map_error;
mod mark;
mod object_names;
mod object_scan;
mod placed;
mod relocations;
mod scan;

pub use debug_sections::{debug_info, first_compressed, is_pubnames_section};
pub use error::GdbError;
pub use laws::{map_causes_are_one, scan_causes_are_one, scans_are_one};
pub use map::{build_section_cu_map, section_units};
pub use map_error::MapError;
pub use mark::{Mark, Publication};
pub use object_scan::PerObjectScan;
pub use placed::{is_code_placement, placements_of};
pub use scan::{read_units, scan_one_object};
