//! Merges two indexes (`.gdb_index`: GDB manual, "Index Section Format") in one, as if the units of the second followed those
//! of the first. Both are of anyone's bytes, and checked. `specs/Merged.antt` defines the merged index, and `specs/Cause.antt`
//! why two indexes have none.
#![tactic(auto)]

mod addresses;
mod error;
mod examples;
mod laws;
mod merge;
mod names;
mod units;

pub use error::MergeError;
pub use examples::main_twice;
pub use laws::{
    joined_vectors_are_one, merge_causes_are_one, mergeable_has_no_cause, merged_sizes_are_one,
};
pub use merge::merge_indexes;
