//! Finds the function of an address in an SFrame section whose functions ascend by address (SFrame 2). A section is
//! checked once; then each lookup is a binary search, whose steps are counted. No call allocates. `sframe_order` reads
//! the contribution; `specs/` says which sections can be searched and what a lookup finds.
#![tactic(auto)]

mod check;
mod examples;
mod fault;
mod frames;
mod laws;

pub use check::check_sframe;
pub use examples::{a_range_is_covered, two_functions_are_listed};
pub use fault::FindFault;
pub use frames::{FrameFunction, OrderedFrames};
pub use laws::{find_causes_are_one, ordered_has_no_cause, scans_are_one, sorted_is_ordered};
pub use search_steps::Steps;
