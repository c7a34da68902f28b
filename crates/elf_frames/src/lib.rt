//! What `.eh_frame` holds of each section (Linux Standard Base, The .eh_frame Section): common information entries (CIEs),
//! and frame description entries (FDEs), each of which describes the code of one section. The relocations of the section
//! say which. Frames of one section are linked, from the last to the first. All is generic over the class.
#![tactic(auto)]

mod chain;
mod eh_frames;
mod entry;
mod error;
mod examples;
mod frame;
mod frame_sizes;
mod laws;
mod links;
mod parts;
mod source;
mod split;
mod starts;

pub use chain::FrameChain;
pub use eh_frames::EhFrames;
pub use entry::is_eh_frame_terminator;
pub use error::FrameError;
pub use examples::{
    bytes_at_the_end, frames_are_linked, small_sections_are_refused, small_sections_are_split,
};
pub use frame::{CieAtOffset, EhFrameSizes, ExceptionFrame, FrameIndex};
pub use laws::{
    forms_agree, later_frames_come_first, previous_frames_are_lower, splits_are_one,
    splits_are_within,
};
pub use split::split_eh_frame;
