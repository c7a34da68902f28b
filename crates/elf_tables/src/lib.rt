//! Records that have the same form in both classes, each as the bytes that a file holds: symbol versions, the
//! GNU hash table, `.eh_frame` and `.eh_frame_hdr`, and program properties. A getter returns the number at the
//! offset of its field.
#![tactic(auto)]

mod eh_frame_entry;
mod eh_frame_hdr;
mod gnu_hash;
mod property;
mod verdef;
mod verneed;
mod versym;

pub use eh_frame_entry::EhFrameEntryPrefix;
pub use eh_frame_hdr::{EhFrameHdr, EhFrameHdrEntry};
pub use gnu_hash::GnuHashHeader;
pub use property::{AArch64PAuthProperty, NoteProperty};
pub use verdef::{Verdaux, Verdef};
pub use verneed::{Vernaux, Verneed};
pub use versym::Versym;
