//! The SFrame format, version 2 (the SFrame specification of the GNU binary utilities). `specs/` says which
//! contributions and functions the bytes of a section hold, what their order by address is, which sections can be
//! sorted, and the first fault of the others. The types that these definitions name are here, with the reader and
//! the writer of the header.
#![tactic(auto)]

mod fault;
mod fields;
mod header;
mod laws;
mod numbers;

pub use elf_words::Span;
pub use fault::{LargeKind, SframeFault, SframeOutcome, TruncatedKind};
pub use fields::read_i32;
pub use header::{Header, SframeError, written_then_read};
pub use laws::parsed_headers_are_one;
pub use numbers::{
    FDE_SIZE, FLAGS_OF_FIRST, SFRAME_F_FDE_FUNC_START_PCREL, SFRAME_F_FDE_SORTED,
    SFRAME_F_FRAME_POINTER, SFRAME_F_SIGNED_RETURN_ADDRESSES, sframe_numbers_are_the_standards,
};
