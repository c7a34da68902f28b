//! What tables are derived from, as one value.

use elf_format::{Architecture, Span};
use gdb_index_format::{IndexVersion, Placement};

/// What tables are derived from, and where the SFrame section is loaded.
#[derive(Clone, Copy)]
pub(crate) struct Input<'a, 'i> {
    /// The machine that each object is for.
    pub(crate) machine: Architecture,
    /// The bytes that the objects are spans of.
    pub(crate) buffer: &'a [u8],
    /// The span of each object in the buffer.
    pub(crate) objects: &'i [Span],
    /// The addresses of sections of the objects, in ascending order of object and section.
    pub(crate) placements: &'i [Placement],
    /// The bytes of the SFrame section.
    pub(crate) sframe: &'i [u8],
    /// The contributions of the SFrame section, as spans of its bytes.
    pub(crate) ranges: &'i [Span],
    /// The address of the first byte of the SFrame section.
    pub(crate) base: u64,
    /// The version of the index.
    pub(crate) version: IndexVersion,
}
