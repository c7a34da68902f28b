//! The files of a command, as they were read.

use elf_format::Span;

/// The bytes of the files that a command names.
#[derive(Debug, Drop)]
pub struct FilesRead {
    /// The layout's bytes, at most 2^30.
    pub layout: Vec<u8>,
    /// The SFrame bytes, at most 2^30; none where the command names no such file.
    pub sframe: Vec<u8>,
    /// The bytes of all objects, one after another, at most 2^30.
    pub buffer: Vec<u8>,
    /// The span of each object in `buffer`, in the order of the arguments.
    pub objects: Vec<Span>,
}
