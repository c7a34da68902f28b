//! The arguments, and the bytes of the file.

use program_io::{DiskFiles, Files};
use std::alloc::Global;
use std::rt::Env;

/// How many bytes an argument may have.
const ARGUMENT_LIMIT: usize = 4096;

/// How many bytes a file may have.
const FILE_LIMIT: usize = 1 << 30;

/// What is listed of an object.
#[derive(Clone, Copy)]
pub(crate) enum Listing {
    /// The CIEs and frames of `.eh_frame`.
    Frames,
    /// The symbols with their versions, the section groups, the version records and the dynamic entries.
    Symbols,
}

/// Returns what the first argument names, or None where it names nothing.
pub(crate) fn read_listing<R: Env>(rt: &R) -> Option<Listing> {
    let mut room = [0; ARGUMENT_LIMIT];
    let length = rt.arg(1, &mut room).ok()?;
    match room.get(..length)? {
        b"frames" => Some(Listing::Frames),
        b"symbols" => Some(Listing::Symbols),
        _ => None,
    }
}

/// Returns the bytes of the file that the second argument names, or None where it is not read.
pub(crate) fn read_file<R: Env + std::rt::Files>(rt: &R, alloc: Global) -> Option<Vec<u8>> {
    let mut room = [0; ARGUMENT_LIMIT];
    let length = rt.arg(2, &mut room).ok()?;
    let name = str::from_utf8(room.get(..length)?).ok()?;
    let mut bytes = Vec::new(alloc);
    let mut files = DiskFiles::new(rt);
    files.read_onto(name, &mut bytes, FILE_LIMIT).ok()?;
    Some(bytes)
}
