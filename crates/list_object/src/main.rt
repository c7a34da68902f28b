//! The program `list_object frames FILE` or `list_object symbols FILE`: what the views of a file have, one item a line. It is for
//! checks and measurements over real files; all of its work is that of `elf_view` and `elf_frames`. A file of the type
//! ET_DYN is parsed as a dynamic one.
#![tactic(auto)]

mod error;
mod frames;
mod groups;
mod input;
mod symbols;
mod versions;

use elf_view::{AnyFile, File};
use elf_words::{ET_DYN, ElfClass};
use error::ListError;
use frames::list_frames;
use groups::list_groups;
use input::{Listing, read_file, read_listing};
use std::alloc::Global;
use std::process::ExitCode;
use symbols::list_symbols;
use versions::{list_tags, list_versions};

/// Lists a file of one class.
fn list<C: ElfClass, R: Print>(
    rt: &R,
    alloc: Global,
    file: &File<'_, C>,
    listing: Listing,
) -> Result<(), ListError> {
    match listing {
        Listing::Frames => list_frames(rt, alloc, file),
        Listing::Symbols => {
            list_symbols(rt, alloc, file)?;
            list_groups(rt, alloc, file)?;
            list_versions(rt, file)?;
            list_tags(rt, file)
        }
    }
}

/// Lists a file of either class.
fn list_any<R: Print>(
    rt: &R,
    alloc: Global,
    file: &AnyFile<'_>,
    listing: Listing,
) -> Result<(), ListError> {
    match file {
        AnyFile::Class64(file) => list(rt, alloc, file, listing),
        AnyFile::Class32(file) => list(rt, alloc, file, listing),
    }
}

/// Lists a file by its bytes.
fn list_bytes<R: Print>(
    rt: &R,
    alloc: Global,
    bytes: &[u8],
    listing: Listing,
) -> Result<(), ListError> {
    let file = AnyFile::parse_bytes(bytes, false)?;
    if file.file_type() == ET_DYN {
        let file = AnyFile::parse_bytes(bytes, true)?;
        return list_any(rt, alloc, &file, listing);
    }
    list_any(rt, alloc, &file, listing)
}

fn main(rt: HostRuntime) -> ExitCode {
    let Some(listing) = read_listing(&rt) else {
        let _ = eprintln!(rt; "list_object: the first argument is neither `frames` nor `symbols`");
        return ExitCode::from(2);
    };
    let Some(bytes) = read_file(&rt, rt.alloc()) else {
        let _ = eprintln!(rt; "list_object: the file of the second argument is not read");
        return ExitCode::from(2);
    };
    match list_bytes(&rt, rt.alloc(), &bytes, listing) {
        Ok(()) => ExitCode::from(0),
        Err(error) => {
            let _ = eprintln!(rt; "list_object: {error}");
            ExitCode::from(1)
        }
    }
}
