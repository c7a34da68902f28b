//! The index of small objects, from their bytes: the calls that make it one after another, as the tests of its parts
//! need it.

ghost use Rattle.std.specs.Prelude.{◌^◌, ◌<◌, Some, length};
ghost use Rattle.std.specs.List.{All};
ghost use Rattle.gdb_index.specs.Size.{IsIndexSize, scan_counts};
ghost use Rattle.gdb_index_format.specs.Version.{version_number};
ghost use Rattle.gdb_tables.specs.Files.{all_parsed, file_bytes, ArePlacedIn};
ghost use Rattle.gdb_tables.specs.Sized.{SizesIndex};

use elf_view::AnyFile;
use gdb_index_format::{AddressEntry, IndexVersion, Placement};
use gdb_tables::{
    GdbError, GdbIndexScanResult, IndexTables, build_address_entries, build_index,
    compute_gdb_index_size, first_misplaced, write_gdb_index,
};
use std::alloc::Global;

/// The index of an object, and what it is made from.
#[derive(Debug, Drop)]
pub struct Written {
    /// The size of the index in bytes.
    pub size: u32,
    /// The entries of its address area.
    pub entries: Vec<AddressEntry>,
    /// The bytes that `write_gdb_index` wrote.
    pub index: Vec<u8>,
}

/// Returns the placement of a section of the object with index 0.
pub fn placed(section: usize, address: u64, size: u64) -> Placement {
    Placement {
        object: 0,
        section,
        address,
        size,
    }
}

/// Writes the index of a scan in a version, of this size.
fn write_scan(
    alloc: Global,
    files: &[AnyFile<'_>],
    placements: &[Placement],
    size: u32,
    scan: &GdbIndexScanResult<'_>,
    version: IndexVersion,
) -> Result<Written, GdbError>
    requires few { length files.now < 2 ^ 24 }
    requires small { All (λ file. length file.bytes < 2 ^ 39) (all_parsed files.now) }
    requires placements { ArePlacedIn (file_bytes (all_parsed files.now)) placements.now }
    requires sized { SizesIndex (version_number version) (file_bytes (all_parsed files.now)) placements.now size (Some scan.now) }
    requires room { IsIndexSize (version_number version) (scan_counts scan.now) size }
{
    let entries = match build_address_entries(alloc, files, scan, placements) {
        Ok(entries) => entries,
        Err(error) => return Err(error),
    };
    let mut index = vec![in alloc; 0u8; size as usize]?;
    if !index.is_empty() {
        write_gdb_index(&mut index, scan, &entries, version);
    }
    Ok(Written {
        size,
        entries,
        index,
    })
}

/// Returns the index of an object of either class. It has no bytes where the object has no unit, where its bytes are no
/// object, and where a placement is misplaced.
pub fn write_index(
    alloc: Global,
    bytes: &[u8],
    placements: &[Placement],
    version: IndexVersion,
) -> Result<Written, GdbError>
    requires { length bytes.now < 2 ^ 39 }
{
    let none = Ok(Written {
        size: 0,
        entries: Vec::new(alloc),
        index: Vec::new(alloc),
    });
    let Ok(file) = AnyFile::parse_bytes(bytes, false) else {
        return none;
    };
    let files = [file];
    if first_misplaced(&files, placements).is_some() {
        return none;
    }
    match compute_gdb_index_size(alloc, &files, placements, version) {
        Ok((size, Some(scan))) => write_scan(alloc, &files, placements, size, &scan, version),
        Ok((_, None)) => none,
        Err(error) => Err(error),
    }
}

/// Returns the index of an object of either class, built by one call; none where the bytes are no object, and where a
/// placement is misplaced.
pub fn built<'a>(
    alloc: Global,
    bytes: &'a [u8],
    placements: &[Placement],
    version: IndexVersion,
) -> Result<Option<IndexTables<'a>>, GdbError>
    requires { length bytes.now < 2 ^ 39 }
{
    let Ok(file) = AnyFile::parse_bytes(bytes, false) else {
        return Ok(None);
    };
    let files = [file];
    if first_misplaced(&files, placements).is_some() {
        return Ok(None);
    }
    match build_index(alloc, &files, placements, version) {
        Ok(tables) => Ok(Some(tables)),
        Err(error) => Err(error),
    }
}

/// Returns the index of two objects without placements, each of either class; none where the bytes of one are no object.
pub fn built_of_two<'a>(
    alloc: Global,
    first: &'a [u8],
    second: &'a [u8],
    version: IndexVersion,
) -> Result<Option<IndexTables<'a>>, GdbError>
    requires first { length first.now < 2 ^ 39 }
    requires second { length second.now < 2 ^ 39 }
{
    let (Ok(first), Ok(second)) = (
        AnyFile::parse_bytes(first, false),
        AnyFile::parse_bytes(second, false),
    ) else {
        return Ok(None);
    };
    match build_index(alloc, &[first, second], &[], version) {
        Ok(tables) => Ok(Some(tables)),
        Err(error) => Err(error),
    }
}
