//! The size of the index of all objects, before it is written.

ghost use Rattle.std.specs.Prelude.{◌≢◌, ◌^◌, ◌<◌, length, IfOk, IfErr, IfSome, OnOk};
ghost use Rattle.std.specs.List.{All};
ghost use Rattle.gdb_index.specs.Size.{IsIndexSize, scan_counts};
ghost use Rattle.gdb_scan.specs.declared.error.GdbError.{GdbError as GdbError_spec};
ghost use Rattle.gdb_scan.specs.declared.error.GdbError.TheVariants.{NoMemory};
ghost use Rattle.gdb_scan.specs.Cause.{IsRefusedFor, IsOnlyMemory};
ghost use Rattle.gdb_index_format.specs.Version.{version_number};
ghost use Rattle.gdb_tables.specs.Files.{all_parsed, file_bytes, ArePlacedIn};
ghost use Rattle.gdb_tables.specs.Sized.{SizesIndex, IsIndexable, IsSizeCause};

use crate::files::scan_objects;
use crate::merge::merge_gdb_index_scans;
use elf_view::AnyFile;
use gdb_index::{GdbIndexScanResult, IndexTooLarge, checked_index_size};
use gdb_index_format::{IndexVersion, Placement};
use gdb_scan::GdbError;
use std::alloc::Global;

/// Returns how many bytes the index of all objects has in a version, with the scan that it is written from: 0 and none
/// exactly where there is no unit.
///
/// The errors, in this order: those of `scan_one_object` for the first object that is malformed; `TooManyUnits`
/// exactly where all objects together have more than 16,777,216 units; `IndexTooLarge`, with the size, exactly
/// where it is above 4,294,967,295. `NoMemory` may come at any objects, and alone at those whose index has a size
/// of at most that.
///
/// Requires fewer than 2^24 files, each of fewer than 2^39 bytes, and placements that ascend by object and section, name
/// objects and sections that exist, and whose ends fit 64 bits.
pub fn compute_gdb_index_size<'a>(
    alloc: Global,
    files: &[AnyFile<'a>],
    placements: &[Placement],
    version: IndexVersion,
) -> Result<(u32, Option<GdbIndexScanResult<'a>>), GdbError>
    requires few { length files.now < 2 ^ 24 }
    requires small { All (λ file. length file.bytes < 2 ^ 39) (all_parsed files.now) }
    requires placements { ArePlacedIn (file_bytes (all_parsed files.now)) placements.now }
    ensures size { IfOk result (λ sized. SizesIndex (version_number version) (file_bytes (all_parsed files.now)) placements.now sized.0 sized.1) }
    ensures room { IfOk result (λ sized. IfSome sized.1 (λ scan. IsIndexSize (version_number version) (scan_counts scan) sized.0)) }
    ensures indexable { OnOk result (IsIndexable (version_number version) (file_bytes (all_parsed files.now)) placements.now) }
    ensures cause { IfErr result (IsSizeCause (version_number version) (file_bytes (all_parsed files.now)) placements.now) }
    ensures exact { (e : GdbError_spec) → IsSizeCause (version_number version) (file_bytes (all_parsed files.now)) placements.now e → e ≢ NoMemory → IsRefusedFor result e }
    ensures complete { IsIndexable (version_number version) (file_bytes (all_parsed files.now)) placements.now → IfErr result IsOnlyMemory }
{
    let scans = match scan_objects(alloc, files, placements) {
        Ok(scans) => scans,
        Err(error) => return Err(error),
    };
    let merged = match merge_gdb_index_scans(alloc, scans) {
        Ok(merged) => merged,
        Err(error) => return Err(error),
    };
    if merged.units().is_empty() {
        return Ok((0, None));
    }
    let counts = merged.counts();
    match checked_index_size(&counts, version) {
        Ok(size) => Ok((size, Some(merged))),
        Err(IndexTooLarge(size)) => Err(GdbError::IndexTooLarge(size)),
    }
}
