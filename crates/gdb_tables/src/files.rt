//! The scans of all objects, each of either class.

ghost use Rattle.std.specs.Prelude.{◌≡◌, ◌≢◌, ℕ, ◌^◌, ◌<◌, List, length, IfOk, IfErr};
ghost use Rattle.std.specs.List.{All};
ghost use Rattle.elf_view.specs.AnyFile.{parsed};
ghost use Rattle.gdb_index_format.specs.Published.{Object};
ghost use Rattle.gdb_index_format.specs.Objects.{class_in, AreObjectsOf};
ghost use Rattle.gdb_scan.specs.declared.error.GdbError.{GdbError as GdbError_spec};
ghost use Rattle.gdb_scan.specs.declared.error.GdbError.TheVariants.{NoMemory};
ghost use Rattle.gdb_scan.specs.Cause.{IsScanCause, IsRefusedFor, IsOnlyMemory};
ghost use Rattle.gdb_scan.specs.PlacedIn.{ArePlacements, NameSections};
ghost use Rattle.gdb_scan.specs.Scanned.{ScansObject};
ghost use Rattle.gdb_tables.specs.Files.{all_parsed, file_bytes, ArePlain, ArePlacedIn, ScansObjects, IsFilesCause};

use elf_view::{AnyFile, File};
use elf_words::ElfClass;
use gdb_index_format::Placement;
use gdb_scan::{GdbError, PerObjectScan, scan_one_object};
use std::alloc::Global;

/// Returns the scan of an object, whose class is the one that its bytes name.
fn scan_file<'a, C: ElfClass>(
    alloc: Global,
    object: usize,
    file: &File<'a, C>,
    placements: &[Placement],
) -> Result<Option<PerObjectScan<'a>>, GdbError>
    requires small { length file.now.bytes < 2 ^ 39 }
    requires placements { ArePlacements placements.now }
    requires named { NameSections (class_in file.now.bytes) file.now.bytes object placements.now }
    ensures scan { IfOk result (ScansObject (class_in file.now.bytes) file.now.bytes object placements.now) }
    ensures cause { IfErr result (IsScanCause (class_in file.now.bytes) object file.now.bytes) }
{
    file.well_formed();
    scan_one_object(alloc, object, file, placements)
}

/// Returns the scan of an object of either class.
fn scan_object<'a>(
    alloc: Global,
    object: usize,
    file: &AnyFile<'a>,
    placements: &[Placement],
) -> Result<Option<PerObjectScan<'a>>, GdbError>
    requires small { length (parsed file.now).bytes < 2 ^ 39 }
    requires placements { ArePlacements placements.now }
    requires named { NameSections (class_in (parsed file.now).bytes) (parsed file.now).bytes object placements.now }
    ensures scan { IfOk result (ScansObject (class_in (parsed file.now).bytes) (parsed file.now).bytes object placements.now) }
    ensures cause { IfErr result (IsScanCause (class_in (parsed file.now).bytes) object (parsed file.now).bytes) }
{
    match file {
        AnyFile::Class64(file) => scan_file(alloc, object, file, placements),
        AnyFile::Class32(file) => scan_file(alloc, object, file, placements),
    }
}

/// Returns the scans of all objects, in input order. It is refused for the first object that is not scanned, as
/// `scan_one_object` refuses it; where each can be scanned, for out of memory alone.
///
/// Requires files of fewer than 2^39 bytes each, and placements that ascend by object and section, name objects and
/// sections that exist, and whose ends fit 64 bits.
pub fn scan_objects<'a>(
    alloc: Global,
    files: &[AnyFile<'a>],
    placements: &[Placement],
) -> Result<Vec<Option<PerObjectScan<'a>>>, GdbError>
    requires small { All (λ file. length file.bytes < 2 ^ 39) (all_parsed files.now) }
    requires placements { ArePlacedIn (file_bytes (all_parsed files.now)) placements.now }
    ensures scans { IfOk result (λ scans. ScansObjects (file_bytes (all_parsed files.now)) placements.now scans.items) }
    ensures cause { IfErr result (IsFilesCause (file_bytes (all_parsed files.now))) }
    ensures exact { (e : GdbError_spec) → IsFilesCause (file_bytes (all_parsed files.now)) e → e ≢ NoMemory → IsRefusedFor result e }
    ensures complete { (os : List Object) → AreObjectsOf (file_bytes (all_parsed files.now)) os → ArePlain (file_bytes (all_parsed files.now)) → IfErr result IsOnlyMemory }
{
    let mut scans = Vec::with_capacity(alloc, files.len())?;
    for (object, file) in files.iter().enumerate() {
        match scan_object(alloc, object, file, placements) {
            Ok(scan) => scans.push(scan)?,
            Err(error) => return Err(error),
        }
    }
    Ok(scans)
}
