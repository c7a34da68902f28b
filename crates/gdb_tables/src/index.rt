//! Builds the index of all objects (GDB manual, "Index Section Format"): its units, its names in byte order, and its
//! bytes.

ghost use Rattle.std.specs.Prelude.{◌≡◌, ◌≢◌, ◌^◌, ◌<◌, ◌≤◌, List, Some, length, OnOk, IfOk, IfErr, IsSortedByKey, IsPermutation};
ghost use Rattle.std.specs.Cmp.Lexicographic.{slice_cmp};
ghost use Rattle.std.specs.List.{All};
ghost use Rattle.std.specs.Ordering.{nat_cmp};
ghost use Rattle.gdb_index_format.specs.Named.{all_named, names_in, AreNamesOf, AnswersAll, HasFewSteps};
ghost use Rattle.gdb_index_format.specs.Published.{Pair};
ghost use Rattle.gdb_index_format.specs.Units.{index_units};
ghost use Rattle.gdb_index_format.specs.Version.{version_number};
ghost use Rattle.gdb_index.specs.Layout.{IsLayoutOf};
ghost use Rattle.gdb_index.specs.Size.{IsIndexSize, scan_counts};
ghost use Rattle.gdb_scan.specs.Cause.{IsRefusedFor, IsOnlyMemory};
ghost use Rattle.gdb_scan.specs.declared.error.GdbError.{GdbError as GdbError_spec};
ghost use Rattle.gdb_scan.specs.declared.error.GdbError.TheVariants.{NoMemory};
ghost use Rattle.gdb_tables.specs.Files.{all_parsed, file_bytes, ArePlacedIn};
ghost use Rattle.gdb_tables.specs.Index.{IsIndexOf, AreRelocated, IsBuildCause};
ghost use Rattle.gdb_tables.specs.Sized.{SizesIndex, IsIndexable};
ghost use Rattle.gdb_tables.specs.steps.Keyed.{all_keyed};

use crate::addresses::build_address_entries;
use crate::sizing::compute_gdb_index_size;
use elf_view::AnyFile;
use gdb_index::{ByName, GdbIndexScanResult, sort_by_name, write_gdb_index};
use gdb_index_format::{AddressEntry, CuBoundary, IndexVersion, NameWords, Placement};
use gdb_scan::GdbError;
use std::alloc::{AllocError, Global};

/// The index of some objects.
#[derive(Debug, Drop)]
pub struct IndexTables<'a> {
    /// The units of all objects, in input order. Each offset, in bytes, is the sum of the lengths before it.
    pub units: Vec<CuBoundary>,
    /// The published names in ascending byte order, each with its CU vector.
    pub names: Vec<NameWords<'a>>,
    /// The bytes of `.gdb_index`: none without a unit.
    pub index: Vec<u8>,
}

/// Returns names to be sorted, with their CU vectors.
fn keyed_names<'a>(
    alloc: Global,
    names: Vec<NameWords<'a>>,
) -> Result<Vec<ByName<'a, Vec<u32>>>, AllocError>
    ensures { IfOk result (λ v. all_keyed v.items ≡ all_named names.entry.items) }
{
    let mut keyed = Vec::with_capacity(alloc, names.len())?;
    for named in names {
        keyed.push(ByName::new(named.name, named.words))?;
    }
    Ok(keyed)
}

/// Returns sorted names with their CU vectors.
fn plain_names<'a>(
    alloc: Global,
    keyed: Vec<ByName<'a, Vec<u32>>>,
) -> Result<Vec<NameWords<'a>>, AllocError>
    ensures { IfOk result (λ v. all_named v.items ≡ all_keyed keyed.entry.items) }
{
    let mut names = Vec::with_capacity(alloc, keyed.len())?;
    for named in keyed {
        names.push(NameWords {
            name: named.name,
            words: named.item,
        })?;
    }
    Ok(names)
}

/// Sorts names by their bytes.
fn sorted_names<'a>(
    alloc: Global,
    names: Vec<NameWords<'a>>,
) -> Result<Vec<NameWords<'a>>, AllocError>
    ensures sorted { IfOk result (λ v. IsSortedByKey (λ n. n.name.now) (slice_cmp nat_cmp) v.items) }
    ensures same { IfOk result (λ v. IsPermutation (all_named names.entry.items) (all_named v.items)) }
{
    let mut keyed = keyed_names(alloc, names)?;
    sort_by_name(&mut keyed);
    let names = plain_names(alloc, keyed)?;
    Ok(names)
}

/// Returns the bytes of the index of a scan in a version, of this size.
fn index_bytes(
    alloc: Global,
    size: u32,
    scan: &GdbIndexScanResult<'_>,
    addresses: &[AddressEntry],
    version: IndexVersion,
) -> Result<Vec<u8>, AllocError>
    requires room { IsIndexSize (version_number version) (scan_counts scan.now) size }
    requires some { 1 ≤ size }
    requires addresses { length addresses.now ≤ scan.now.placed }
    ensures size { IfOk result (λ v. length v.items ≡ size) }
    ensures layout { IfOk result (λ v. IsLayoutOf (version_number version) scan.now addresses.now v.items) }
    ensures units { IfOk result (λ v. index_units v.items ≡ scan.now.units) }
    ensures steps { IfOk result (λ v. HasFewSteps v.items (names_in scan.now.names)) }
    ensures published { IfOk result (λ v. (ps : List Pair) → AreNamesOf ps scan.now.names → AnswersAll v.items ps) }
{
    let mut index = vec![in alloc; 0u8; size as usize]?;
    write_gdb_index(&mut index, scan, addresses, version);
    Ok(index)
}

/// Returns the index of a scan, of this size.
fn written<'a>(
    alloc: Global,
    size: u32,
    scan: GdbIndexScanResult<'a>,
    addresses: &[AddressEntry],
    version: IndexVersion,
) -> Result<IndexTables<'a>, AllocError>
    requires room { IsIndexSize (version_number version) (scan_counts scan) size }
    requires some { 1 ≤ size }
    requires addresses { length addresses.now ≤ scan.placed }
    ensures size { IfOk result (λ t. length t.index.items ≡ size) }
    ensures layout { IfOk result (λ t. IsLayoutOf (version_number version) scan.entry addresses.now t.index.items) }
    ensures listed { IfOk result (λ t. index_units t.index.items ≡ scan.entry.units) }
    ensures steps { IfOk result (λ t. HasFewSteps t.index.items (names_in scan.entry.names)) }
    ensures published { IfOk result (λ t. (ps : List Pair) → AreNamesOf ps scan.entry.names → AnswersAll t.index.items ps) }
    ensures units { IfOk result (λ t. t.units.items ≡ scan.entry.units) }
    ensures names { IfOk result (λ t. IsPermutation scan.entry.names (all_named t.names.items)) }
    ensures sorted { IfOk result (λ t. IsSortedByKey (λ n. n.name.now) (slice_cmp nat_cmp) t.names.items) }
{
    let index = index_bytes(alloc, size, &scan, addresses, version)?;
    let (units, names) = scan.into_parts();
    let names = sorted_names(alloc, names)?;
    Ok(IndexTables {
        units,
        names,
        index,
    })
}

/// Builds the index of the objects whose scan this is, of this size.
fn tables_of_scan<'a>(
    alloc: Global,
    files: &[AnyFile<'a>],
    placements: &[Placement],
    size: u32,
    scan: GdbIndexScanResult<'a>,
    version: IndexVersion,
) -> Result<IndexTables<'a>, GdbError>
    requires few { length files.now < 2 ^ 24 }
    requires small { All (λ file. length file.bytes < 2 ^ 39) (all_parsed files.now) }
    requires placements { ArePlacedIn (file_bytes (all_parsed files.now)) placements.now }
    requires sized { SizesIndex (version_number version) (file_bytes (all_parsed files.now)) placements.now size (Some scan) }
    requires room { IsIndexSize (version_number version) (scan_counts scan) size }
    requires indexable { IsIndexable (version_number version) (file_bytes (all_parsed files.now)) placements.now }
    ensures index { IfOk result (λ t. IsIndexOf (version_number version) (all_parsed files.now) placements.now t.units.items t.names.items t.index.items) }
    ensures relocated { OnOk result (AreRelocated (all_parsed files.now)) }
    ensures cause { IfErr result (IsBuildCause (version_number version) (all_parsed files.now) placements.now) }
{
    let addresses = match build_address_entries(alloc, files, &scan, placements) {
        Ok(addresses) => addresses,
        Err(error) => return Err(error),
    };
    match written(alloc, size, scan, &addresses, version) {
        Ok(tables) => Ok(tables),
        Err(_) => Err(GdbError::NoMemory),
    }
}

/// Builds the index of all objects in a version. Without a unit it has no bytes.
///
/// The errors, in this order: those of `compute_gdb_index_size`; `BadElf`, as `build_address_entries` returns it.
/// `NoMemory` may come for any objects, and is the only error for objects whose index has a size of at most
/// 4,294,967,295 bytes and whose relocations are read.
///
/// Requires fewer than 2^24 files, each of fewer than 2^39 bytes, and placements that ascend by object and section, name
/// objects and sections that exist, and whose ends fit 64 bits.
pub fn build_index<'a>(
    alloc: Global,
    files: &[AnyFile<'a>],
    placements: &[Placement],
    version: IndexVersion,
) -> Result<IndexTables<'a>, GdbError>
    requires few { length files.now < 2 ^ 24 }
    requires small { All (λ file. length file.bytes < 2 ^ 39) (all_parsed files.now) }
    requires placements { ArePlacedIn (file_bytes (all_parsed files.now)) placements.now }
    ensures index { IfOk result (λ t. IsIndexOf (version_number version) (all_parsed files.now) placements.now t.units.items t.names.items t.index.items) }
    ensures indexable { OnOk result (IsIndexable (version_number version) (file_bytes (all_parsed files.now)) placements.now) }
    ensures relocated { OnOk result (AreRelocated (all_parsed files.now)) }
    ensures cause { IfErr result (IsBuildCause (version_number version) (all_parsed files.now) placements.now) }
    ensures exact { (e : GdbError_spec) → IsBuildCause (version_number version) (all_parsed files.now) placements.now e → e ≢ NoMemory → IsRefusedFor result e }
    ensures complete { IsIndexable (version_number version) (file_bytes (all_parsed files.now)) placements.now → AreRelocated (all_parsed files.now) → IfErr result IsOnlyMemory }
{
    match compute_gdb_index_size(alloc, files, placements, version) {
        Ok((size, Some(scan))) => {
            match tables_of_scan(alloc, files, placements, size, scan, version) {
                Ok(tables) => Ok(tables),
                Err(error) => Err(error),
            }
        }
        Ok((_, None)) => Ok(IndexTables {
            units: Vec::new(alloc),
            names: Vec::new(alloc),
            index: Vec::new(alloc),
        }),
        Err(error) => Err(error),
    }
}
