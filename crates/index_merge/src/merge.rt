//! Merges two indexes (GDB manual, "Index Section Format").

ghost use Rattle.std.specs.Prelude.{◌≡◌, ◌≢◌, ◌≤◌, ◌^◌, None, length, position, OnOk, IfOk, IfErr};
ghost use Rattle.gdb_index_format.specs.Units.{index_units};
ghost use Rattle.gdb_index_format.specs.Version.{version_number};
ghost use Rattle.gdb_index.specs.Answers.{AnswersFor};
ghost use Rattle.gdb_index.specs.Layout.{IsLayoutOf};
ghost use Rattle.gdb_index.specs.Size.{IsIndexSize, scan_counts};
ghost use Rattle.index_browser.specs.Areas.{unit_count};
ghost use Rattle.index_merge.specs.Cause.{IsIndexMergeCause, IsUnmergedFor, IsMergeMemory};
ghost use Rattle.index_merge.specs.declared.error.MergeError.{MergeError as MergeError_spec};
ghost use Rattle.index_merge.specs.declared.error.MergeError.TheVariants.{NoMemory};
ghost use Rattle.index_merge.specs.Merged.{units_in_all, addresses_of_both, is_too_far, IsMergedIndex, IsMergeable};
ghost use Rattle.index_merge.specs.steps.Merging.{IsScanOfBoth};

use crate::addresses::joined_addresses;
use crate::error::MergeError;
use crate::laws::merged_sizes_are_one;
use crate::names::joined_names;
use crate::units::{count_units, first_too_far, joined_units};
use gdb_index::{GdbIndexScanResult, IndexTooLarge, checked_index_size, write_gdb_index};
use gdb_index_format::{AddressEntry, IndexVersion};
use index_browser::{
    CheckedIndex, checked_is_well_formed, layout_is_checked, layout_lists_addresses,
};
use std::alloc::{AllocError, Global};

/// The most units that the elements of a CU vector can number.
const MAX_UNITS: u64 = 1 << 24;

/// Returns what the merged index is written from, where so many address entries are placed, and so many units stand before
/// those of the second.
fn joined_scan<'a>(
    alloc: Global,
    first: &CheckedIndex<'a>,
    second: &CheckedIndex<'a>,
    offset: u64,
    units: u32,
    placed: usize,
) -> Result<GdbIndexScanResult<'a>, AllocError>
    requires near { position (is_too_far offset) (index_units second.now) ≡ None }
    requires few { units_in_all first.now second.now ≤ 2 ^ 24 }
    requires units { units ≡ unit_count first.now }
    requires placed { placed ≡ length (addresses_of_both first.now second.now) }
    ensures { IfOk result (IsScanOfBoth first.now second.now offset) }
{
    checked_is_well_formed();
    let _first = first.bytes();
    let _second = second.bytes();
    let all_units = joined_units(alloc, first, second, offset)?;
    let names = joined_names(alloc, first, second, units)?;
    let scan = GdbIndexScanResult::from_parts(alloc, all_units, names, placed)?;
    Ok(scan)
}

/// Returns the bytes of the index of a scan result, of this size.
fn written(
    alloc: Global,
    size: u32,
    scan: &GdbIndexScanResult<'_>,
    addresses: &[AddressEntry],
    version: IndexVersion,
) -> Result<Vec<u8>, AllocError>
    requires room { IsIndexSize (version_number version) (scan_counts scan.now) size }
    requires some { 1 ≤ size }
    requires addresses { length addresses.now ≤ scan.now.placed }
    ensures size { IfOk result (λ v. length v.items ≡ size) }
    ensures layout { IfOk result (λ v. IsLayoutOf (version_number version) scan.now addresses.now v.items) }
    ensures units { IfOk result (λ v. index_units v.items ≡ scan.now.units) }
    ensures answers { IfOk result (λ v. AnswersFor v.items scan.now.names) }
{
    let mut index = vec![in alloc; 0u8; size as usize]?;
    write_gdb_index(&mut index, scan, addresses, version);
    Ok(index)
}

/// Returns the merged index, where no unit of the second is moved too far and there are few enough units.
fn merged_bytes(
    alloc: Global,
    first: &CheckedIndex<'_>,
    second: &CheckedIndex<'_>,
    offset: u64,
    version: IndexVersion,
) -> Result<Vec<u8>, MergeError>
    requires near { position (is_too_far offset) (index_units second.now) ≡ None }
    requires few { units_in_all first.now second.now ≤ 2 ^ 24 }
    ensures merged { IfOk result (λ v. IsMergedIndex version first.now second.now offset v.items) }
    ensures mergeable { OnOk result (IsMergeable (version_number version) first.now second.now offset) }
    ensures cause { IfErr result (IsIndexMergeCause (version_number version) first.now second.now offset) }
{
    checked_is_well_formed();
    layout_is_checked();
    layout_lists_addresses();
    let _first = first.bytes();
    let _second = second.bytes();
    let units = first.unit_count() as u32;
    let addresses = match joined_addresses(alloc, first, second, units) {
        Ok(addresses) => addresses,
        Err(_) => return Err(MergeError::NoMemory),
    };
    let scan = match joined_scan(alloc, first, second, offset, units, addresses.len()) {
        Ok(scan) => scan,
        Err(_) => return Err(MergeError::NoMemory),
    };
    let counts = scan.counts();
    match checked_index_size(&counts, version) {
        Ok(0) => Ok(Vec::new(alloc)),
        Ok(size) => match written(alloc, size, &scan, &addresses, version) {
            Ok(index) => Ok(index),
            Err(_) => Err(MergeError::NoMemory),
        },
        Err(IndexTooLarge(size)) => Err(MergeError::IndexTooLarge(size)),
    }
}

/// Merges two indexes in one of a version, as if the units of the second stood `offset` bytes further on and followed those
/// of the first. The merged index lists the units of the first, then those of the second with `offset` added, and likewise
/// the address entries of both. It holds the names of both, each once; the elements of its CU vector ascend, those of the
/// second with their CU index counted on from the number of units of the first. Without a unit it has no bytes. It can be
/// browsed.
///
/// The errors, in this order: `OffsetTooLarge` exactly where an offset of the second needs more than 64 bits; `TooManyUnits`
/// exactly where both have more than 16,777,216 units; `IndexTooLarge`, with the size, where that is above 4,294,967,295,
/// and only there. `NoMemory` may come for any two indexes, and is the only error of two that can be merged.
pub fn merge_indexes<'a>(
    alloc: Global,
    first: &CheckedIndex<'a>,
    second: &CheckedIndex<'a>,
    offset: u64,
    version: IndexVersion,
) -> Result<Vec<u8>, MergeError>
    ensures merged { IfOk result (λ v. IsMergedIndex version first.now second.now offset v.items) }
    ensures mergeable { OnOk result (IsMergeable (version_number version) first.now second.now offset) }
    ensures cause { IfErr result (IsIndexMergeCause (version_number version) first.now second.now offset) }
    ensures exact { (e : MergeError_spec) → IsIndexMergeCause (version_number version) first.now second.now offset e → e ≢ NoMemory → IsUnmergedFor result e }
    ensures complete { IsMergeable (version_number version) first.now second.now offset → IfErr result IsMergeMemory }
{
    merged_sizes_are_one();
    if let Some(unit) = first_too_far(second, offset) {
        return Err(MergeError::OffsetTooLarge(unit));
    }
    let units = count_units(first, second);
    if units > MAX_UNITS {
        return Err(MergeError::TooManyUnits(units));
    }
    match merged_bytes(alloc, first, second, offset, version) {
        Ok(index) => Ok(index),
        Err(error) => Err(error),
    }
}
