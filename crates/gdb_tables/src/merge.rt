//! The merge of all objects' scans: the units of all objects get their numbers, and the names of all objects
//! their CU vectors.

ghost use Rattle.std.specs.Prelude.{◌≡◌, List, ◌+◌, ◌*◌, ◌^◌, ◌<◌, ◌≤◌, ◌++◌, length, OnOk, IfOk, IfErr};
ghost use Rattle.std.specs.List.{AllByRecursion};
ghost use Rattle.gdb_index_format.specs.Named.{all_named, ListsPublished};
ghost use Rattle.gdb_index_format.specs.Published.{Object, published, end_to_end};
ghost use Rattle.gdb_index_format.specs.Units.{total_length};
ghost use Rattle.gdb_scan.specs.Buckets.{in_buckets};
ghost use Rattle.gdb_scan.specs.Groups.{groups};
ghost use Rattle.gdb_scan.specs.Scan.{units_in_scan, placed_in_scan, HasSoundNames};
ghost use Rattle.gdb_tables.specs.Scans.{unit_counts, unit_total, units_in_scans, placed_total, words_from, AreScansOf};
ghost use Rattle.gdb_index.specs.Hashed.{hashes_of};
ghost use Rattle.gdb_index.specs.Scan.{HaveSmallWords};
ghost use Rattle.gdb_tables.specs.Merged.{AreSorted, IsMergeOf, IsMergeCause};

use crate::buckets::distributed;
use crate::vectors::add_bucket;
use gdb_index::GdbIndexScanResult;
use gdb_index_format::{CuBoundary, NameWords};
use gdb_scan::{GdbError, PerObjectScan};
use std::alloc::{AllocError, Global};

/// Returns the units of an object, none where it has no scan.
pub(crate) fn units_of<'s>(scan: &'s Option<PerObjectScan<'_>>) -> &'s [CuBoundary]
    ensures units { result.now ≡ units_in_scan scan.now }
    ensures counted { 4 * length result.now ≤ total_length result.now }
    ensures small { total_length result.now < 2 ^ 39 }
    ensures sound { HasSoundNames scan.now }
{
    match scan {
        Some(scan) => scan.units(),
        None => &[],
    }
}

/// Returns how many sections of an object are placed, 0 where it has no scan.
fn placed_of(scan: &Option<PerObjectScan<'_>>) -> usize
    ensures placed { result ≡ placed_in_scan scan.now }
    ensures small { result < 2 ^ 39 }
{
    match scan {
        Some(scan) => scan.placed(),
        None => 0,
    }
}

/// Returns how many units all objects have.
fn count_units(scans: &[Option<PerObjectScan<'_>>]) -> u64
    requires { length scans.now < 2 ^ 24 }
    ensures total { result ≡ unit_total scans.now }
    ensures sound { AllByRecursion HasSoundNames scans.now }
{
    let mut count = 0;
    for scan in scans {
        count += units_of(scan).len() as u64;
    }
    count
}

/// Returns how many sections of all objects are placed.
fn count_placed(scans: &[Option<PerObjectScan<'_>>]) -> usize
    requires { length scans.now < 2 ^ 24 }
    ensures { result ≡ placed_total scans.now }
{
    let mut count = 0;
    for scan in scans {
        count += placed_of(scan);
    }
    count
}

/// Returns how many units each object has, in input order.
fn list_unit_counts(
    alloc: Global,
    scans: &[Option<PerObjectScan<'_>>],
) -> Result<Vec<u32>, AllocError>
    requires { unit_total scans.now ≤ 2 ^ 24 }
    ensures { IfOk result (λ counts. counts.items ≡ unit_counts scans.now) }
{
    let mut counts = Vec::with_capacity(alloc, scans.len())?;
    for scan in scans {
        counts.push(units_of(scan).len() as u32)?;
    }
    Ok(counts)
}

/// Adds an object's units from an offset on, and returns where they end.
fn add_units(units: &mut Vec<CuBoundary>, at: u64, list: &[CuBoundary]) -> Result<u64, AllocError>
    requires { at + total_length list.now < 2 ^ 64 }
    ensures units { OnOk result (units.new.items ≡ units.old.items ++ end_to_end at list.now) }
    ensures end { IfOk result (λ end. end ≡ at + total_length list.now) }
{
    let mut end = at;
    for unit in list {
        units.push(CuBoundary {
            offset: end,
            length: unit.length,
        })?;
        end += unit.length;
    }
    Ok(end)
}

/// Returns the units of all objects, one after another. `count` is their number.
fn placed_units(
    alloc: Global,
    scans: &[Option<PerObjectScan<'_>>],
    count: usize,
) -> Result<Vec<CuBoundary>, AllocError>
    requires { length scans.now < 2 ^ 24 }
    ensures { IfOk result (λ units. units.items ≡ end_to_end 0 (units_in_scans scans.now)) }
{
    let mut units = Vec::with_capacity(alloc, count)?;
    let mut end = 0;
    for scan in scans {
        end = add_units(&mut units, end, units_of(scan))?;
    }
    Ok(units)
}

/// Returns all names in pool order: in ascending order of bucket, and within one bucket in the order of first publication.
/// Returns their hashes beside them.
fn pool_names<'a>(
    alloc: Global,
    scans: Vec<Option<PerObjectScan<'a>>>,
) -> Result<(Vec<NameWords<'a>>, Vec<u32>), AllocError>
    requires { unit_total scans.items ≤ 2 ^ 24 }
    ensures sorted { IfOk result (λ r. AreSorted (in_buckets (groups (words_from 0 scans.entry.items))) (all_named r.0.items)) }
    ensures fit { IfOk result (λ r. HaveSmallWords (all_named r.0.items)) }
    ensures hashed { IfOk result (λ r. r.1.items ≡ hashes_of (all_named r.0.items)) }
{
    let mut list = Vec::new(alloc);
    let mut hashes = Vec::new(alloc);
    for elements in distributed(alloc, scans)? {
        add_bucket(alloc, &mut list, &mut hashes, &elements)?;
    }
    Ok((list, hashes))
}

/// The most units that the elements of a CU vector can number.
const MAX_UNITS: u64 = 1 << 24;

/// Merges the scans of all objects, one scan per object, in input order. Returns all units, each with an offset that sums
/// the lengths of all units before it; the names in pool order, which is ascending order of bucket and within one bucket
/// the order of first publication, each with its CU vector in ascending order; and how many sections are placed. An
/// object without a scan has no unit.
///
/// `TooManyUnits`, with the number of all units, comes exactly where there are more than 16,777,216 of them;
/// `NoMemory` may come at any scans. Requires fewer than 2^24 scans.
pub fn merge_gdb_index_scans<'a>(
    alloc: Global,
    scans: Vec<Option<PerObjectScan<'a>>>,
) -> Result<GdbIndexScanResult<'a>, GdbError>
    requires { length scans.items < 2 ^ 24 }
    ensures merged { IfOk result (IsMergeOf scans.entry.items) }
    ensures objects { IfOk result (λ merged. (os : List Object) → AreScansOf os scans.entry.items → ListsPublished (published os) merged.names) }
    ensures cause { IfErr result (IsMergeCause scans.entry.items) }
{
    let all = scans.as_slice();
    let count = count_units(all);
    if count > MAX_UNITS {
        return Err(GdbError::TooManyUnits(count));
    }
    let units = placed_units(alloc, all, count as usize)?;
    let counts = list_unit_counts(alloc, all)?;
    let placed = count_placed(all);
    let (names, hashes) = pool_names(alloc, scans)?;
    Ok(GdbIndexScanResult::new(units, names, hashes, placed, counts))
}
