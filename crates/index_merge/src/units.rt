//! The units of two indexes (GDB manual, "Index Section Format": the CU list).

ghost use Rattle.std.specs.Prelude.{◌≡◌, ◌+◌, ◌<◌, ◌≤◌, ◌^◌, ◌++◌, Some, None, length, map, position, slice_get, OnOk, IfOk};
ghost use Rattle.std.specs.List.{All};
ghost use Rattle.gdb_index_format.specs.Units.{index_units};
ghost use Rattle.index_browser.specs.Areas.{unit_count};
ghost use Rattle.index_merge.specs.Merged.{moved_unit, units_of_both, units_in_all, is_too_far as is_too_far_spec};
ghost use Rattle.index_merge.specs.steps.Merging.{IsNear};

use gdb_index_format::CuBoundary;
use index_browser::{CheckedIndex, checked_is_well_formed};
use std::alloc::{AllocError, Global};

/// Returns the unit of a number from 0.
fn unit_at(index: &CheckedIndex<'_>, number: usize) -> CuBoundary
    requires { number < unit_count index.now }
    ensures { slice_get (index_units index.now) number ≡ Some result }
{
    match index.unit(number) {
        Some(unit) => unit,
        None => unreachable!(),
    }
}

/// Reports whether the moved offset of a unit needs more than 64 bits.
fn is_too_far(unit: CuBoundary, offset: u64) -> bool
    ensures { result ≡ is_too_far_spec offset unit }
{
    unit.offset > u64::MAX - offset
}

/// Returns the first unit of an index whose moved offset needs more than 64 bits, by its number from 0.
pub(crate) fn first_too_far(index: &CheckedIndex<'_>, offset: u64) -> Option<usize>
    ensures { result ≡ position (is_too_far_spec offset) (index_units index.now) }
{
    for number in 0..index.unit_count() {
        if is_too_far(unit_at(index, number), offset) {
            return Some(number);
        }
    }
    None
}

/// Returns the number of units of two indexes.
pub(crate) fn count_units(first: &CheckedIndex<'_>, second: &CheckedIndex<'_>) -> u64
    ensures { result ≡ units_in_all first.now second.now }
{
    checked_is_well_formed();
    let _first = first.bytes();
    let _second = second.bytes();
    first.unit_count() as u64 + second.unit_count() as u64
}

/// Pushes the units of an index, each so many bytes further on.
fn push_units(
    units: &mut Vec<CuBoundary>,
    index: &CheckedIndex<'_>,
    offset: u64,
) -> Result<(), AllocError>
    requires { All (IsNear offset) (index_units index.now) }
    ensures { OnOk result (units.new.items ≡ units.old.items ++ map (moved_unit offset) (index_units index.now)) }
{
    for number in 0..index.unit_count() {
        let unit = unit_at(index, number);
        units.push(CuBoundary {
            offset: unit.offset + offset,
            length: unit.length,
        })?;
    }
    Ok(())
}

/// Returns the units of the first index, and those of the second so many bytes further on.
pub(crate) fn joined_units(
    alloc: Global,
    first: &CheckedIndex<'_>,
    second: &CheckedIndex<'_>,
    offset: u64,
) -> Result<Vec<CuBoundary>, AllocError>
    requires near { position (is_too_far_spec offset) (index_units second.now) ≡ None }
    requires few { units_in_all first.now second.now ≤ 2 ^ 24 }
    ensures { IfOk result (λ v. v.items ≡ units_of_both first.now second.now offset) }
{
    let mut units = Vec::with_capacity(alloc, first.unit_count() + second.unit_count())?;
    push_units(&mut units, first, 0)?;
    push_units(&mut units, second, offset)?;
    Ok(units)
}
