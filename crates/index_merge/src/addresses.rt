//! The address entries of two indexes (GDB manual, "Index Section Format": the address area).

ghost use Rattle.std.specs.Prelude.{◌≡◌, ◌+◌, ◌<◌, ◌≤◌, ◌^◌, ◌++◌, Some, length, map, slice_get, OnOk, IfOk};
ghost use Rattle.std.specs.List.{All};
ghost use Rattle.index_browser.specs.Areas.{index_addresses, unit_count, AreAddresses};
ghost use Rattle.index_merge.specs.Merged.{moved_address, addresses_of_both, units_in_all};

use gdb_index_format::AddressEntry;
use index_browser::{CheckedIndex, checked_is_well_formed};
use std::alloc::{AllocError, Global};

/// Returns the address entry of a number from 0.
fn address_at(index: &CheckedIndex<'_>, number: usize) -> AddressEntry
    requires { number < length (index_addresses index.now) }
    ensures entry { slice_get (index_addresses index.now) number ≡ Some result }
    ensures fits { (result.low < 2 ^ 64) × (result.high < 2 ^ 64) }
{
    match index.address(number) {
        Some(entry) => entry,
        None => unreachable!(),
    }
}

/// Pushes the address entries of an index, where so many units stand before its own.
fn push_addresses(
    entries: &mut Vec<AddressEntry>,
    index: &CheckedIndex<'_>,
    units: u32,
) -> Result<(), AllocError>
    requires { All (λ a. a.unit + units < 2 ^ 32) (index_addresses index.now) }
    ensures entries { OnOk result (entries.new.items ≡ entries.old.items ++ map (moved_address units) (index_addresses index.now)) }
    ensures fit { OnOk result (AreAddresses entries.old.items → AreAddresses entries.new.items) }
{
    for number in 0..index.address_count() {
        let entry = address_at(index, number);
        entries.push(AddressEntry {
            low: entry.low,
            high: entry.high,
            unit: entry.unit + units,
        })?;
    }
    Ok(())
}

/// Returns the address entries of the first index, and those of the second after the units of the first.
pub(crate) fn joined_addresses(
    alloc: Global,
    first: &CheckedIndex<'_>,
    second: &CheckedIndex<'_>,
    units: u32,
) -> Result<Vec<AddressEntry>, AllocError>
    requires few { units_in_all first.now second.now ≤ 2 ^ 24 }
    requires units { units ≡ unit_count first.now }
    ensures entries { IfOk result (λ v. v.items ≡ addresses_of_both first.now second.now) }
    ensures fit { IfOk result (λ v. AreAddresses v.items) }
{
    checked_is_well_formed();
    let _first = first.bytes();
    let _second = second.bytes();
    let mut entries = Vec::with_capacity(alloc, first.address_count() + second.address_count())?;
    push_addresses(&mut entries, first, 0)?;
    push_addresses(&mut entries, second, units)?;
    Ok(entries)
}
