//! The tests of an index, in their order, and the first that fails.

ghost use Rattle.std.specs.Prelude.{◌≡◌, ◌<◌, ◌^◌, not, nat_lt, position, IfOk};
ghost use Rattle.std.specs.List.{list_all};
ghost use Rattle.std.specs.Option.{option_and_then, option_or, option_copied};
ghost use Rattle.std.specs.Result.{result_err};
ghost use Rattle.gdb_index_format.specs.Probe.{vector_at};
ghost use Rattle.gdb_index.specs.Parts.{ArePartsOf};
ghost use Rattle.index_browser.specs.Areas.{index_addresses, unit_count};
ghost use Rattle.index_browser.specs.Stored.{stored_in};
ghost use Rattle.index_browser.specs.Fault as spec;
ghost use Rattle.index_browser.specs.steps.Offsets.{HasFormat, AreAreasOf};
ghost use Rattle.index_browser.specs.steps.Listing.{name_in};
ghost use Rattle.index_browser.specs.steps.Placing.{misplaced_fault_at, table_fault as table_fault_spec, parts_fault as parts_fault_spec};

use crate::areas::{Areas, areas_of, count_addresses, count_units, read_address};
use crate::error::BrowseError;
use crate::slots::{ends_at, taken_at};
use gdb_index::{CuVector, Parts, is_short, name_from, parts_of, vector_from};

/// Returns the number of the first address entry whose unit the CU list does not have.
fn first_without_unit(index: &[u8], areas: &Areas, units: usize) -> Option<usize>
    requires format { HasFormat index.now }
    requires areas { AreAreasOf index.now areas.now }
    ensures { result ≡ position (λ a. not (nat_lt a.unit units)) (index_addresses index.now) }
{
    let count = count_addresses(index, areas);
    for number in 0..count {
        let entry = read_address(index, areas.addresses + 20 * number);
        if entry.unit as usize >= units {
            return Some(number);
        }
    }
    None
}

/// Tests the address area: whole entries, each of a unit that is listed.
#[tactic(auto, unfolding(crate::specs::Fault::area_fault, gdb_index_format::specs::Probe::table_at))]
fn area_fault(index: &[u8], areas: &Areas, units: usize) -> Option<BrowseError>
    requires format { HasFormat index.now }
    requires areas { AreAreasOf index.now areas.now }
    requires units { units ≡ unit_count index.now }
    ensures { result ≡ spec.area_fault index.now }
{
    let size = areas.end - areas.addresses;
    if size % 20 != 0 {
        return Some(BrowseError::AddressArea(size / 20));
    }
    first_without_unit(index, areas, units).map(BrowseError::AddressArea)
}

/// Reports whether an element of a CU vector keeps its reserved bits zero and names one of so many units.
fn is_element(element: u32, units: usize) -> bool
    ensures { result ≡ spec.is_element units element }
{
    element / 0x100_0000 % 16 == 0 && ((element % 0x100_0000) as usize) < units
}

/// Reports whether all elements of a CU vector are such.
fn are_elements(vector: &CuVector<'_>, units: usize) -> bool
    ensures { result ≡ list_all (spec.is_element units) vector.now }
{
    for number in 0..vector.len() {
        let element = vector.get(number).unwrap();
        if !is_element(element, units) {
            return false;
        }
    }
    true
}

/// Tests the CU vector at an offset, which is that of a slot.
fn vector_fault(index: &[u8], at: usize, units: usize, slot: usize) -> Option<BrowseError>
    requires { at < 2 ^ 33 }
    ensures { result ≡ spec.vector_fault units slot (vector_at index.now at) }
{
    let Ok(vector) = vector_from(index, at) else {
        return Some(BrowseError::VectorOutside(slot));
    };
    if vector.len() > 0 && are_elements(&vector, units) {
        None
    } else {
        Some(BrowseError::BadVector(slot))
    }
}

/// Tests the name and the CU vector of a slot, and returns the name, or None where the slot is free.
fn sound_name<'a>(
    index: &'a [u8],
    parts: &Parts,
    units: usize,
    slot: usize,
) -> Result<Option<&'a [u8]>, BrowseError>
    requires parts { ArePartsOf index.now parts.now }
    requires within { slot < parts.now.slots }
    ensures fault { result_err result ≡ option_and_then (spec.slot_fault units) (stored_in index.now slot) }
    ensures name { IfOk result (λ name. option_copied name ≡ name_in index.now slot) }
{
    let Some(taken) = taken_at(index, parts, slot) else {
        return Ok(None);
    };
    let Some(name) = name_from(index, taken.name) else {
        return Err(BrowseError::NameOutside(slot));
    };
    match vector_fault(index, taken.vector, units, slot) {
        Some(fault) => Err(fault),
        None => Ok(Some(name)),
    }
}

/// Tests whether the probe for the name of a slot ends there, unless an earlier slot failed this test.
fn misplaced_fault(
    earlier: Option<BrowseError>,
    index: &[u8],
    parts: &Parts,
    name: Option<&[u8]>,
    slot: usize,
) -> Option<BrowseError>
    requires format { HasFormat index.now }
    requires parts { ArePartsOf index.now parts.now }
    requires within { slot < parts.now.slots }
    requires named { option_copied name ≡ name_in index.now slot }
    ensures { result ≡ option_or earlier (option_and_then (misplaced_fault_at index.now) (stored_in index.now slot)) }
{
    if let Some(fault) = earlier {
        return Some(fault);
    }
    let Some(name) = name else {
        return None;
    };
    if ends_at(index, parts, name, slot) {
        None
    } else {
        Some(BrowseError::Misplaced(slot))
    }
}

/// Tests the symbol hash table: the names and the CU vectors of all slots, and last whether the probes for the names end there.
fn table_fault(index: &[u8], parts: &Parts, units: usize) -> Option<BrowseError>
    requires format { HasFormat index.now }
    requires parts { ArePartsOf index.now parts.now }
    requires units { units ≡ unit_count index.now }
    ensures { result ≡ table_fault_spec index.now }
{
    let mut misplaced = None;
    for slot in 0..parts.slots {
        match sound_name(index, parts, units, slot) {
            Ok(name) => misplaced = misplaced_fault(misplaced, index, parts, name, slot),
            Err(fault) => return Some(fault),
        }
    }
    misplaced
}

/// Tests the parts of an index in which probes can be made.
#[tactic(auto, unfolding(crate::specs::Fault::types_fault, crate::specs::Fault::units_fault))]
fn parts_fault(index: &[u8], parts: &Parts) -> Option<BrowseError>
    requires format { HasFormat index.now }
    requires parts { ArePartsOf index.now parts.now }
    ensures { result ≡ parts_fault_spec index.now }
{
    let areas = areas_of(index);
    if areas.types != areas.addresses {
        return Some(BrowseError::TypeUnits);
    }
    if (areas.types - areas.units) % 16 != 0 {
        return Some(BrowseError::UnitArea);
    }
    let units = count_units(index, &areas);
    match area_fault(index, &areas, units) {
        Some(fault) => Some(fault),
        None => table_fault(index, parts, units),
    }
}

/// Returns the first test that an index fails.
#[tactic(auto, unfolding(crate::specs::Fault::browse_fault, crate::specs::Fault::short_fault, crate::specs::Fault::format_fault))]
pub(crate) fn first_fault(index: &[u8]) -> Option<BrowseError>
    ensures { result ≡ spec.browse_fault index.now }
{
    if index.is_empty() {
        return None;
    }
    if is_short(index) {
        return Some(BrowseError::Short);
    }
    match parts_of(index) {
        Err(fault) => Some(BrowseError::Format(fault)),
        Ok(parts) => parts_fault(index, &parts),
    }
}
