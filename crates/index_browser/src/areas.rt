//! The CU list and the address area of an index (GDB manual, "Index Section Format").

ghost use Rattle.std.specs.Prelude.{◌≡◌, ◌+◌, ◌≤◌, ◌<◌, ◌^◌, length, slice_get};
ghost use Rattle.elf_format.specs.Bytes.{u32_at, u64_at};
ghost use Rattle.gdb_index_format.specs.Units.{index_units};
ghost use Rattle.index_browser.specs.Areas.{index_addresses, unit_count};
ghost use Rattle.index_browser.specs.steps.Offsets.{HasFormat, AreAreasOf, unit_from, address_from};

use elf_words::{read_u32, read_u64};
use gdb_index_format::{AddressEntry, CuBoundary};

/// The offsets of the areas of an index that are lists, in bytes.
#[derive(Clone, Copy, Debug)]
pub(crate) struct Areas {
    /// Where the CU list begins.
    pub units: usize,
    /// Where the CU list ends, and the types CU list begins.
    pub types: usize,
    /// Where the address area begins.
    pub addresses: usize,
    /// Where the address area ends.
    pub end: usize,
}

/// Reads the offsets of the areas.
pub(crate) fn areas_of(index: &[u8]) -> Areas
    requires { HasFormat index.now }
    ensures { AreAreasOf index.now result }
{
    let units = read_u32(index, 4) as usize;
    let types = read_u32(index, 8) as usize;
    let addresses = read_u32(index, 12) as usize;
    let end = read_u32(index, 16) as usize;
    Areas {
        units,
        types,
        addresses,
        end,
    }
}

fn read_unit(index: &[u8], at: usize) -> CuBoundary
    requires { at + 16 ≤ length index.now }
    ensures { result ≡ unit_from index.now at }
{
    CuBoundary {
        offset: read_u64(index, at),
        length: read_u64(index, at + 8),
    }
}

pub(crate) fn read_address(index: &[u8], at: usize) -> AddressEntry
    requires { at + 20 ≤ length index.now }
    ensures { result ≡ address_from index.now at }
{
    AddressEntry {
        low: read_u64(index, at),
        high: read_u64(index, at + 8),
        unit: read_u32(index, at + 16),
    }
}

/// Returns the number of units that an index lists.
pub(crate) fn count_units(index: &[u8], areas: &Areas) -> usize
    requires format { HasFormat index.now }
    requires areas { AreAreasOf index.now areas.now }
    ensures { result ≡ unit_count index.now }
{
    (areas.types - areas.units) / 16
}

/// Returns the unit of a number from 0, or None from the number of units on.
pub(crate) fn unit_of(index: &[u8], areas: &Areas, number: usize) -> Option<CuBoundary>
    requires format { HasFormat index.now }
    requires areas { AreAreasOf index.now areas.now }
    ensures { result ≡ slice_get (index_units index.now) number }
{
    if number >= count_units(index, areas) {
        return None;
    }
    let at = areas.units + 16 * number;
    Some(read_unit(index, at))
}

/// Returns the number of whole address entries.
pub(crate) fn count_addresses(index: &[u8], areas: &Areas) -> usize
    requires format { HasFormat index.now }
    requires areas { AreAreasOf index.now areas.now }
    ensures { result ≡ length (index_addresses index.now) }
{
    (areas.end - areas.addresses) / 20
}

/// Returns the address entry of a number from 0, or None from the number of entries on.
pub(crate) fn address_of(index: &[u8], areas: &Areas, number: usize) -> Option<AddressEntry>
    requires format { HasFormat index.now }
    requires areas { AreAreasOf index.now areas.now }
    ensures { result ≡ slice_get (index_addresses index.now) number }
{
    if number >= count_addresses(index, areas) {
        return None;
    }
    let at = areas.addresses + 20 * number;
    Some(read_address(index, at))
}
