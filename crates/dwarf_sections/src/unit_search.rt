//! The compilation unit (CU) of an offset in `.debug_info`, by binary search: units are in the order of their offsets.

ghost use Rattle.std.specs.Prelude.{◌≡◌, ◌+◌, ◌-◌, ◌<◌, ◌≤◌, ◌^◌, length};
ghost use Rattle.gdb_index_format.specs.Units.{unit_holding};
ghost use Rattle.dwarf_sections.specs.UnitSearch.{Ascend, AreAdjacent, unit_at};

use gdb_index_format::CuBoundary;

/// Returns the index, from 0, of the unit that holds an offset, in bytes from the start of `.debug_info`. None where no
/// unit holds it.
///
/// Requires fewer than 2^32 units, each of which begins where the one before ends; the ends fit 64 bits.
pub fn cu_index_for_offset(units: &[CuBoundary], offset: u64) -> Option<u32>
    requires few { length units.now < 2 ^ 32 }
    requires adjacent { AreAdjacent units.now }
    ensures { result ≡ unit_holding units.now offset }
{
    let after = units.partition_point(|unit| unit.offset <= offset);
    if after == 0 {
        return None;
    }
    let unit = units[after - 1];
    if offset - unit.offset < unit.length {
        return Some((after - 1) as u32);
    }
    None
}

/// Returns the index, from 0, of the unit that begins at an offset, in bytes from the start of `.debug_info`. None where
/// no unit does.
///
/// Requires that the units' offsets ascend.
pub fn unit_with_offset(units: &[CuBoundary], offset: u64) -> Option<usize>
    requires { Ascend units.now }
    ensures { result ≡ unit_at units.now offset }
{
    units.binary_search_by_key(&offset, |unit| unit.offset).ok()
}
