//! Units whose offsets ascend, so that the unit of an offset is found by binary search.

ghost use Rattle.std.specs.Prelude.{◌≡◌};
ghost use Rattle.dwarf_sections.specs.UnitSearch.{Ascend};

use gdb_index_format::CuBoundary;

/// Units whose offsets ascend.
#[derive(Clone, Copy)]
pub(crate) struct AscendingUnits<'u> {
    pub(crate) units: &'u [CuBoundary],
    ghost ascend: { Ascend units.now },
}

/// Returns the units, with the fact that their offsets ascend.
pub(crate) fn ascending(units: &[CuBoundary]) -> AscendingUnits<'_>
    requires { Ascend units.now }
    ensures { result.units.now ≡ units.now }
{
    AscendingUnits { units }
}
