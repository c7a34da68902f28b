//! The names that one object publishes, in the order of the file.

ghost use Rattle.std.specs.Prelude.{◌≡◌, ◌++◌, List, OnOk};
ghost use Rattle.gdb_index_format.specs.Names.{NameSet, IsSetList};
ghost use Rattle.dwarf_sections.specs.Entries.{IsBad};
ghost use Rattle.dwarf_sections.specs.Sets.{set_in, sets_in};
ghost use Rattle.dwarf_sections.specs.UnitSearch.{Ascend};
ghost use Rattle.gdb_scan.specs.Marks.{all_marked, marks_in, marks_of};
ghost use Rattle.gdb_scan.specs.steps.Published.{PublishesSection};

use crate::mark::Publication;
use dwarf_sections::{PubnamesSet, SetError, parse_pubnames_sets, unit_with_offset};
use gdb_index::gdb_hash;
use gdb_index_format::CuBoundary;
use std::alloc::{AllocError, Global};

/// Publishes the names of a set, if one of the units begins at the set's offset.
fn publish_set<'a>(
    names: &mut Vec<Publication<'a>>,
    units: &[CuBoundary],
    set: &PubnamesSet<'a>,
) -> Result<(), AllocError>
    requires { Ascend units.now }
    ensures published { OnOk result (all_marked names.new.items ≡ all_marked names.old.items ++ marks_in units.now (set_in set.now)) }
{
    let Some(unit) = unit_with_offset(units, set.debug_info_offset) else {
        return Ok(());
    };
    names.reserve(set.entries.len())?;
    for entry in &set.entries {
        names.push(Publication {
            name: entry.0,
            unit,
            hash: gdb_hash(entry.0),
            flag: entry.1,
        })?;
    }
    Ok(())
}

/// Publishes the names of some sets.
fn publish_sets<'a>(
    names: &mut Vec<Publication<'a>>,
    units: &[CuBoundary],
    sets: &[PubnamesSet<'a>],
) -> Result<(), AllocError>
    requires { Ascend units.now }
    ensures published { OnOk result (all_marked names.new.items ≡ all_marked names.old.items ++ marks_of units.now (sets_in sets.now)) }
{
    for set in sets {
        publish_set(names, units, set)?;
    }
    Ok(())
}

/// Publishes the names of a pubnames section.
pub(crate) fn publish_section<'a>(
    names: &mut Vec<Publication<'a>>,
    alloc: Global,
    units: &[CuBoundary],
    bytes: &'a [u8],
) -> Result<(), SetError>
    requires { Ascend units.now }
    ensures published { OnOk result (PublishesSection bytes.entry.now units.now (all_marked names.old.items) (all_marked names.new.items)) }
    ensures bad { IsBad result ((sets : List NameSet) → IsSetList bytes.entry.now sets → ⊥) }
{
    let sets = parse_pubnames_sets(alloc, bytes)?;
    publish_sets(names, units, &sets)?;
    Ok(())
}
