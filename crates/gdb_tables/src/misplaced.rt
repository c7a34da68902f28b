//! The order of placements: those that an index is made from ascend by object and section, name objects and
//! sections that are there, and their ends fit 64 bits.

ghost use Rattle.std.specs.Prelude.{◌≡◌, ℕ, List, None, slice_get};
ghost use Rattle.gdb_index_format.specs.declared.placement.Placement.{Placement as Placement_spec};
ghost use Rattle.gdb_tables.specs.Files.{all_parsed, file_bytes, ArePlacedIn};
ghost use Rattle.gdb_tables.specs.Misplaced.{follows, is_there, is_well_placed, misplaced};

use elf_view::AnyFile;
use gdb_index_format::Placement;

/// Reports whether a placement follows the one before it, by object and then by section.
fn follows(before: Option<Placement>, placement: &Placement) -> bool
    ensures { result ≡ Rattle.gdb_tables.specs.Misplaced.follows before placement.now }
{
    match before {
        Some(before) => before.object < placement.object
            || before.object == placement.object && before.section < placement.section,
        None => true,
    }
}

/// Reports whether the section of a placement exists.
fn is_there(files: &[AnyFile<'_>], placement: &Placement) -> bool
    ensures { result ≡ Rattle.gdb_tables.specs.Misplaced.is_there (slice_get (file_bytes (all_parsed files.now)) placement.now.object) placement.now.section }
{
    match files.get(placement.object) {
        Some(file) => placement.section < file.num_sections(),
        None => false,
    }
}

/// Reports whether a placement may follow the one before it.
fn is_well_placed(files: &[AnyFile<'_>], before: Option<Placement>, placement: &Placement) -> bool
    ensures { result ≡ Rattle.gdb_tables.specs.Misplaced.is_well_placed (file_bytes (all_parsed files.now)) (before, placement.now) }
{
    follows(before, placement)
        && is_there(files, placement)
        && placement.address.checked_add(placement.size).is_some()
}

/// Returns the first placement, by its index from 0, that is not as an index requires: it is not above the one before it,
/// by object and then by section, or its object or its section does not exist, or its end does not fit 64 bits. None
/// where all are.
pub fn first_misplaced(files: &[AnyFile<'_>], placements: &[Placement]) -> Option<usize>
    ensures first { result ≡ misplaced (file_bytes (all_parsed files.now)) placements.now }
    ensures none { result ≡ None → ArePlacedIn (file_bytes (all_parsed files.now)) placements.now }
{
    let mut before = None;
    for (index, placement) in placements.iter().enumerate() {
        if !is_well_placed(files, before, placement) {
            return Some(index);
        }
        before = Some(*placement);
    }
    None
}

/// Placements in their order, of sections that are there and with ends that fit, have none that is misplaced.
pub fn placed_are_not_misplaced()
    ensures { (files : List (List ℕ)) (ps : List Placement_spec) → ArePlacedIn files ps → misplaced files ps ≡ None }
{}
