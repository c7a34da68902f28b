//! The scan of one object: its compilation units (CUs), the names that it publishes, and how many of its placements
//! count.

ghost use Rattle.std.specs.Prelude.{◌≡◌, ◌≢◌, ℕ, ◌*◌, ◌^◌, ◌<◌, ◌≤◌, List, None, IfOk, IfErr, OnOk, option_copied, length};
ghost use Rattle.std.specs.Result.{result_ok};
ghost use Rattle.elf_format.specs.declared.error.ElfError.TheVariants.{SectionData};
ghost use Rattle.elf_format.specs.Section.{section_bytes, sections};
ghost use Rattle.gdb_index_format.specs.Published.{Object};
ghost use Rattle.gdb_index_format.specs.Objects.{IsUnitsOf, IsObjectOf, first_compressed};
ghost use Rattle.dwarf_sections.specs.UnitSearch.{Ascend};
ghost use Rattle.gdb_scan.specs.declared.error.GdbError.{GdbError as GdbError_spec};
ghost use Rattle.gdb_scan.specs.declared.error.GdbError.TheVariants.{BadElf, NoMemory};
ghost use Rattle.gdb_scan.specs.Cause.{IsUnitCause, IsSetsCause, IsNamesCause, IsScanCause, IsRefusedFor, IsOnlyMemory};
ghost use Rattle.gdb_scan.specs.steps.Gathered.{GathersNames};
ghost use Rattle.gdb_scan.specs.Marks.{all_marked};
ghost use Rattle.gdb_scan.specs.PlacedIn.{ArePlacements, NameSections};
ghost use Rattle.gdb_scan.specs.Scanned.{ScansObject};
ghost use Rattle.gdb_scan.specs.steps.Published.{PublishesSection};

use crate::ascending::{AscendingUnits, ascending};
use crate::debug_sections::{debug_info, first_compressed, is_pubnames_section};
use crate::error::{GdbError, of_names, of_units};
use crate::mark::Publication;
use crate::object_names::publish_section;
use crate::object_scan::PerObjectScan;
use crate::placed::{count_placed, placements_of};
use dwarf_sections::parse_cu_boundaries;
use elf_view::File;
use elf_words::{ElfClass, SectionIndex};
use gdb_index_format::{CuBoundary, Placement};
use std::alloc::Global;

/// Returns the units of an object.
pub fn read_units<C: ElfClass>(
    alloc: Global,
    object: usize,
    file: &File<'_, C>,
) -> Result<Vec<CuBoundary>, GdbError>
    ensures units { IfOk result (λ units. IsUnitsOf C.class file.now.bytes units.items) }
    ensures cause { IfErr result (IsUnitCause C.class object file.now.bytes) }
{
    let bytes = match debug_info(file) {
        Ok(bytes) => bytes,
        Err(error) => return Err(GdbError::BadElf(object, error)),
    };
    match parse_cu_boundaries(alloc, bytes) {
        Ok(units) => Ok(units),
        Err(error) => Err(of_units(object, error)),
    }
}

/// Returns the bytes of a pubnames section.
fn names_data<'a, C: ElfClass>(
    object: usize,
    file: &File<'a, C>,
    header: &C::SectionHeader,
) -> Result<&'a [u8], GdbError>
    ensures found { option_copied (result_ok result) ≡ section_bytes C.class file.now.bytes (C.SectionHeader.contents header.now) }
    ensures error { IfErr result (λ e. e ≡ BadElf object SectionData) }
{
    match file.raw_section_data(header) {
        Ok(bytes) => Ok(bytes),
        Err(error) => Err(GdbError::BadElf(object, error)),
    }
}

/// Publishes the names of a pubnames section of an object.
fn publish_names<'a>(
    names: &mut Vec<Publication<'a>>,
    alloc: Global,
    units: &[CuBoundary],
    object: usize,
    section: SectionIndex,
    bytes: &'a [u8],
) -> Result<(), GdbError>
    requires { Ascend units.now }
    ensures published { OnOk result (PublishesSection bytes.entry.now units.now (all_marked names.old.items) (all_marked names.new.items)) }
    ensures cause { IfErr result (IsSetsCause object section bytes.entry.now) }
{
    match publish_section(names, alloc, units, bytes) {
        Ok(()) => Ok(()),
        Err(error) => Err(of_names(object, section, error)),
    }
}

/// Returns the publications of names of an object with a unit, section by section.
fn gather_names<'a, C: ElfClass>(
    alloc: Global,
    object: usize,
    file: &File<'a, C>,
    units: AscendingUnits<'_>,
) -> Result<Vec<Publication<'a>>, GdbError>
    ensures names { IfOk result (λ names. GathersNames C.class file.now.bytes units.entry.units.now (all_marked names.items)) }
    ensures cause { IfErr result (IsNamesCause C.class object file.now.bytes) }
    ensures fit { OnOk result (40 * length (sections C.class file.now.bytes) ≤ length file.now.bytes) }
{
    let mut names = Vec::new(alloc);
    for (index, header) in file.enumerate_sections() {
        if !is_pubnames_section(file, index) {
            continue;
        }
        let bytes = names_data(object, file, &header)?;
        publish_names(&mut names, alloc, units.units, object, index, bytes)?;
    }
    Ok(names)
}

/// Returns the scan of an object, none exactly where it has no unit. `object` is the object's index in the input, from 0:
/// errors have it, and placements name the object by it.
///
/// The errors, in this order: `CompressedSection`, the lowest section that is compressed, of the first `.debug_info` and
/// the `.debug_gnu_pubnames` and `.debug_gnu_pubtypes`; `BadElf` with `SectionData`, the bytes of `.debug_info` are out of
/// range; `BadUnit`, at the first offset at which no unit begins; and in an object with a unit, for the first pubnames
/// section that is not read, `BadElf` with `SectionData`, its bytes are out of range, or `BadPubnames`, they are no list
/// of sets. `NoMemory` may come at any object.
///
/// Requires a file of fewer than 2^39 bytes, and placements that ascend by object and section, whose ends fit 64 bits;
/// those of the object are of sections of its file.
pub fn scan_one_object<'a, C: ElfClass>(
    alloc: Global,
    object: usize,
    file: &File<'a, C>,
    placements: &[Placement],
) -> Result<Option<PerObjectScan<'a>>, GdbError>
    requires small { length file.now.bytes < 2 ^ 39 }
    requires placements { ArePlacements placements.now }
    requires named { NameSections C.class file.now.bytes object placements.now }
    ensures scan { IfOk result (ScansObject C.class file.now.bytes object placements.now) }
    ensures cause { IfErr result (IsScanCause C.class object file.now.bytes) }
    ensures exact { (e : GdbError_spec) → IsScanCause C.class object file.now.bytes e → e ≢ NoMemory → IsRefusedFor result e }
    ensures complete { (o : Object) → IsObjectOf C.class file.now.bytes o → first_compressed C.class file.now.bytes ≡ None → IfErr result IsOnlyMemory }
{
    if let Some(section) = first_compressed(file) {
        return Err(GdbError::CompressedSection(object, section));
    }
    let units = read_units(alloc, object, file)?;
    if units.is_empty() {
        return Ok(None);
    }
    let names = gather_names(alloc, object, file, ascending(&units))?;
    let placed = count_placed(file, placements_of(object, placements));
    Ok(Some(PerObjectScan::new(units, names, placed)))
}
