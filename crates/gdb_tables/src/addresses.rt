//! The entries of the address area: the unit of the addresses of a placed section (GDB manual, "Index Section
//! Format"). Objects are handled one by one, each with its placements. The relocations of an object's units are read
//! where it has two units or more.

ghost use Rattle.std.specs.Prelude.{◌≡◌, ℕ, List, ◌+◌, ◌^◌, ◌<◌, ◌≤◌, ◌++◌, None, length, OnOk, IfOk, IfErr};
ghost use Rattle.std.specs.List.{All};
ghost use Rattle.gdb_index_format.specs.declared.unit.CuBoundary.{CuBoundary as CuBoundary_spec};
ghost use Rattle.gdb_index_format.specs.Addresses.{unit_of_section, unit_relocation_fault};
ghost use Rattle.elf_view.specs.AnyFile.{parsed};
ghost use Rattle.gdb_index_format.specs.Objects.{class_in, IsUnitsOf, AreUnitsOf};
ghost use Rattle.gdb_index_format.specs.Placed.{placed};
ghost use Rattle.gdb_tables.specs.Addresses.{IsScanOfUnits, addresses, first_relocation_fault, IsAddressCause};
ghost use Rattle.gdb_tables.specs.steps.ObjectEntries.{of_map_error, entry_at, entries_at, entries_of, unit_mapped, AreListedUnits, IsEntriesCause};
ghost use Rattle.gdb_tables.specs.Files.{all_parsed, file_bytes, ArePlacedIn};
ghost use Rattle.gdb_scan.specs.PlacedIn.{ArePlacements, of_object};

use elf_view::{AnyFile, File};
use elf_words::ElfClass;
use gdb_index::GdbIndexScanResult;
use gdb_index_format::{AddressEntry, CuBoundary, Placement};
use gdb_scan::{GdbError, MapError, is_code_placement, placements_of, section_units};
use std::alloc::{AllocError, Global};
use std::collections::HashMap;

/// Reports whether a placement of an object with a unit has an entry: it counts, and is at an address above 0.
fn has_entry<C: ElfClass>(file: &File<'_, C>, placement: &Placement) -> bool
    ensures { result ≡ Rattle.gdb_tables.specs.steps.ObjectEntries.has_entry C.class file.now.bytes placement.now }
{
    is_code_placement(file, placement) && placement.address != 0
}

/// Returns the entry of a placement, where the object's first unit has the index `first`, and a map assigns units to
/// its sections.
fn entry_of(first: u32, map: &HashMap<usize, u32>, placement: &Placement) -> AddressEntry
    requires small { first + unit_mapped map.now placement.now.section < 2 ^ 32 }
    requires fits { placement.now.address + placement.now.size < 2 ^ 64 }
    ensures { result ≡ entry_at first (unit_mapped map.now) placement.now }
{
    AddressEntry {
        low: placement.address,
        high: placement.address + placement.size,
        unit: first + map.get(&placement.section).copied().unwrap_or(0),
    }
}

/// Adds the entries of some placements of an object with a unit.
fn add_entries<C: ElfClass>(
    entries: &mut Vec<AddressEntry>,
    file: &File<'_, C>,
    first: u32,
    map: &HashMap<usize, u32>,
    placements: &[Placement],
) -> Result<(), AllocError>
    requires small { (section : ℕ) → first + unit_mapped map.now section < 2 ^ 32 }
    requires fit { All (λ p. p.address + p.size < 2 ^ 64) placements.now }
    ensures { OnOk result (entries.new.items ≡ entries.old.items ++ entries_at C.class file.now.bytes first (unit_mapped map.now) placements.now) }
{
    for placement in placements {
        if has_entry(file, placement) {
            entries.push(entry_of(first, map, placement))?;
        }
    }
    Ok(())
}

/// Returns the error of an object whose relocations are not read.
fn of_relocations(object: usize, error: MapError) -> GdbError
    ensures { result ≡ of_map_error object error }
{
    match error {
        MapError::Elf(error) => GdbError::BadElf(object, error),
        MapError::NoMemory => GdbError::NoMemory,
    }
}

/// Maps the sections of an object to units, by its relocations. Maps none where the object has fewer than two units, and
/// reads no relocation then. The units stand as the index lists them.
fn assigned_units<C: ElfClass>(
    alloc: Global,
    object: usize,
    file: &File<'_, C>,
    units: &[CuBoundary],
) -> Result<HashMap<usize, u32>, GdbError>
    requires few { length units.now ≤ 2 ^ 24 }
    requires held { AreListedUnits C.class file.now.bytes units.now }
    ensures mapped { IfOk result (λ map. (us : List CuBoundary_spec) → IsUnitsOf C.class file.now.bytes us → (section : ℕ) → unit_mapped map section ≡ unit_of_section C.class file.now.is_dynamic file.now.bytes us section) }
    ensures sound { OnOk result ((us : List CuBoundary_spec) → IsUnitsOf C.class file.now.bytes us → unit_relocation_fault C.class file.now.is_dynamic file.now.bytes us ≡ None) }
    ensures cause { IfErr result (λ e. (us : List CuBoundary_spec) → IsUnitsOf C.class file.now.bytes us → IsEntriesCause object (unit_relocation_fault C.class file.now.is_dynamic file.now.bytes us) e) }
{
    if units.len() < 2 {
        return Ok(HashMap::new(alloc));
    }
    match section_units(alloc, file, units, units[0].offset) {
        Ok(map) => Ok(map),
        Err(error) => Err(of_relocations(object, error)),
    }
}

/// Adds the entries of an object's placements. `first` is the index of the object's first unit, and the units stand as
/// the index lists them.
fn add_object<C: ElfClass>(
    alloc: Global,
    entries: &mut Vec<AddressEntry>,
    object: usize,
    file: &File<'_, C>,
    first: u32,
    units: &[CuBoundary],
    placements: &[Placement],
) -> Result<(), GdbError>
    requires held { AreListedUnits C.class file.now.bytes units.now }
    requires room { first + length units.now ≤ 2 ^ 24 }
    requires fit { All (λ p. p.address + p.size < 2 ^ 64) placements.now }
    ensures entries { OnOk result ((us : List CuBoundary_spec) → IsUnitsOf C.class file.now.bytes us → entries.new.items ≡ entries.old.items ++ entries_of C.class file.now first us placements.now) }
    ensures sound { OnOk result ((us : List CuBoundary_spec) → IsUnitsOf C.class file.now.bytes us → unit_relocation_fault C.class file.now.is_dynamic file.now.bytes us ≡ None) }
    ensures cause { IfErr result (λ e. (us : List CuBoundary_spec) → IsUnitsOf C.class file.now.bytes us → IsEntriesCause object (unit_relocation_fault C.class file.now.is_dynamic file.now.bytes us) e) }
{
    let map = match assigned_units(alloc, object, file, units) {
        Ok(map) => map,
        Err(error) => return Err(error),
    };
    if units.is_empty() {
        return Ok(());
    }
    add_entries(entries, file, first, &map, placements)?;
    Ok(())
}

/// Adds the entries of an object's placements, where its class is the one that its bytes name.
fn add_file<C: ElfClass>(
    alloc: Global,
    entries: &mut Vec<AddressEntry>,
    object: usize,
    file: &File<'_, C>,
    first: u32,
    units: &[CuBoundary],
    placements: &[Placement],
) -> Result<(), GdbError>
    requires held { AreListedUnits (class_in file.now.bytes) file.now.bytes units.now }
    requires room { first + length units.now ≤ 2 ^ 24 }
    requires fit { All (λ p. p.address + p.size < 2 ^ 64) placements.now }
    ensures entries { OnOk result ((us : List CuBoundary_spec) → IsUnitsOf (class_in file.now.bytes) file.now.bytes us → entries.new.items ≡ entries.old.items ++ entries_of (class_in file.now.bytes) file.now first us placements.now) }
    ensures sound { OnOk result ((us : List CuBoundary_spec) → IsUnitsOf (class_in file.now.bytes) file.now.bytes us → unit_relocation_fault (class_in file.now.bytes) file.now.is_dynamic file.now.bytes us ≡ None) }
    ensures cause { IfErr result (λ e. (us : List CuBoundary_spec) → IsUnitsOf (class_in file.now.bytes) file.now.bytes us → IsEntriesCause object (unit_relocation_fault (class_in file.now.bytes) file.now.is_dynamic file.now.bytes us) e) }
{
    file.well_formed();
    add_object(alloc, entries, object, file, first, units, placements)
}

/// Adds the entries of the placements of an object of either class.
fn add_any_object(
    alloc: Global,
    entries: &mut Vec<AddressEntry>,
    object: usize,
    file: &AnyFile<'_>,
    first: u32,
    units: &[CuBoundary],
    placements: &[Placement],
) -> Result<(), GdbError>
    requires held { AreListedUnits (class_in (parsed file.now).bytes) (parsed file.now).bytes units.now }
    requires room { first + length units.now ≤ 2 ^ 24 }
    requires fit { All (λ p. p.address + p.size < 2 ^ 64) placements.now }
    ensures entries { OnOk result ((us : List CuBoundary_spec) → IsUnitsOf (class_in (parsed file.now).bytes) (parsed file.now).bytes us → entries.new.items ≡ entries.old.items ++ entries_of (class_in (parsed file.now).bytes) (parsed file.now) first us placements.now) }
    ensures sound { OnOk result ((us : List CuBoundary_spec) → IsUnitsOf (class_in (parsed file.now).bytes) (parsed file.now).bytes us → unit_relocation_fault (class_in (parsed file.now).bytes) (parsed file.now).is_dynamic (parsed file.now).bytes us ≡ None) }
    ensures cause { IfErr result (λ e. (us : List CuBoundary_spec) → IsUnitsOf (class_in (parsed file.now).bytes) (parsed file.now).bytes us → IsEntriesCause object (unit_relocation_fault (class_in (parsed file.now).bytes) (parsed file.now).is_dynamic (parsed file.now).bytes us) e) }
{
    match file {
        AnyFile::Class64(file) => add_file(alloc, entries, object, file, first, units, placements),
        AnyFile::Class32(file) => add_file(alloc, entries, object, file, first, units, placements),
    }
}

/// Returns the entries of the address area: one for each placement that counts and is at an address above 0, in the
/// order of the placements. A placement counts where its size is above 0, its section has the flags `SHF_ALLOC` and
/// `SHF_EXECINSTR`, and its object has a compilation unit (CU). The CU of an entry is the one that the relocations of
/// the object's `.debug_info` assign to the section, as `build_section_cu_map` finds it, where the object has two CUs or
/// more and they assign one, and else the object's first. It is given by its CU index, among the CUs of all objects.
///
/// `BadElf` comes for the first object with two CUs or more whose relocations have a fault, also where none of its
/// sections is placed: `SectionData` where their bytes are out of the file, `RelocationTable` where these are not whole
/// RELA records, and `SymbolIndex` where a symbol or its section index is missing. `NoMemory` may come for any objects.
///
/// Requires fewer than 2^24 files, each of fewer than 2^39 bytes; placements that ascend by object and section, name
/// objects and sections that exist, and whose ends fit 64 bits; and a scan whose CUs, CU counts and number of placed
/// sections are those of these files and placements.
pub fn build_address_entries(
    alloc: Global,
    files: &[AnyFile<'_>],
    scan: &GdbIndexScanResult<'_>,
    placements: &[Placement],
) -> Result<Vec<AddressEntry>, GdbError>
    requires few { length files.now < 2 ^ 24 }
    requires small { All (λ file. length file.bytes < 2 ^ 39) (all_parsed files.now) }
    requires placements { ArePlacedIn (file_bytes (all_parsed files.now)) placements.now }
    requires scanned { (uss : List (List CuBoundary_spec)) × AreUnitsOf (file_bytes (all_parsed files.now)) uss × IsScanOfUnits uss (length (placed (file_bytes (all_parsed files.now)) uss placements.now)) scan.now }
    ensures entries { IfOk result (λ v. (uss : List (List CuBoundary_spec)) → AreUnitsOf (file_bytes (all_parsed files.now)) uss → v.items ≡ addresses (all_parsed files.now) uss placements.now) }
    ensures sound { OnOk result ((uss : List (List CuBoundary_spec)) → AreUnitsOf (file_bytes (all_parsed files.now)) uss → first_relocation_fault (all_parsed files.now) uss ≡ None) }
    ensures few { IfOk result (λ v. length v.items ≤ scan.now.placed) }
    ensures cause { IfErr result (λ e. (uss : List (List CuBoundary_spec)) → AreUnitsOf (file_bytes (all_parsed files.now)) uss → IsAddressCause (first_relocation_fault (all_parsed files.now) uss) e) }
{
    let units = scan.units();
    let counts = scan.unit_counts();
    let mut entries = Vec::new(alloc);
    let mut first = 0;
    for (object, file) in files.iter().enumerate() {
        let end = first + counts[object];
        let listed = &units[first as usize..end as usize];
        let own = placements_of(object, placements);
        match add_any_object(alloc, &mut entries, object, file, first, listed, own) {
            Ok(()) => first = end,
            Err(error) => return Err(error),
        }
    }
    Ok(entries)
}
