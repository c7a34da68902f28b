//! The compilation unit (CU) that the relocations of an object's `.debug_info` assign to each section (gABI,
//! Relocation): a relocation lies in a unit and names a symbol, and the symbol is defined in a section.

ghost use Rattle.std.specs.Prelude.{◌≡◌, ℕ, List, ◌+◌, ◌^◌, ◌<◌, ◌∷◌, [], false, nat_eq, None, length, IfOk, IfErr, OnOk};
ghost use Rattle.std.specs.List.{list_any};
ghost use Rattle.std.specs.Option.{option_or};
ghost use Rattle.std.specs.HashMap as hash;
ghost use Rattle.dwarf_sections.specs.UnitSearch.{AreAdjacent};
ghost use Rattle.gdb_index_format.specs.declared.unit.CuBoundary.{CuBoundary as CuBoundary_spec};
ghost use Rattle.gdb_index_format.specs.Addresses.{relocation_fault, section_unit};
ghost use Rattle.gdb_index_format.specs.Units.{unit_holding};
ghost use Rattle.gdb_scan.specs.MapCause.{IsMapCause};
ghost use Rattle.gdb_scan.specs.Moved.{moved};
ghost use Rattle.gdb_scan.specs.steps.Assigned.{assigned_at, assigned_by, assigned_in, lacks_symbol};
ghost use Rattle.gdb_scan.specs.steps.SymbolCause.{IsSymbolCause};
ghost use Rattle.gdb_scan.specs.declared.map_error.MapError.TheVariants.{NoMemory};

use crate::map_error::MapError;
use crate::relocations::{section_of_symbol, unit_relocations};
use dwarf_sections::cu_index_for_offset;
use elf_format::Crel;
use elf_relocs::RelaView;
use elf_view::File;
use elf_words::ElfClass;
use gdb_index_format::CuBoundary;
use std::alloc::Global;
use std::collections::HashMap;

/// Returns the index of the unit that holds an offset counted from `base`. None where no unit holds it.
#[tactic(auto, using(dwarf_sections::proofs::UnitSearching::none_holds))]
fn unit_from_base(units: &[CuBoundary], base: u64, offset: u64) -> Option<u32>
    requires few { length units.now < 2 ^ 32 }
    requires adjacent { AreAdjacent units.now }
    ensures { result ≡ unit_holding units.now (base + offset) }
{
    match base.checked_add(offset) {
        Some(at) => cu_index_for_offset(units, at),
        None => None,
    }
}

/// Assigns to a section the unit that holds an offset counted from `base`, unless it has a unit already.
fn note_unit(
    map: &mut HashMap<usize, u32>,
    units: &[CuBoundary],
    base: u64,
    section: usize,
    offset: u64,
) -> Result<(), MapError>
    requires few { length units.now < 2 ^ 32 }
    requires adjacent { AreAdjacent units.now }
    ensures noted { OnOk result ((q : ℕ) → hash.get nat_eq map.new q ≡ option_or (hash.get nat_eq map.old q) (assigned_at units.now base offset section q)) }
    ensures memory { IfErr result (λ e. e ≡ NoMemory) }
{
    if map.contains_key(&section) {
        return Ok(());
    }
    if let Some(unit) = unit_from_base(units, base, offset) {
        map.insert(section, unit)?;
    }
    Ok(())
}

/// Assigns to the section of a relocation's symbol the unit that holds the relocation.
fn note_relocation<C: ElfClass>(
    map: &mut HashMap<usize, u32>,
    file: &File<'_, C>,
    units: &[CuBoundary],
    base: u64,
    relocation: Crel,
) -> Result<(), MapError>
    requires few { length units.now < 2 ^ 32 }
    requires adjacent { AreAdjacent units.now }
    ensures noted { OnOk result ((q : ℕ) → hash.get nat_eq map.new q ≡ option_or (hash.get nat_eq map.old q) (assigned_by C.class file.now.is_dynamic file.now.bytes units.now base relocation q)) }
    ensures sound { OnOk result (lacks_symbol C.class file.now.is_dynamic file.now.bytes relocation ≡ false) }
    ensures cause { IfErr result (IsSymbolCause C.class file.now.is_dynamic file.now.bytes (relocation ∷ [])) }
{
    match section_of_symbol(file, relocation.symbol) {
        Ok(Some(section)) => note_unit(map, units, base, section.0, relocation.offset),
        Ok(None) => Ok(()),
        Err(error) => Err(MapError::Elf(error)),
    }
}

/// Returns the unit of each section that some relocations assign.
fn map_of_relocations<C: ElfClass>(
    alloc: Global,
    file: &File<'_, C>,
    units: &[CuBoundary],
    base: u64,
    relocations: &RelaView<'_, C>,
) -> Result<HashMap<usize, u32>, MapError>
    requires few { length units.now < 2 ^ 32 }
    requires adjacent { AreAdjacent units.now }
    ensures map { IfOk result (λ map. (q : ℕ) → hash.get nat_eq map q ≡ assigned_in C.class file.now.is_dynamic file.now.bytes units.now base relocations.now q) }
    ensures sound { OnOk result (list_any (lacks_symbol C.class file.now.is_dynamic file.now.bytes) relocations.now ≡ false) }
    ensures cause { IfErr result (IsSymbolCause C.class file.now.is_dynamic file.now.bytes relocations.now) }
{
    let mut map = HashMap::new(alloc);
    let count = relocations.len();
    for index in 0..count {
        if let Some(relocation) = relocations.get(index) {
            note_relocation(&mut map, file, units, base, relocation.values)?;
        }
    }
    Ok(map)
}

/// Maps each section of an object to the unit that the relocations of the object's `.debug_info` assign to it, where
/// the units stand as an index lists them: each has the offset that it has in the object, and `base` more. The map is
/// the one that `build_section_cu_map` returns for the same units with their own offsets.
///
/// Requires fewer than 2^32 units, each of which begins where the one before ends; the ends fit 64 bits. The errors
/// are those of `build_section_cu_map`.
#[tactic(auto, using(crate::proofs::Assigning::assigned_moved), unfolding(gdb_index_format::specs::Addresses::section_unit, gdb_index_format::specs::Addresses::relocation_fault))]
pub fn section_units<C: ElfClass>(
    alloc: Global,
    file: &File<'_, C>,
    units: &[CuBoundary],
    base: u64,
) -> Result<HashMap<usize, u32>, MapError>
    requires few { length units.now < 2 ^ 32 }
    requires adjacent { AreAdjacent units.now }
    ensures map { IfOk result (λ map. (us : List CuBoundary_spec) → units.now ≡ moved base us → (section : ℕ) → hash.get nat_eq map section ≡ section_unit C.class file.now.is_dynamic file.now.bytes us section) }
    ensures sound { OnOk result (relocation_fault C.class file.now.is_dynamic file.now.bytes ≡ None) }
    ensures cause { IfErr result (IsMapCause (relocation_fault C.class file.now.is_dynamic file.now.bytes)) }
{
    match unit_relocations(file) {
        Ok(Some(relocations)) => map_of_relocations(alloc, file, units, base, &relocations),
        Ok(None) => Ok(HashMap::new(alloc)),
        Err(error) => Err(MapError::Elf(error)),
    }
}

/// Maps each section of an object, by its index from 0, to the unit that the relocations of the object's `.debug_info`
/// assign to it, by its index among these units, from 0. The relocations are those of the first section with the name
/// `.rela.debug_info`, if its type is SHT_RELA, and else there are none. A relocation assigns the unit that holds its
/// offset to the section in which its symbol is defined. The first that assigns a unit to a section counts.
///
/// Units are found by binary search. Requires fewer than 2^32 units, each of which begins where the one before ends;
/// the ends fit 64 bits. `Elf` comes exactly where the relocations are malformed, however many units there are:
/// `SectionData` where their bytes are out of range, `RelocationTable` where they are no whole RELA records, and
/// `SymbolIndex` where a symbol or the section index of one is missing. `NoMemory` may come at any relocations.
#[tactic(auto, using(crate::proofs::Assigning::moved_none))]
pub fn build_section_cu_map<C: ElfClass>(
    alloc: Global,
    file: &File<'_, C>,
    units: &[CuBoundary],
) -> Result<HashMap<usize, u32>, MapError>
    requires few { length units.now < 2 ^ 32 }
    requires adjacent { AreAdjacent units.now }
    ensures map { IfOk result (λ map. (section : ℕ) → hash.get nat_eq map section ≡ section_unit C.class file.now.is_dynamic file.now.bytes units.now section) }
    ensures sound { OnOk result (relocation_fault C.class file.now.is_dynamic file.now.bytes ≡ None) }
    ensures cause { IfErr result (IsMapCause (relocation_fault C.class file.now.is_dynamic file.now.bytes)) }
{
    section_units(alloc, file, units, 0)
}
