//! The relocations of an object's `.debug_info` (gABI, Relocation), and the sections in which their symbols are defined.

ghost use Rattle.std.specs.Prelude.{◌≡◌};
ghost use Rattle.elf_view.specs.SymbolSection.{IsSymbolSection};
ghost use Rattle.gdb_index_format.specs.Addresses.{unit_relocations, records_in, section_of_relocation};
ghost use Rattle.gdb_scan.specs.steps.Assigned.{as_relocations};

use elf_format::{ElfError, SectionIndex, SymbolIndex};
use elf_relocs::RelaView;
use elf_view::File;
use elf_words::{ElfClass, SHT_RELA, SectionHeaderFields};

/// The section whose relocations assign units: the first of its name.
const UNIT_RELOCATIONS: &str = ".rela.debug_info";

/// Returns the relocations that a section holds, where its type is SHT_RELA.
fn records_of<'a, C: ElfClass>(
    file: &File<'a, C>,
    header: &C::SectionHeader,
) -> Result<Option<RelaView<'a, C>>, ElfError>
    ensures { as_relocations result ≡ records_in C.class file.now.bytes (Some (C.SectionHeader.contents header.now)) }
{
    if header.sh_type() != SHT_RELA {
        return Ok(None);
    }
    let Ok(bytes) = file.raw_section_data(header) else {
        return Err(ElfError::SectionData);
    };
    match RelaView::new(bytes) {
        Some(view) => Ok(Some(view)),
        None => Err(ElfError::RelocationTable),
    }
}

/// Returns the relocations of an object's units, none where it has no section of that name, or one of another type.
/// `SectionData` comes exactly where their bytes are out of range, and `RelocationTable` exactly where these are no
/// whole records.
#[tactic(auto, unfolding(gdb_index_format::specs::Addresses::unit_relocations))]
pub(crate) fn unit_relocations<'a, C: ElfClass>(
    file: &File<'a, C>,
) -> Result<Option<RelaView<'a, C>>, ElfError>
    ensures { as_relocations result ≡ Rattle.gdb_index_format.specs.Addresses.unit_relocations C.class file.now.bytes }
{
    let Some((_, header)) = file.section_by_name(UNIT_RELOCATIONS) else {
        return Ok(None);
    };
    records_of(file, &header)
}

/// Returns the section in which the symbol of a relocation is defined, none for symbol 0. `SymbolIndex` comes exactly
/// where the symbol, or the section index of it, is missing.
pub(crate) fn section_of_symbol<C: ElfClass>(
    file: &File<'_, C>,
    symbol: u32,
) -> Result<Option<SectionIndex>, ElfError>
    ensures { IsSymbolSection (section_of_relocation C.class file.now.is_dynamic file.now.bytes symbol) result }
{
    if symbol == 0 {
        return Ok(None);
    }
    let index = SymbolIndex(symbol as usize);
    match file.symbol(index) {
        Ok(found) => file.symbol_section(&found, index),
        Err(error) => Err(error),
    }
}
