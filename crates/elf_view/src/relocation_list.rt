//! The list of relocations in a section of type RELA or CREL (gABI, Relocation; CREL as LLVM defines it).

ghost use Rattle.std.specs.Prelude.{◌≡◌};
ghost use Rattle.elf_format.specs.Cursor.{Returns};
ghost use Rattle.elf_view.specs.Relocation.{listed_rela, listed_crel, listed_none, listed_in};
ghost use Rattle.elf_format.specs.Rela.{rela_list};
ghost use Rattle.elf_format.specs.Crel.{listing};
ghost use Rattle.elf_relocs.specs.Lists.{listing_of_list};

use elf_format::ElfError;
use elf_relocs::{CrelIterator, RelaView, RelocationList};
use elf_sections::bytes_of_section;
use elf_words::{ElfClass, Record, SHT_CREL, SHT_RELA, SectionHeaderFields};

/// Views bytes as RELA records.
#[tactic(auto, unfolding(elf_format::specs::Rela::rela_list))]
fn list_of_records<'a, C: ElfClass>(bytes: &'a [u8]) -> Result<RelocationList<'a, C>, ElfError>
    ensures { Returns listing_of_list result (listed_rela (rela_list C.class bytes.now)) }
{
    match RelaView::new(bytes) {
        Some(view) => Ok(RelocationList::Rela(view)),
        None => Err(ElfError::RelocationTable),
    }
}

/// Reads the header of a list in CREL.
fn list_in_crel<'a, C: ElfClass>(bytes: &'a [u8]) -> Result<RelocationList<'a, C>, ElfError>
    ensures { Returns listing_of_list result (listed_crel (listing bytes.now)) }
{
    match CrelIterator::parse(bytes) {
        Ok(list) => Ok(RelocationList::Crel(list)),
        Err(_) => Err(ElfError::RelocationTable),
    }
}

/// Returns the empty list.
pub fn no_relocations<'a, C: ElfClass>() -> Result<RelocationList<'a, C>, ElfError>
    ensures { Returns listing_of_list result listed_none }
{
    list_of_records(&[])
}

/// Returns the list of relocations in a section: the empty list where its type is neither RELA nor CREL.
#[tactic(auto, unfolding(crate::specs::Relocation::listed_in))]
pub fn list_of_section<'a, C: ElfClass>(
    bytes: &'a [u8],
    header: &C::SectionHeader,
) -> Result<RelocationList<'a, C>, ElfError>
    ensures { Returns listing_of_list result (listed_in C.class bytes.now (C.SectionHeader.contents header.now)) }
{
    let section_type = header.sh_type();
    if section_type != SHT_RELA && section_type != SHT_CREL {
        return no_relocations::<C>();
    }
    let Some(held) = bytes_of_section(bytes, header) else {
        return Err(ElfError::SectionData);
    };
    if section_type == SHT_RELA {
        return list_of_records::<C>(held);
    }
    list_in_crel::<C>(held)
}
