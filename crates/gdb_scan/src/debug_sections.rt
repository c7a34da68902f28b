//! The sections of an object that an index is made from, by their names (GDB manual, "Index Section Format"): the
//! first `.debug_info`, and all `.debug_gnu_pubnames` and `.debug_gnu_pubtypes`.

ghost use Rattle.std.specs.Prelude.{◌≡◌, ◌&&◌, List, ℕ, Some, IfErr, option_map, option_copied, slice_get};
ghost use Rattle.std.specs.Result.{result_ok};
ghost use Rattle.elf_format.specs.declared.error.ElfError.TheVariants.{SectionData};
ghost use Rattle.elf_format.specs.Bytes.{get};
ghost use Rattle.elf_format.specs.Class.{sh_flags};
ghost use Rattle.elf_format.specs.Flags.{has_flag, shf_compressed};
ghost use Rattle.elf_format.specs.Section.{sections};
ghost use Rattle.gdb_index_format.specs.Objects as objects;

use elf_format::{ElfError, SectionIndex};
use elf_view::File;
use elf_words::{ElfClass, SHF_COMPRESSED, SectionHeaderFields};

/// The section whose compilation units (CUs) are read: the first of its name.
const DEBUG_INFO: &str = ".debug_info";

/// Returns whether the section at an index has the name `.debug_gnu_pubnames` or `.debug_gnu_pubtypes`.
pub fn is_pubnames_section<C: ElfClass>(file: &File<'_, C>, index: SectionIndex) -> bool
    ensures { (header : List ℕ) → slice_get (sections C.class file.now.bytes) index.0 ≡ Some header → result ≡ objects.is_pubnames_section C.class file.now.bytes header }
{
    file.has_name(index, b".debug_gnu_pubnames") || file.has_name(index, b".debug_gnu_pubtypes")
}

/// Returns whether the section at an index is one of those that are read.
fn is_read<C: ElfClass>(file: &File<'_, C>, info: Option<SectionIndex>, index: SectionIndex) -> bool
    requires { option_map (λ i. i.0) info ≡ objects.info_section C.class file.now.bytes }
    ensures { (header : List ℕ) → slice_get (sections C.class file.now.bytes) index.0 ≡ Some header → result ≡ objects.is_read C.class file.now.bytes (index.0, header) }
{
    match info {
        Some(found) => found.0 == index.0 || is_pubnames_section(file, index),
        None => is_pubnames_section(file, index),
    }
}

/// Returns the index of the section whose units are read.
fn info_section<C: ElfClass>(file: &File<'_, C>) -> Option<SectionIndex>
    ensures { option_map (λ i. i.0) result ≡ objects.info_section C.class file.now.bytes }
{
    let (index, _) = file.section_by_name(DEBUG_INFO)?;
    Some(index)
}

/// Returns whether a section is one of those that are read, and has the flag SHF_COMPRESSED.
fn is_compressed<C: ElfClass>(
    file: &File<'_, C>,
    info: Option<SectionIndex>,
    index: SectionIndex,
    header: &C::SectionHeader,
) -> bool
    requires info { option_map (λ i. i.0) info ≡ objects.info_section C.class file.now.bytes }
    requires there { slice_get (sections C.class file.now.bytes) index.0 ≡ Some (C.SectionHeader.contents header.now) }
    ensures { result ≡ (objects.is_read C.class file.now.bytes (index.0, C.SectionHeader.contents header.now) && has_flag (get (sh_flags C.class) (C.SectionHeader.contents header.now)) shf_compressed) }
{
    if header.sh_flags() & SHF_COMPRESSED == 0 {
        return false;
    }
    is_read(file, info, index)
}

/// Returns the lowest index of a section with the flag SHF_COMPRESSED, of the first `.debug_info` and the pubnames
/// sections. None where none of them is compressed.
#[tactic(auto, using(elf_format::proofs::SearchLemmas::rest_after, elf_format::proofs::SearchLemmas::item_at_front))]
pub fn first_compressed<C: ElfClass>(file: &File<'_, C>) -> Option<SectionIndex>
    ensures { option_map (λ i. i.0) result ≡ objects.first_compressed C.class file.now.bytes }
{
    let info = info_section(file);
    for (index, header) in file.section_iter().enumerate() {
        if is_compressed(file, info, SectionIndex(index), &header) {
            return Some(SectionIndex(index));
        }
    }
    None
}

/// Returns the bytes of the first `.debug_info`, no bytes where there is no such section. `SectionData` comes exactly
/// where they are out of range.
pub fn debug_info<'a, C: ElfClass>(file: &File<'a, C>) -> Result<&'a [u8], ElfError>
    ensures found { option_copied (result_ok result) ≡ objects.info_bytes C.class file.now.bytes }
    ensures error { IfErr result (λ e. e ≡ SectionData) }
{
    let Some((_, header)) = file.section_by_name(DEBUG_INFO) else {
        return Ok(&[]);
    };
    file.raw_section_data(&header)
}
