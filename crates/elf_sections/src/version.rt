//! The rule on sections of symbol versions (GNU symbol versioning; LSB, Symbol Versioning).

ghost use Rattle.std.specs.Prelude.{◌≡◌, option_map};
ghost use Rattle.elf_format.specs.Section.{sections};
ghost use Rattle.elf_format.specs.Version.{is_well_formed_version_section, version_section, version_bytes, symbol_versions};
ghost use Rattle.elf_format.specs.Fault.{has_versions};

use crate::section::bytes_of_section;
use crate::symbol::holds_whole_records;
use crate::symbol_table::last_of_type;
use elf_tables::Versym;
use elf_words::{
    ElfClass, Record, Records, SHT_GNU_VERDEF, SHT_GNU_VERNEED, SHT_GNU_VERSYM, SectionHeaderFields,
};

/// The size in bytes of a version index (Versym).
const VERSYM_SIZE: usize = 2;

/// Returns whether a section holds no versions, or its bytes are within the file, and whole where it holds version
/// indexes.
fn is_version_section_well_formed<H: SectionHeaderFields>(bytes: &[u8], header: &H) -> bool
    ensures { result ≡ is_well_formed_version_section H.class bytes.now (H.contents header.now) }
{
    match header.sh_type() {
        SHT_GNU_VERSYM => holds_whole_records(bytes, header, VERSYM_SIZE),
        SHT_GNU_VERDEF | SHT_GNU_VERNEED => bytes_of_section(bytes, header).is_some(),
        _ => true,
    }
}

/// Returns whether each section of versions is well formed.
#[tactic(auto, unfolding(elf_format::specs::Fault::has_versions))]
pub fn are_versions_well_formed<'a, C: ElfClass>(
    bytes: &'a [u8],
    headers: &Records<'a, C::SectionHeader>,
) -> bool
    requires { headers.now ≡ sections C.class bytes.now }
    ensures { result ≡ has_versions C.class bytes.now }
{
    for header in headers.iter() {
        if !is_version_section_well_formed(bytes, &header) {
            return false;
        }
    }
    true
}

/// Returns the section of versions of a type, the last of the type.
pub fn find_version_section<'a, C: ElfClass>(
    bytes: &'a [u8],
    headers: &Records<'a, C::SectionHeader>,
    section_type: u32,
) -> Option<C::SectionHeader>
    requires { headers.now ≡ sections C.class bytes.now }
    ensures { option_map C.SectionHeader.contents result ≡ version_section C.class section_type bytes.now }
{
    let (_, header) = last_of_type::<C>(headers, section_type)?;
    Some(header)
}

/// Returns the bytes of the section of versions of a type, none without such a section.
#[tactic(auto, unfolding(elf_format::specs::Version::version_bytes))]
pub fn read_version_bytes<'a, C: ElfClass>(
    bytes: &'a [u8],
    headers: &Records<'a, C::SectionHeader>,
    section_type: u32,
) -> &'a [u8]
    requires { headers.now ≡ sections C.class bytes.now }
    ensures { result.now ≡ version_bytes C.class section_type bytes.now }
{
    match find_version_section::<C>(bytes, headers, section_type) {
        Some(header) => bytes_of_section(bytes, &header).unwrap_or(&[]),
        None => &[],
    }
}

/// Returns the version records of the symbols, none without a section of them.
#[tactic(auto, unfolding(elf_format::specs::Version::symbol_versions))]
pub fn read_symbol_versions<'a, C: ElfClass>(
    bytes: &'a [u8],
    headers: &Records<'a, C::SectionHeader>,
) -> Records<'a, Versym>
    requires { headers.now ≡ sections C.class bytes.now }
    ensures { result ≡ symbol_versions C.class bytes.now }
{
    Records::whole(read_version_bytes::<C>(bytes, headers, SHT_GNU_VERSYM))
}
