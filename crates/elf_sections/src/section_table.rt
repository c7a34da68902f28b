//! The section header table, and the string table of section names (gABI, Sections; ELF Header: `e_shoff`,
//! `e_shnum`, `e_shstrndx`, and their escapes in the first section header).

ghost use Rattle.std.specs.Prelude.{◌≡◌, ◌<◌, true, false, option_copied, MatchOption, Some, [], unwrap_or};
ghost use Rattle.elf_format.specs.Section.{file_header, section_count, sections, name_table, name_table_index};
ghost use Rattle.elf_format.specs.Fault.{has_section_headers, has_section_names};

use crate::section::bytes_of_section;
use elf_words::{ElfClass, FileHeaderFields, Record, Records, SHN_XINDEX, SectionHeaderFields};

/// Returns the section headers, none where `e_shoff` is 0. Returns None where `e_shentsize` is not the class's
/// size, or the table is out of the file's range.
#[tactic(auto, unfolding(elf_format::specs::Fault::has_section_headers, elf_format::specs::Section::section_count, elf_format::specs::Section::sections))]
pub fn read_section_headers<'a, C: ElfClass>(
    bytes: &'a [u8],
    header: &C::FileHeader,
) -> Option<Records<'a, C::SectionHeader>>
    requires { C.FileHeader.contents header.now ≡ file_header C.class bytes.now }
    ensures { MatchOption result (has_section_headers C.class bytes.now ≡ false) (λ headers. (has_section_headers C.class bytes.now ≡ true) × (headers ≡ sections C.class bytes.now)) }
{
    let offset = header.e_shoff() as usize;
    if offset == 0 {
        return Some(Records::new(&[], 0));
    }
    if usize::from(header.e_shentsize()) != C::SectionHeader::SIZE {
        return None;
    }
    let table = bytes.get(offset..)?;
    let count = match header.e_shnum() {
        0 => C::SectionHeader::read(table)?.sh_size() as usize,
        count => usize::from(count),
    };
    if C::SectionHeader::SIZE.checked_mul(count)? > table.len() {
        return None;
    }
    Some(Records::new(table, count))
}

/// Returns the index of the section that holds the section names.
#[tactic(auto, using(elf_format::proofs::RecordLemmas::first_record), unfolding(elf_format::specs::Section::name_table_index, elf_format::specs::Section::sections))]
fn find_name_table<'a, C: ElfClass>(
    bytes: &'a [u8],
    header: &C::FileHeader,
    headers: &Records<'a, C::SectionHeader>,
) -> Option<usize>
    requires header { C.FileHeader.contents header.now ≡ file_header C.class bytes.now }
    requires headers { headers.now ≡ sections C.class bytes.now }
    requires some { 0 < section_count C.class bytes.now }
    ensures { result ≡ Some (name_table_index C.class bytes.now) }
{
    let first = headers.get(0)?;
    Some(match header.e_shstrndx() {
        SHN_XINDEX => first.sh_link() as usize,
        index => usize::from(index),
    })
}

/// Returns the bytes of the section that holds the section names: none where its index is 0.
#[tactic(auto, unfolding(elf_format::specs::Section::name_table))]
fn read_name_table<'a, C: ElfClass>(
    bytes: &'a [u8],
    header: &C::FileHeader,
    headers: &Records<'a, C::SectionHeader>,
) -> Option<&'a [u8]>
    requires header { C.FileHeader.contents header.now ≡ file_header C.class bytes.now }
    requires headers { headers.now ≡ sections C.class bytes.now }
    requires some { 0 < section_count C.class bytes.now }
    ensures { option_copied result ≡ name_table C.class bytes.now }
{
    let index = find_name_table::<C>(bytes, header, headers)?;
    if index == 0 {
        return Some(&[]);
    }
    let names = headers.get(index)?;
    bytes_of_section(bytes, &names)
}

/// Returns the string table of section names: no bytes where there are no sections. Returns None where the
/// section that should hold it does not exist, or its bytes are out of the file's range.
#[tactic(auto, using(elf_format::proofs::SectionLemmas::length_sections, elf_format::proofs::SectionLemmas::no_names))]
pub fn read_section_names<'a, C: ElfClass>(
    bytes: &'a [u8],
    header: &C::FileHeader,
    headers: &Records<'a, C::SectionHeader>,
) -> Option<&'a [u8]>
    requires header { C.FileHeader.contents header.now ≡ file_header C.class bytes.now }
    requires headers { headers.now ≡ sections C.class bytes.now }
    ensures { MatchOption result (has_section_names C.class bytes.now ≡ false) (λ names. (has_section_names C.class bytes.now ≡ true) × (names.now ≡ unwrap_or (name_table C.class bytes.now) [])) }
{
    if headers.len() == 0 {
        return Some(&[]);
    }
    read_name_table::<C>(bytes, header, headers)
}
