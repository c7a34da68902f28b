//! The rule on symbol tables, their string tables and their tables of section indexes (gABI, Symbol Table).

ghost use Rattle.std.specs.Prelude.{◌≡◌, ◌<◌, slice_get};
ghost use Rattle.elf_format.specs.Section.{sections, section_bytes};
ghost use Rattle.elf_format.specs.Symbol.{holds_whole, links_to_strings, is_well_formed_symbol_table, is_well_formed_index_table, has_type};
ghost use Rattle.elf_format.specs.Fault.{has_symbols};

use crate::index_entry::IndexEntry;
use crate::section::bytes_of_section;
use elf_words::{
    ElfClass, Record, Records, SHT_DYNSYM, SHT_STRTAB, SHT_SYMTAB, SHT_SYMTAB_SHNDX,
    SectionHeaderFields,
};

/// Returns whether a section's bytes are within the file and are whole records of `size` bytes.
pub fn holds_whole_records<H: SectionHeaderFields>(bytes: &[u8], header: &H, size: usize) -> bool
    requires { 0 < size }
    ensures { result ≡ holds_whole size (section_bytes H.class bytes.now (H.contents header.now)) }
{
    match bytes_of_section(bytes, header) {
        Some(found) => found.len() % size == 0,
        None => false,
    }
}

/// Returns whether a link is 0, or the index of a string table whose bytes are within the file.
fn has_strings<'a, C: ElfClass>(
    bytes: &'a [u8],
    headers: &Records<'a, C::SectionHeader>,
    link: u32,
) -> bool
    requires { headers.now ≡ sections C.class bytes.now }
    ensures { result ≡ links_to_strings C.class bytes.now link }
{
    if link == 0 {
        return true;
    }
    match headers.get(link as usize) {
        Some(strings) => strings.sh_type() == SHT_STRTAB
            && bytes_of_section(bytes, &strings).is_some(),
        None => false,
    }
}

/// Returns the type of the section that holds the symbols: SHT_DYNSYM of a dynamic file, else SHT_SYMTAB.
pub fn symbol_table_type(is_dynamic: bool) -> u32
    ensures { result ≡ Rattle.elf_format.specs.Symbol.symbol_table_type is_dynamic }
{
    if is_dynamic { SHT_DYNSYM } else { SHT_SYMTAB }
}

/// Returns whether a section is no symbol table, or holds whole symbols and is linked to a string table.
fn is_symbol_table_well_formed<'a, C: ElfClass>(
    bytes: &'a [u8],
    is_dynamic: bool,
    headers: &Records<'a, C::SectionHeader>,
    header: &C::SectionHeader,
) -> bool
    requires { headers.now ≡ sections C.class bytes.now }
    ensures { result ≡ is_well_formed_symbol_table C.class is_dynamic bytes.now (C.SectionHeader.contents header.now) }
{
    header.sh_type() != symbol_table_type(is_dynamic)
        || holds_whole_records(bytes, header, C::Sym::SIZE)
            && has_strings::<C>(bytes, headers, header.sh_link())
}

/// Returns whether a section is no table of section indexes of the symbols, or holds whole entries.
fn is_index_table_well_formed<'a, C: ElfClass>(
    bytes: &'a [u8],
    is_dynamic: bool,
    headers: &Records<'a, C::SectionHeader>,
    header: &C::SectionHeader,
) -> bool
    requires { headers.now ≡ sections C.class bytes.now }
    ensures { result ≡ is_well_formed_index_table C.class is_dynamic bytes.now (C.SectionHeader.contents header.now) }
{
    if header.sh_type() != SHT_SYMTAB_SHNDX {
        return true;
    }
    match headers.get(header.sh_link() as usize) {
        Some(table) => {
            table.sh_type() != symbol_table_type(is_dynamic)
                || holds_whole_records(bytes, header, IndexEntry::SIZE)
        }
        None => true,
    }
}

/// Returns whether each symbol table and each table of section indexes is well formed.
#[tactic(auto, unfolding(elf_format::specs::Fault::has_symbols))]
pub fn are_symbols_well_formed<'a, C: ElfClass>(
    bytes: &'a [u8],
    is_dynamic: bool,
    headers: &Records<'a, C::SectionHeader>,
) -> bool
    requires { headers.now ≡ sections C.class bytes.now }
    ensures { result ≡ has_symbols C.class is_dynamic bytes.now }
{
    for header in headers.iter() {
        if !is_symbol_table_well_formed::<C>(bytes, is_dynamic, headers, &header)
            || !is_index_table_well_formed::<C>(bytes, is_dynamic, headers, &header)
        {
            return false;
        }
    }
    true
}
