//! The symbol table of a file and its table of section indexes (gABI, Symbol Table). Where there are several of a
//! type, the last one is used.

ghost use Rattle.std.specs.Prelude.{◌≡◌, ◌==◌, ◌&&◌, option_map};
ghost use Rattle.std.specs.List.{enumerate_from};
ghost use Rattle.elf_format.specs.Bytes.{get};
ghost use Rattle.elf_format.specs.Class.{sh_type, sh_link};
ghost use Rattle.elf_format.specs.Section.{sections};
ghost use Rattle.elf_format.specs.Symbol.{last_that, symbol_table, index_table, symbols, section_indexes, symbol_strings};

use crate::index_entry::IndexEntry;
use crate::section::{bytes_of_section, strings_of_link};
use crate::symbol::symbol_table_type;
use elf_words::{ElfClass, Record, Records, SHT_SYMTAB_SHNDX, SectionHeaderFields};

/// Returns the last section of a type, with its index.
#[tactic(auto, using(elf_format::proofs::SearchLemmas::or_none, elf_format::proofs::SearchLemmas::or_later))]
pub fn last_of_type<'a, C: ElfClass>(
    headers: &Records<'a, C::SectionHeader>,
    section_type: u32,
) -> Option<(usize, C::SectionHeader)>
    ensures { option_map (λ found. (found.0, C.SectionHeader.contents found.1)) result ≡ last_that (λ s. get (sh_type C.class) s.1 == section_type) (enumerate_from 0 headers.now) }
{
    let mut last = None;
    for (index, header) in headers.iter().enumerate() {
        if header.sh_type() == section_type {
            last = Some((index, header));
        }
    }
    last
}

/// Returns the last section of a type that is linked to the section at an index, with its own index.
#[tactic(auto, using(elf_format::proofs::SearchLemmas::or_none, elf_format::proofs::SearchLemmas::or_later))]
fn last_linked<'a, C: ElfClass>(
    headers: &Records<'a, C::SectionHeader>,
    section_type: u32,
    link: usize,
) -> Option<(usize, C::SectionHeader)>
    ensures { option_map (λ found. (found.0, C.SectionHeader.contents found.1)) result ≡ last_that (λ s. get (sh_type C.class) s.1 == section_type && get (sh_link C.class) s.1 == link) (enumerate_from 0 headers.now) }
{
    let mut last = None;
    for (index, header) in headers.iter().enumerate() {
        if header.sh_type() == section_type && header.sh_link() as usize == link {
            last = Some((index, header));
        }
    }
    last
}

/// Returns the section that holds the symbols, with its index.
#[tactic(auto, unfolding(elf_format::specs::Symbol::symbol_table))]
pub fn find_symbol_table<'a, C: ElfClass>(
    bytes: &'a [u8],
    is_dynamic: bool,
    headers: &Records<'a, C::SectionHeader>,
) -> Option<(usize, C::SectionHeader)>
    requires { headers.now ≡ sections C.class bytes.now }
    ensures { option_map (λ found. (found.0, C.SectionHeader.contents found.1)) result ≡ symbol_table C.class is_dynamic bytes.now }
{
    last_of_type::<C>(headers, symbol_table_type(is_dynamic))
}

/// Returns the symbols, none without a symbol table.
#[tactic(auto, unfolding(elf_format::specs::Symbol::symbols))]
pub fn read_symbols<'a, C: ElfClass>(
    bytes: &'a [u8],
    is_dynamic: bool,
    table: Option<(usize, C::SectionHeader)>,
) -> Records<'a, C::Sym>
    requires { option_map (λ found. (found.0, C.SectionHeader.contents found.1)) table ≡ symbol_table C.class is_dynamic bytes.now }
    ensures { result ≡ symbols C.class is_dynamic bytes.now }
{
    let found = match table {
        Some((_, header)) => bytes_of_section(bytes, &header).unwrap_or(&[]),
        None => &[],
    };
    Records::whole(found)
}

/// Returns the strings that the symbol table is linked to, none without a symbol table.
#[tactic(auto, unfolding(elf_format::specs::Symbol::symbol_strings))]
pub fn read_symbol_strings<'a, C: ElfClass>(
    bytes: &'a [u8],
    is_dynamic: bool,
    headers: &Records<'a, C::SectionHeader>,
    table: Option<(usize, C::SectionHeader)>,
) -> &'a [u8]
    requires headers { headers.now ≡ sections C.class bytes.now }
    requires table { option_map (λ found. (found.0, C.SectionHeader.contents found.1)) table ≡ symbol_table C.class is_dynamic bytes.now }
    ensures { result.now ≡ symbol_strings C.class is_dynamic bytes.now }
{
    let link = match table {
        Some((_, header)) => header.sh_link(),
        None => 0,
    };
    strings_of_link(bytes, headers, link)
}

/// Returns the section that holds the section indexes of the symbols, with its index.
#[tactic(auto, unfolding(elf_format::specs::Symbol::index_table))]
fn find_index_table<'a, C: ElfClass>(
    bytes: &'a [u8],
    is_dynamic: bool,
    headers: &Records<'a, C::SectionHeader>,
    table: Option<(usize, C::SectionHeader)>,
) -> Option<(usize, C::SectionHeader)>
    requires headers { headers.now ≡ sections C.class bytes.now }
    requires table { option_map (λ found. (found.0, C.SectionHeader.contents found.1)) table ≡ symbol_table C.class is_dynamic bytes.now }
    ensures { option_map (λ found. (found.0, C.SectionHeader.contents found.1)) result ≡ index_table C.class is_dynamic bytes.now }
{
    let (index, _) = table?;
    last_linked::<C>(headers, SHT_SYMTAB_SHNDX, index)
}

/// Returns the section indexes of the symbols, none without a table of them.
#[tactic(auto, unfolding(elf_format::specs::Symbol::section_indexes))]
pub fn read_section_indexes<'a, C: ElfClass>(
    bytes: &'a [u8],
    is_dynamic: bool,
    headers: &Records<'a, C::SectionHeader>,
    table: Option<(usize, C::SectionHeader)>,
) -> Records<'a, IndexEntry>
    requires headers { headers.now ≡ sections C.class bytes.now }
    requires table { option_map (λ found. (found.0, C.SectionHeader.contents found.1)) table ≡ symbol_table C.class is_dynamic bytes.now }
    ensures { result ≡ section_indexes C.class is_dynamic bytes.now }
{
    let found = match find_index_table::<C>(bytes, is_dynamic, headers, table) {
        Some((_, header)) => bytes_of_section(bytes, &header).unwrap_or(&[]),
        None => &[],
    };
    Records::whole(found)
}
