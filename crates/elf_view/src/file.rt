//! A well-formed ELF file and the views of it (gABI, ELF Header, Sections, Symbol Table, Relocation). Its bytes
//! keep the rules on header, machine, section headers, symbol tables and versions. Contracts see a file as its
//! bytes and whether it was parsed as a dynamic one.

ghost use Rattle.std.specs.Prelude.{◌≡◌, ℕ, true, MatchResult, None, Some, IfOk, IfErr, IfSome, length, ◌*◌, ◌<◌, ◌≤◌, ◌^◌, slice_get, option_map, option_copied, option_and_then};
ghost use Rattle.std.specs.List.{enumerate_from};
ghost use Rattle.std.specs.Result.{result_ok, result_err};
ghost use Rattle.elf_format.specs.Architecture.{architecture_of};
ghost use Rattle.elf_format.specs.Bytes.{get};
ghost use Rattle.elf_format.specs.Class.{e_machine, e_flags};
ghost use Rattle.elf_format.specs.Section.{file_header, sections, section_bytes, section_name, section_of_name, is_name};
ghost use Rattle.elf_format.specs.Symbol.{symbols, section_of_symbol};
ghost use Rattle.elf_format.specs.Fault.{class_of, fault};
ghost use Rattle.elf_format.specs.Cursor.{Returns};
ghost use Rattle.elf_relocs.specs.Lists.{listing_of_list};
ghost use Rattle.elf_view.specs.SymbolSection.{IsSymbolSection};
ghost use Rattle.elf_view.specs.Relocation.{has_targets, relocation_section, relocation_entry, listed_by};
ghost use Rattle.elf_view.specs.RelocFault.{IsRelocFault};
ghost use Rattle.elf_view.specs.SectionData.{plain_bytes, data_fault};
ghost use Rattle.elf_format.specs.declared.error.ElfError.TheVariants.{SectionTable, SectionData, SymbolIndex as MissingSymbol};

use crate::enumerate::{RecordEnum, SectionEnum};
use crate::reloc_error::RelocError;
use crate::relocation_list::{list_of_section, no_relocations};
use crate::relocation_sections::RelocationSections;
use elf_format::{Architecture, ElfError};
use elf_records64::Class64;
use elf_relocs::RelocationList;
use elf_sections::{
    IndexEntry, are_symbols_well_formed, are_versions_well_formed, bytes_of_section,
    find_symbol_table, is_string_at, read_header, read_section_headers, read_section_indexes,
    read_section_names, read_symbol_strings, read_symbol_versions, read_symbols,
};
use elf_tables::Versym;
use elf_versions::string_at;
use elf_words::{
    ElfClass, FileHeaderFields, Record, Records, SHF_COMPRESSED, SHN_LORESERVE, SHN_XINDEX,
    SectionHeaderFields, SectionIndex, SymFields, SymbolIndex,
};
use std::alloc::Global;
use std::marker::Model;

/// Iterator over a file's section headers, from index 0 on.
pub type SectionIter<'a, C> = Records<'a, <C as ElfClass>::SectionHeader>;

/// A well-formed file of ELFCLASS64.
pub type File64<'a> = File<'a, Class64>;

/// A list of relocations of a file of ELFCLASS64.
pub type RelocationList64<'a> = RelocationList<'a, Class64>;

/// A well-formed file of a class.
#[derive(Drop)]
pub struct File<'a, C: ElfClass> {
    pub(crate) bytes: &'a [u8],
    pub(crate) is_dynamic: bool,
    architecture: Architecture,
    pub(crate) headers: Records<'a, C::SectionHeader>,
    pub(crate) names: &'a [u8],
    pub(crate) symbols: Records<'a, C::Sym>,
    section_indexes: Records<'a, IndexEntry>,
    pub(crate) strings: &'a [u8],
    pub(crate) versions: Records<'a, Versym>,
}

impl<'a, C: ElfClass> Model for File<'a, C> {
    ghost use Rattle.elf_view.specs.Parsed.{Parsed, IsParsed};

    ghost Value = { Parsed };

    ghost view = { λ f. record { bytes = f.bytes.now; is_dynamic = f.is_dynamic } };

    ghost invariant = { λ f. IsParsed C.class f.is_dynamic f.bytes.now f.architecture f.headers f.names.now f.symbols f.section_indexes f.strings.now f.versions };
}

impl<'a, C: ElfClass> File<'a, C> {
    /// Parses bytes as a file of the class `C`. Of a dynamic file the symbols are those of SHT_DYNSYM, else those
    /// of SHT_SYMTAB. The error is that of the first rule that the bytes break, in this order: `Header`,
    /// `Machine`, `SectionTable`, `SymbolTable`, `VersionTable`. No memory is taken.
    #[tactic(auto, unfolding(elf_format::specs::Fault::fault, elf_format::specs::Fault::has_machine))]
    pub fn parse_bytes(bytes: &'a [u8], is_dynamic: bool) -> Result<Self, ElfError>
        ensures fault { result_err result ≡ fault C.class is_dynamic bytes.now }
        ensures file { IfOk result (λ f. f ≡ record { bytes = bytes.now; is_dynamic = is_dynamic }) }
    {
        let header = read_header::<C>(bytes).ok_or(ElfError::Header)?;
        let architecture = Architecture::from_machine(header.e_machine()).ok_or(ElfError::Machine)?;
        let headers = read_section_headers::<C>(bytes, &header).ok_or(ElfError::SectionTable)?;
        let names = read_section_names::<C>(bytes, &header, &headers).ok_or(
            ElfError::SectionTable,
        )?;
        if !are_symbols_well_formed::<C>(bytes, is_dynamic, &headers) {
            return Err(ElfError::SymbolTable);
        }
        if !are_versions_well_formed::<C>(bytes, &headers) {
            return Err(ElfError::VersionTable);
        }
        let table = find_symbol_table::<C>(bytes, is_dynamic, &headers);
        let symbols = read_symbols::<C>(bytes, is_dynamic, table);
        let section_indexes = read_section_indexes::<C>(bytes, is_dynamic, &headers, table);
        let strings = read_symbol_strings::<C>(bytes, is_dynamic, &headers, table);
        let versions = read_symbol_versions::<C>(bytes, &headers);
        Ok(File {
            bytes,
            is_dynamic,
            architecture,
            headers,
            names,
            symbols,
            section_indexes,
            strings,
            versions,
        })
    }

    /// Returns all bytes of the file.
    pub fn bytes(&self) -> &'a [u8]
        ensures { result.now ≡ self.now.bytes }
    {
        self.bytes
    }

    /// Returns whether the file was parsed as a dynamic one.
    pub fn is_dynamic(&self) -> bool
        ensures { result ≡ self.now.is_dynamic }
    {
        self.is_dynamic
    }

    /// Reports, by its clauses alone, that the file has no fault and that its bytes name its class.
    pub fn well_formed(&self)
        ensures sound { fault C.class self.now.is_dynamic self.now.bytes ≡ None }
        ensures class { class_of self.now.bytes ≡ Some C.class }
    {
        // A field is read, so that the proof has what each file keeps.
        let _read = self.is_dynamic;
    }

    /// Returns the machine that the file is for (`e_machine`).
    pub fn arch(&self) -> Architecture
        ensures { architecture_of (get (e_machine C.class) (file_header C.class self.now.bytes)) ≡ Some result }
    {
        self.architecture
    }

    /// Returns the file header.
    #[tactic(auto, using(crate::proofs::ClassNames::has_whole_header))]
    pub(crate) fn header(&self) -> C::FileHeader
        ensures { C.FileHeader.contents result ≡ file_header C.class self.now.bytes }
    {
        read_header::<C>(self.bytes).unwrap()
    }

    /// Returns the flags of the machine (`e_flags`).
    pub fn eflags(&self) -> u32
        ensures { result ≡ get (e_flags C.class) (file_header C.class self.now.bytes) }
    {
        self.header().e_flags()
    }

    /// Returns the number of sections, the null section at index 0 included.
    pub fn num_sections(&self) -> usize
        ensures { result ≡ length (sections C.class self.now.bytes) }
    {
        self.headers.len()
    }

    /// Iterates over the section headers, from index 0 on.
    pub fn section_iter(&self) -> SectionIter<'a, C>
        ensures sections { result ≡ sections C.class self.now.bytes }
        ensures bound { length result < 2 ^ 64 }
    {
        self.headers.iter()
    }

    /// Iterates over the section headers with their indexes, from index 0 on. Each header takes at least 40 bytes
    /// of the file, which bounds their number.
    #[tactic(auto, using(crate::proofs::SectionsFit::sections_fit))]
    pub fn enumerate_sections(&self) -> SectionEnum<'a, C>
        ensures sections { result ≡ enumerate_from 0 (sections C.class self.now.bytes) }
        ensures fit { 40 * length (sections C.class self.now.bytes) ≤ length self.now.bytes }
    {
        RecordEnum::new(self.headers.iter())
    }

    /// Returns the section header at an index. The error is `SectionTable`, exactly where the index is not below
    /// the count of sections.
    pub fn section(&self, index: SectionIndex) -> Result<C::SectionHeader, ElfError>
        ensures found { option_map C.SectionHeader.contents (result_ok result) ≡ slice_get (sections C.class self.now.bytes) index.0 }
        ensures error { IfErr result (λ e. e ≡ SectionTable) }
    {
        self.headers.get(index.0).ok_or(ElfError::SectionTable)
    }

    /// Returns a section's bytes as they stand in the file. A section of type NOBITS or of size 0 has none. The
    /// error is `SectionData`, exactly where the bytes are out of the file's range.
    pub fn raw_section_data(&self, section: &C::SectionHeader) -> Result<&'a [u8], ElfError>
        ensures found { option_copied (result_ok result) ≡ section_bytes C.class self.now.bytes (C.SectionHeader.contents section.now) }
        ensures error { IfErr result (λ e. e ≡ SectionData) }
    {
        bytes_of_section(self.bytes, section).ok_or(ElfError::SectionData)
    }

    /// Returns a section's bytes where they are not compressed. The error is `SectionData` exactly where the bytes
    /// are out of the file's range, else `Compressed` exactly where `sh_flags` has SHF_COMPRESSED.
    pub fn section_data(&self, section: &C::SectionHeader) -> Result<&'a [u8], ElfError>
        ensures data { option_copied (result_ok result) ≡ plain_bytes C.class self.now.bytes (C.SectionHeader.contents section.now) }
        ensures fault { result_err result ≡ data_fault C.class self.now.bytes (C.SectionHeader.contents section.now) }
    {
        let bytes = self.raw_section_data(section)?;
        if section.sh_flags() & SHF_COMPRESSED != 0 {
            return Err(ElfError::Compressed);
        }
        Ok(bytes)
    }

    /// Returns the name of the section at an index, without its zero byte. The error is `SectionTable`, exactly
    /// where there is no such section or its name is not in the string table of section names.
    #[tactic(auto, using(elf_format::proofs::SectionLemmas::string_in_table), unfolding(elf_format::specs::Section::section_name))]
    pub fn section_name(&self, index: SectionIndex) -> Result<&'a [u8], ElfError>
        ensures found { option_copied (result_ok result) ≡ option_and_then (section_name C.class self.now.bytes) (slice_get (sections C.class self.now.bytes) index.0) }
        ensures error { IfErr result (λ e. e ≡ SectionTable) }
    {
        let header = self.section(index)?;
        string_at(self.names, header.sh_name() as usize).ok_or(ElfError::SectionTable)
    }

    /// Returns whether a section has a readable name and it equals `name`.
    #[tactic(auto, using(elf_format::proofs::SectionLemmas::string_in_table), unfolding(elf_format::specs::Section::section_name))]
    fn is_named(&self, header: &C::SectionHeader, name: &[u8]) -> bool
        ensures { result ≡ is_name name.now (section_name C.class self.now.bytes (C.SectionHeader.contents header.now)) }
    {
        is_string_at(self.names, header.sh_name() as usize, name)
    }

    /// Returns whether there is a section at an index whose name is readable and equals `name`. At most
    /// `name.len() + 1` bytes of the string table are read, however long the section's name is.
    pub fn has_name(&self, index: SectionIndex, name: &[u8]) -> bool
        ensures { result ≡ is_name name.now (option_and_then (section_name C.class self.now.bytes) (slice_get (sections C.class self.now.bytes) index.0)) }
    {
        match self.section(index) {
            Ok(header) => self.is_named(&header, name),
            Err(_) => false,
        }
    }

    /// Returns the first section whose name is readable and equals `name`, with its index, or None where there is
    /// none.
    #[tactic(auto, using(elf_format::proofs::SearchLemmas::position_is_from, elf_format::proofs::SearchLemmas::rest_after, elf_format::proofs::SearchLemmas::item_at_front), unfolding(elf_format::specs::Section::section_of_name))]
    pub fn section_by_name(&self, name: &str) -> Option<(SectionIndex, C::SectionHeader)>
        ensures index { option_map (λ found. found.0.0) result ≡ section_of_name C.class self.now.bytes name.now }
        ensures header { IfSome result (λ found. slice_get (sections C.class self.now.bytes) found.0.0 ≡ Some (C.SectionHeader.contents found.1)) }
    {
        for (index, header) in self.headers.iter().enumerate() {
            if self.is_named(&header, name.as_bytes()) {
                return Some((SectionIndex(index), header));
            }
        }
        None
    }

    /// Returns the number of symbols, the null symbol at index 0 included.
    pub fn num_symbols(&self) -> usize
        ensures { result ≡ length (symbols C.class self.now.is_dynamic self.now.bytes) }
    {
        self.symbols.len()
    }

    /// Returns the symbol at an index. The error is `SymbolIndex`, exactly where the index is not below the count
    /// of symbols.
    pub fn symbol(&self, index: SymbolIndex) -> Result<C::Sym, ElfError>
        ensures found { option_map C.Sym.contents (result_ok result) ≡ slice_get (symbols C.class self.now.is_dynamic self.now.bytes) index.0 }
        ensures error { IfErr result (λ e. e ≡ MissingSymbol) }
    {
        self.symbols.get(index.0).ok_or(ElfError::SymbolIndex)
    }

    /// Returns the index of the section that a symbol is defined in, or None for an undefined, absolute or common
    /// symbol. Where `st_shndx` is SHN_XINDEX, the table of section indexes has the section's index at the symbol's
    /// `index`. The error is `SymbolIndex`, exactly where that entry is missing.
    #[tactic(auto, unfolding(elf_format::specs::Symbol::section_of_symbol))]
    pub fn symbol_section(
        &self,
        symbol: &C::Sym,
        index: SymbolIndex,
    ) -> Result<Option<SectionIndex>, ElfError>
        ensures { IsSymbolSection (section_of_symbol C.class self.now.is_dynamic self.now.bytes (C.Sym.contents symbol.now) index.0) result }
    {
        let section = match symbol.st_shndx() {
            section @ 0..SHN_LORESERVE => usize::from(section),
            SHN_XINDEX => match self.section_indexes.get(index.0) {
                Some(entry) => entry.index(),
                None => return Err(ElfError::SymbolIndex),
            },
            _ => 0,
        };
        if section == 0 {
            return Ok(None);
        }
        Ok(Some(SectionIndex(section)))
    }

    /// Maps each section to the first section of type RELA, REL or CREL that is linked to the symbol table and
    /// whose `sh_info` is its index. A file without a symbol table has none. The error is
    /// `Elf(RelocationTable)`, exactly where the `sh_info` of such a section is not below the count of sections,
    /// or `NoMemory` where an allocation fails.
    #[tactic(auto, unfolding(crate::specs::Relocation::relocation_section, crate::specs::Relocation::has_targets))]
    pub fn parse_relocations(&self, alloc: Global) -> Result<RelocationSections, RelocError>
        ensures { MatchResult result (λ found. (has_targets C.class self.now.is_dynamic self.now.bytes ≡ true) × ((target : ℕ) → relocation_entry found target ≡ relocation_section C.class self.now.is_dynamic self.now.bytes target)) (IsRelocFault (has_targets C.class self.now.is_dynamic self.now.bytes)) }
    {
        let Some((table, _)) = find_symbol_table::<C>(self.bytes, self.is_dynamic, &self.headers)
        else {
            return Ok(RelocationSections::none(alloc));
        };
        RelocationSections::gather(alloc, self.bytes, &self.headers, table)
    }

    /// Returns the list of relocations of the section at an index, from the section that holds them by `sections`.
    /// The list is empty where there is none, or its type is neither RELA nor CREL. The error is `SectionData`
    /// where that section's bytes are out of the file's range, and `RelocationTable` where the file has no such
    /// section, its bytes are no whole RELA records, or its CREL header is malformed. Malformed CREL records are
    /// errors of the list, after the records before them.
    pub fn relocations(
        &self,
        index: SectionIndex,
        sections: &RelocationSections,
    ) -> Result<RelocationList<'a, C>, ElfError>
        ensures { Returns listing_of_list result (listed_by C.class self.now.bytes (relocation_entry sections.now index.0)) }
    {
        let Some(holder) = sections.get(index.0) else {
            return no_relocations::<C>();
        };
        let Some(header) = self.headers.get(holder.0) else {
            return Err(ElfError::RelocationTable);
        };
        list_of_section::<C>(self.bytes, &header)
    }
}
