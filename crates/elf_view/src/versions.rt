//! The versions of a file's symbols (GNU symbol versioning; LSB, Symbol Versioning): the chains of version definitions and
//! of needed versions, the names of versions, and a symbol's name with its version. Of the sections of a type the last
//! is used.

ghost use Rattle.std.specs.Prelude.{◌≡◌, IfOk, IfErr, IfSome, MatchResult, Ok, [], slice_get, option_map, option_and_then, unwrap_or};
ghost use Rattle.std.specs.Result.{result_ok, result_err};
ghost use Rattle.elf_format.specs.Bytes.{get};
ghost use Rattle.elf_format.specs.Class.{sh_info};
ghost use Rattle.elf_format.specs.Section.{section_bytes};
ghost use Rattle.elf_format.specs.SectionType.{sht_gnu_verdef, sht_gnu_verneed};
ghost use Rattle.elf_format.specs.Symbol.{symbol_name};
ghost use Rattle.elf_format.specs.Version.{version_bytes, version_count, version_link, version_strings, version_definitions, version_needs};
ghost use Rattle.elf_format.specs.Version as version;
ghost use Rattle.elf_format.specs.VersionChain.{headed_from};
ghost use Rattle.elf_format.specs.VersionName.{version_names, needed_names, definition_name, needed_name, name_in_either};
ghost use Rattle.elf_format.specs.VersionName as named;
ghost use Rattle.elf_versions.specs.Cause.{IsVersionFault};
ghost use Rattle.elf_view.specs.SymbolVersion.{versioned_by};
ghost use Rattle.elf_format.specs.declared.error.ElfError.TheVariants.{SymbolTable};

use crate::file::File;
use elf_format::ElfError;
use elf_sections::{bytes_of_section, find_version_section, strings_of_link};
use elf_tables::{Verdef, Verneed};
use elf_versions::{
    ChainHead, HeadChain, RawSymbolName, VerdefIter, VerneedIter, VerneedTable, VersionError,
    VersionNames, version_text,
};
use elf_words::{
    ElfClass, SHT_GNU_VERDEF, SHT_GNU_VERNEED, SectionHeaderFields, SectionIndex, SymbolIndex,
};
use std::alloc::{AllocError, Global};

/// What the section of versions of a type holds; nothing without such a section.
#[derive(Drop)]
struct VersionRecords<'a, H: ChainHead> {
    /// The chain of records in it.
    records: HeadChain<'a, H>,
    /// The most records of the chain (`sh_info`).
    count: u32,
    /// The strings of the records (`sh_link`).
    strings: &'a [u8],
}

/// Returns the chain of records in a section of versions.
fn chain_in<'a, S: SectionHeaderFields, H: ChainHead>(
    bytes: &'a [u8],
    header: &S,
) -> HeadChain<'a, H>
    ensures { result ≡ headed_from H.head_form (unwrap_or (section_bytes S.class bytes.now (S.contents header.now)) []) (get (sh_info S.class) (S.contents header.now)) 0 }
{
    HeadChain::new(
        bytes_of_section(bytes, header).unwrap_or(&[]),
        header.sh_info(),
    )
}

impl<'a, C: ElfClass> File<'a, C> {
    /// Returns the chain in the section of versions of a type, and the index of the section that has its strings, or None
    /// without such a section.
    #[tactic(auto, unfolding(elf_format::specs::Version::version_bytes, elf_format::specs::Version::version_count, elf_format::specs::Version::version_link))]
    fn version_chain<H: ChainHead>(
        &self,
        section_type: u32,
    ) -> Option<(HeadChain<'a, H>, SectionIndex)>
        ensures link { option_map (λ found. found.1.0) result ≡ version_link C.class section_type self.now.bytes }
        ensures records { IfSome result (λ found. found.0 ≡ headed_from H.head_form (version_bytes C.class section_type self.now.bytes) (version_count C.class section_type self.now.bytes) 0) }
    {
        let header = find_version_section::<C>(self.bytes, &self.headers, section_type)?;
        let records = chain_in(self.bytes, &header);
        Some((records, SectionIndex(header.sh_link() as usize)))
    }

    /// Returns what the section of versions of a type holds.
    #[tactic(auto, unfolding(elf_format::specs::Version::version_bytes, elf_format::specs::Version::version_count, elf_format::specs::Version::version_link, elf_format::specs::Version::version_strings))]
    fn version_records<H: ChainHead>(&self, section_type: u32) -> VersionRecords<'a, H>
        ensures records { result.records ≡ headed_from H.head_form (version_bytes C.class section_type self.now.bytes) (version_count C.class section_type self.now.bytes) 0 }
        ensures count { result.count ≡ version_count C.class section_type self.now.bytes }
        ensures strings { result.strings.now ≡ version_strings C.class section_type self.now.bytes }
    {
        match find_version_section::<C>(self.bytes, &self.headers, section_type) {
            Some(header) => VersionRecords {
                records: chain_in(self.bytes, &header),
                count: header.sh_info(),
                strings: strings_of_link(self.bytes, &self.headers, header.sh_link()),
            },
            None => VersionRecords {
                records: HeadChain::new(&[], 0),
                count: 0,
                strings: strings_of_link(self.bytes, &self.headers, 0),
            },
        }
    }

    /// Iterates over the version definitions, each with its names, and returns the index of the section that has their
    /// strings (`sh_link`). None exactly where the file has no section of type SHT_GNU_VERDEF. A record that is truncated
    /// yields `VersionTable`, and is the last item.
    #[tactic(auto, unfolding(elf_format::specs::Version::version_definitions))]
    pub fn verdef(&self) -> Option<(VerdefIter<'a>, SectionIndex)>
        ensures link { option_map (λ found. found.1.0) result ≡ version_link C.class sht_gnu_verdef self.now.bytes }
        ensures definitions { IfSome result (λ found. found.0 ≡ version_definitions C.class self.now.bytes) }
    {
        self.version_chain::<Verdef>(SHT_GNU_VERDEF)
    }

    /// Iterates over the files from which the file needs versions, each with those versions, and returns the index of the
    /// section that has their strings (`sh_link`). None exactly where the file has no section of type SHT_GNU_VERNEED. A
    /// record that is truncated yields `VersionTable`, and is the last item.
    #[tactic(auto, unfolding(elf_format::specs::Version::version_needs))]
    pub fn verneed(&self) -> Option<(VerneedIter<'a>, SectionIndex)>
        ensures link { option_map (λ found. found.1.0) result ≡ version_link C.class sht_gnu_verneed self.now.bytes }
        ensures needs { IfSome result (λ found. found.0 ≡ version_needs C.class self.now.bytes) }
    {
        self.version_chain::<Verneed>(SHT_GNU_VERNEED)
    }

    /// Returns the names of the version definitions by their indexes, from 0 to `verdefnum`, at most 65536. The error is
    /// that of the first malformed definition: `Elf` with `VersionTable`, it is truncated, has no name, or its name is
    /// unreadable; `BadIndex`, its index is above `verdefnum`. `NoMemory` comes where an allocation fails.
    #[tactic(auto, unfolding(elf_format::specs::Version::version_definitions))]
    pub fn get_version_names(&self, alloc: Global) -> Result<VersionNames<'a>, VersionError>
        ensures { MatchResult result (λ names. version_names (version_count C.class sht_gnu_verdef self.now.bytes) (version_strings C.class sht_gnu_verdef self.now.bytes) (version_definitions C.class self.now.bytes) ≡ Ok names) (IsVersionFault (result_err (version_names (version_count C.class sht_gnu_verdef self.now.bytes) (version_strings C.class sht_gnu_verdef self.now.bytes) (version_definitions C.class self.now.bytes)))) }
    {
        let definitions = self.version_records::<Verdef>(SHT_GNU_VERDEF);
        VersionNames::new(
            alloc,
            definitions.count,
            definitions.strings,
            definitions.records,
        )
    }

    /// Returns a symbol's name with the version that the record at the symbol's `index` has, by the names of
    /// `get_version_names`. The version is the default one where it is not hidden. Without such a record the name has no
    /// version, and is the default one. The error is `SymbolTable`, exactly where the name is unreadable.
    pub fn get_symbol_name_and_version(
        &self,
        symbol: &C::Sym,
        index: usize,
        names: &VersionNames<'a>,
    ) -> Result<RawSymbolName<'a>, ElfError>
        ensures found { result_ok result ≡ option_map (versioned_by names.now (slice_get (version.symbol_versions C.class self.now.bytes) index)) (symbol_name C.class self.now.is_dynamic self.now.bytes (C.Sym.contents symbol.now)) }
        ensures error { IfErr result (λ e. e ≡ SymbolTable) }
    {
        let name = self.symbol_name(symbol)?;
        match self.versions.get(index) {
            Some(versym) => Ok(RawSymbolName {
                name,
                version_name: names.get(usize::from(versym.index())),
                is_default: !versym.is_hidden(),
            }),
            None => Ok(RawSymbolName {
                name,
                version_name: None,
                is_default: true,
            }),
        }
    }

    /// Returns the table of the versions that the symbols need, by their version records. The error is `Elf` with
    /// `VersionTable`, exactly where a record is truncated or the name of a needed version is unreadable.
    /// `NoMemory` comes where an allocation fails.
    #[tactic(auto, unfolding(elf_format::specs::Version::version_needs))]
    pub fn verneed_table(&self, alloc: Global) -> Result<VerneedTable<'a>, VersionError>
        ensures { MatchResult result (λ table. needed_names (version.symbol_versions C.class self.now.bytes) (version_strings C.class sht_gnu_verneed self.now.bytes) (version_needs C.class self.now.bytes) ≡ Ok table) (IsVersionFault (result_err (needed_names (version.symbol_versions C.class self.now.bytes) (version_strings C.class sht_gnu_verneed self.now.bytes) (version_needs C.class self.now.bytes)))) }
    {
        let needs = self.version_records::<Verneed>(SHT_GNU_VERNEED);
        VerneedTable::new(alloc, self.versions.iter(), needs.strings, needs.records)
    }

    /// Returns the text of a symbol's version: `@` where it is hidden, else `@@`, and the first name of its index in the
    /// version definitions or, where these have none, in the needed versions. None where the symbol has no version record,
    /// where neither has a name for its index, and where a record up to it or the name itself is unreadable. The error is
    /// an allocation failure.
    #[tactic(auto, unfolding(elf_format::specs::Version::version_definitions, elf_format::specs::Version::version_needs))]
    pub fn symbol_version_debug(
        &self,
        alloc: Global,
        symbol: SymbolIndex,
    ) -> Result<Option<Vec<u8>>, AllocError>
        ensures { IfOk result (λ text. option_map (λ v. v.items) text ≡ named.version_text (λ index. name_in_either (definition_name (version_strings C.class sht_gnu_verdef self.now.bytes) index (version_definitions C.class self.now.bytes)) (needed_name (version_strings C.class sht_gnu_verneed self.now.bytes) index (version_needs C.class self.now.bytes))) (slice_get (version.symbol_versions C.class self.now.bytes) symbol.0)) }
    {
        let definitions = self.version_records::<Verdef>(SHT_GNU_VERDEF);
        let needs = self.version_records::<Verneed>(SHT_GNU_VERNEED);
        version_text(
            alloc,
            self.versions.get(symbol.0),
            definitions.records,
            definitions.strings,
            needs.records,
            needs.strings,
        )
    }
}
