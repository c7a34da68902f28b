//! The section groups of a file, each checked (gABI, Section Groups).

ghost use Rattle.std.specs.Prelude.{◌≡◌, MatchResult, not, is_none, map, option_map, Ok};
ghost use Rattle.std.specs.Result.{result_err};
ghost use Rattle.elf_format.specs.Group as group;
ghost use Rattle.elf_format.specs.Group.{is_table_at, section_group, signature};
ghost use Rattle.elf_format.specs.Symbol.{symbol_table};
ghost use Rattle.elf_view.specs.GroupFault.{IsGroupFault, shown_group};

use crate::file::File;
use crate::group::{SectionGroup, group_of, read_words};
use crate::group_error::GroupError;
use elf_format::ElfError;
use elf_sections::find_symbol_table;
use elf_words::{ElfClass, Record, SectionHeaderFields, SectionIndex, SymbolIndex};
use std::alloc::Global;

/// Returns whether a link is the index of the symbol table.
fn is_linked<H: Record>(table: Option<(usize, H)>, link: u32) -> bool
    ensures { result ≡ is_table_at link (option_map (λ found. (found.0, H.contents found.1)) table) }
{
    match table {
        Some((index, _)) => link as usize == index,
        None => false,
    }
}

impl<'a, C: ElfClass> File<'a, C> {
    /// Returns whether there is a symbol at an index whose name is readable.
    fn has_signature(&self, symbol: usize) -> bool
        ensures { result ≡ not (is_none (signature C.class self.now.is_dynamic self.now.bytes symbol)) }
    {
        match self.symbol(SymbolIndex(symbol)) {
            Ok(found) => self.symbol_name(&found).is_ok(),
            Err(_) => false,
        }
    }

    /// Reads the group in the section with an index and a header, by the file's symbol table.
    #[tactic(auto, unfolding(elf_format::specs::Group::section_group))]
    fn read_group(
        &self,
        table: Option<(usize, C::SectionHeader)>,
        index: usize,
        header: &C::SectionHeader,
    ) -> Result<SectionGroup<'a>, GroupError>
        requires { option_map (λ found. (found.0, C.SectionHeader.contents found.1)) table ≡ symbol_table C.class self.now.is_dynamic self.now.bytes }
        ensures { MatchResult result (λ g. section_group C.class self.now.is_dynamic self.now.bytes (index, C.SectionHeader.contents header.now) ≡ Ok (shown_group g)) (IsGroupFault (result_err (section_group C.class self.now.is_dynamic self.now.bytes (index, C.SectionHeader.contents header.now)))) }
    {
        let group = SectionIndex(index);
        if !is_linked(table, header.sh_link()) {
            return Err(GroupError::OtherSymbolTable { group });
        }
        let symbol = header.sh_info() as usize;
        if !self.has_signature(symbol) {
            return Err(GroupError::BadSignature { group });
        }
        let Ok(words) = read_words(self.bytes, header) else {
            return Err(GroupError::Elf(ElfError::SectionData));
        };
        group_of(self.bytes, &self.headers, index, symbol, words)
    }

    /// Returns the section groups, one for each section of type SHT_GROUP, in the order of the sections. `members` of a
    /// group borrows the file's bytes.
    ///
    /// The error is the first, group by group. Of a group it is, in this order: `OtherSymbolTable`, its `sh_link` is not
    /// the symbol table; `BadSignature`, its `sh_info` is no symbol, or the name of that symbol is unreadable; `Elf` with
    /// `SectionData`, its bytes are out of the file's range or are no whole words; `EmptyGroup`, it has no flags;
    /// `UnsupportedFlags`, its flags are neither 0 nor GRP_COMDAT; then member by member `InvalidMember`, it is section 0,
    /// missing, the group itself or a group, and `MemberLacksFlag`, its flags lack SHF_GROUP. `NoMemory` comes where an
    /// allocation fails.
    #[tactic(auto, using(crate::proofs::GroupLemmas::groups_before, crate::proofs::GroupLemmas::next_group, crate::proofs::GroupLemmas::fault_of_group), unfolding(elf_format::specs::Group::groups))]
    pub fn section_groups(&self, alloc: Global) -> Result<Vec<SectionGroup<'a>>, GroupError>
        ensures { MatchResult result (λ found. group.groups C.class self.now.is_dynamic self.now.bytes ≡ Ok (map shown_group found.items)) (IsGroupFault (result_err (group.groups C.class self.now.is_dynamic self.now.bytes))) }
    {
        let table = find_symbol_table::<C>(self.bytes, self.is_dynamic, &self.headers);
        let mut groups = Vec::new(alloc);
        for (index, header) in self.headers.iter().enumerate() {
            if header.is_group_header() {
                match self.read_group(table, index, &header) {
                    Ok(group) => groups.push(group)?,
                    Err(error) => return Err(error),
                }
            }
        }
        Ok(groups)
    }
}
