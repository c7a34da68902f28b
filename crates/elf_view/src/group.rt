//! Section groups (gABI, Section Groups): a section of type SHT_GROUP holds a word of flags, then the section indexes
//! of the group's members.

ghost use Rattle.std.specs.Prelude.{◌≡◌, MatchResult, IfErr, length, map, slice_get, option_map, Ok, Some};
ghost use Rattle.std.specs.Result.{result_ok, result_err};
ghost use Rattle.elf_format.specs.Bytes.{le};
ghost use Rattle.elf_format.specs.Chain.{each_ok};
ghost use Rattle.elf_format.specs.Group.{member_of, group_words, group_of_words};
ghost use Rattle.elf_format.specs.declared.error.ElfError.TheVariants.{SectionData};
ghost use Rattle.elf_format.specs.Section.{sections, section_bytes};
ghost use Rattle.elf_view.specs.GroupFault.{IsGroupFault, shown_group};

use crate::group_error::GroupError;
use elf_format::ElfError;
use elf_sections::{IndexEntry, bytes_of_section};
use elf_words::{Record, Records, SectionHeaderFields, SectionIndex, SymbolIndex};
use std::marker::Model;

/// The flags of a group of which one definition is kept.
const GRP_COMDAT: u32 = 1;

/// The members of a section group, by the indexes of their sections, in the order of the group.
#[derive(Clone, Drop)]
pub struct MemberView<'a> {
    words: Records<'a, IndexEntry>,
}

impl<'a> Model for MemberView<'a> {
    ghost use Rattle.std.specs.Prelude.{ℕ, List, map};
    ghost use Rattle.elf_format.specs.Bytes.{le};

    ghost Value = { List ℕ };

    ghost view = { λ m. map (λ word. le word 0 4) m.words };
}

impl<'a> MemberView<'a> {
    /// Returns the number of members.
    pub fn len(&self) -> usize
        ensures { result ≡ length self.now }
    {
        self.words.len()
    }

    /// Returns the member at an index from 0, or None exactly where the index is the number of members or more.
    pub fn get(&self, index: usize) -> Option<SectionIndex>
        ensures { option_map (λ s. s.0) result ≡ slice_get self.now index }
    {
        let word = self.words.get(index)?;
        Some(SectionIndex(word.index()))
    }
}

/// A section group.
#[derive(Drop)]
pub struct SectionGroup<'a> {
    /// The index of the group's section.
    pub index: SectionIndex,
    /// The symbol whose name is the group's signature (`sh_info`).
    pub signature_symbol: SymbolIndex,
    /// Whether one definition of the group is kept (GRP_COMDAT).
    pub is_comdat: bool,
    /// The members.
    pub members: MemberView<'a>,
}

/// Checks a member of the group at an index. `InvalidMember` comes where it is section 0, missing, the group itself or
/// a group, else `MemberLacksFlag` where its flags lack SHF_GROUP.
fn check_member<H: SectionHeaderFields>(
    bytes: &[u8],
    headers: &Records<'_, H>,
    group: usize,
    member: usize,
) -> Result<(), GroupError>
    requires { headers.now ≡ sections H.class bytes.now }
    ensures { MatchResult result (λ _. member_of H.class bytes.now group member ≡ Ok member) (IsGroupFault (result_err (member_of H.class bytes.now group member))) }
{
    let invalid = GroupError::InvalidMember {
        group: SectionIndex(group),
        member: SectionIndex(member),
    };
    if member == 0 || member == group {
        return Err(invalid);
    }
    let Some(header) = headers.get(member) else {
        return Err(invalid);
    };
    if header.is_group_header() {
        return Err(invalid);
    }
    if !header.is_group() {
        return Err(GroupError::MemberLacksFlag {
            group: SectionIndex(group),
            member: SectionIndex(member),
        });
    }
    Ok(())
}

/// Checks each member of the group at an index, up to the first error.
#[tactic(auto, using(crate::proofs::GroupLemmas::fault_of_item, crate::proofs::GroupLemmas::members_are))]
fn check_members<H: SectionHeaderFields>(
    bytes: &[u8],
    headers: &Records<'_, H>,
    group: usize,
    members: &Records<'_, IndexEntry>,
) -> Result<(), GroupError>
    requires { headers.now ≡ sections H.class bytes.now }
    ensures { MatchResult result (λ _. each_ok (member_of H.class bytes.now group) (map (λ word. le word 0 4) members.now) ≡ Ok (map (λ word. le word 0 4) members.now)) (IsGroupFault (result_err (each_ok (member_of H.class bytes.now group) (map (λ word. le word 0 4) members.now)))) }
{
    for member in members.iter() {
        if let Err(error) = check_member(bytes, headers, group, member.index()) {
            return Err(error);
        }
    }
    Ok(())
}

/// Returns the words in the bytes of a section. `SectionData` comes where the bytes are out of the file's range or are
/// no whole words.
pub fn read_words<'a, H: SectionHeaderFields>(
    bytes: &'a [u8],
    header: &H,
) -> Result<Records<'a, IndexEntry>, ElfError>
    ensures words { option_map (map (λ word. le word 0 4)) (result_ok result) ≡ group_words (section_bytes H.class bytes.now (H.contents header.now)) }
    ensures error { IfErr result (λ e. e ≡ SectionData) }
{
    let Some(found) = bytes_of_section(bytes, header) else {
        return Err(ElfError::SectionData);
    };
    if found.len() % IndexEntry::SIZE != 0 {
        return Err(ElfError::SectionData);
    }
    Ok(Records::whole(found))
}

/// Returns the group with an index, a signature and words. The errors come in this order: `EmptyGroup`,
/// `UnsupportedFlags`, and those of its members.
#[tactic(auto, using(crate::proofs::GroupLemmas::fault_of_step))]
pub fn group_of<'a, H: SectionHeaderFields>(
    bytes: &'a [u8],
    headers: &Records<'a, H>,
    index: usize,
    signature: usize,
    words: Records<'a, IndexEntry>,
) -> Result<SectionGroup<'a>, GroupError>
    requires { headers.now ≡ sections H.class bytes.now }
    ensures { MatchResult result (λ g. group_of_words H.class bytes.now index signature (Some (map (λ word. le word 0 4) words.entry)) ≡ Ok (shown_group g)) (IsGroupFault (result_err (group_of_words H.class bytes.now index signature (Some (map (λ word. le word 0 4) words.entry))))) }
{
    let mut members = words;
    let group = SectionIndex(index);
    let Some(first) = members.next() else {
        return Err(GroupError::EmptyGroup { group });
    };
    let flags = first.word();
    if flags > GRP_COMDAT {
        return Err(GroupError::UnsupportedFlags { group, flags });
    }
    check_members(bytes, headers, index, &members)?;
    Ok(SectionGroup {
        index: group,
        signature_symbol: SymbolIndex(signature),
        is_comdat: flags == GRP_COMDAT,
        members: MemberView { words: members },
    })
}
