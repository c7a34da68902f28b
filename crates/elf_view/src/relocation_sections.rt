//! Maps each section to the section that holds its relocations (gABI, Relocation: `sh_link` is the symbol table,
//! `sh_info` the section that the relocations apply to). Contracts see the table as a list with an entry for
//! each section of the file.

ghost use Rattle.std.specs.Prelude.{◌≡◌, ◌<◌, ◌==◌, ◌&&◌, ℕ, nat_lt, length, true, vec_len, position, replicate, option_map, Some, None, IfOk, MatchResult, if◌then◌else◌};
ghost use Rattle.std.specs.Option.{option_or};
ghost use Rattle.elf_format.specs.Section.{sections};
ghost use Rattle.elf_view.specs.Relocation.{relocates, relocates_section, relocation_entry, all_have_targets};
ghost use Rattle.elf_view.specs.RelocFault.{IsRelocFault};

use crate::reloc_error::RelocError;
use elf_format::ElfError;
use elf_words::{Record, Records, SHT_CREL, SHT_REL, SHT_RELA, SectionHeaderFields, SectionIndex};
use std::alloc::{AllocError, Global};
use std::marker::Model;

/// For each section of a file the first section that holds its relocations, if any.
#[derive(Drop)]
pub struct RelocationSections {
    first: Vec<Option<usize>>,
}

impl Model for RelocationSections {
    ghost use Rattle.std.specs.Prelude.{ℕ, List, Option};

    ghost Value = { List (Option ℕ) };

    ghost view = { λ r. r.first.items };
}

impl RelocationSections {
    /// Returns the first section that holds the relocations of the section at an index. Returns None for index
    /// 0, for a section without relocations, and for an index that is not below the count of sections.
    pub fn get(&self, index: usize) -> Option<SectionIndex>
        ensures { option_map (λ s. s.0) result ≡ relocation_entry self.now index }
    {
        let first = *self.first.get(index)?;
        Some(SectionIndex(first?))
    }

    /// Makes the table in which no section has relocations.
    pub(crate) fn none(alloc: Global) -> Self
        ensures { (target : ℕ) → relocation_entry result target ≡ None }
    {
        RelocationSections {
            first: Vec::new(alloc),
        }
    }

    /// Maps each section to the first of type RELA, REL or CREL that is linked to the symbol table and applies to
    /// it. `RelocationTable` comes where such a section applies to none, `NoMemory` where an allocation fails.
    #[tactic(auto, using(crate::proofs::RelocationLemmas::first_step))]
    pub(crate) fn gather<H: SectionHeaderFields>(
        alloc: Global,
        bytes: &[u8],
        headers: &Records<'_, H>,
        table: usize,
    ) -> Result<Self, RelocError>
        requires { headers.now ≡ sections H.class bytes.now }
        ensures { MatchResult result (λ found. (all_have_targets H.class bytes.now table ≡ true) × ((target : ℕ) → relocation_entry found target ≡ position (relocates_section H.class table target) (sections H.class bytes.now))) (IsRelocFault (all_have_targets H.class bytes.now table)) }
    {
        let count = headers.len();
        let mut first = no_sections(alloc, count)?;
        for (index, header) in headers.iter().enumerate() {
            if holds_relocations(&header, table) {
                let target = header.sh_info() as usize;
                if target >= count {
                    return Err(RelocError::Elf(ElfError::RelocationTable));
                }
                put_first(&mut first, target, index);
            }
        }
        Ok(RelocationSections { first })
    }
}

/// Makes `count` entries without a section.
fn no_sections(alloc: Global, count: usize) -> Result<Vec<Option<usize>>, AllocError>
    ensures items { IfOk result (λ v. v.items ≡ replicate count None) }
    ensures len { IfOk result (λ v. vec_len v ≡ count) }
{
    let table = vec![in alloc; None; count]?;
    Ok(table)
}

/// Returns whether a section holds relocations and is linked to the symbol table at an index.
fn holds_relocations<H: SectionHeaderFields>(header: &H, table: usize) -> bool
    ensures { result ≡ relocates H.class table (H.contents header.now) }
{
    matches!(header.sh_type(), SHT_RELA | SHT_REL | SHT_CREL) && header.sh_link() as usize == table
}

/// Enters a section at the section that it applies to, unless an entry is there already.
#[tactic(auto, using(crate::proofs::RelocationLemmas::keep_first))]
fn put_first(first: &mut Vec<Option<usize>>, target: usize, index: usize)
    requires { target < vec_len first.old }
    ensures entry { (i : ℕ) → relocation_entry first.new.items i ≡ option_or (relocation_entry first.old.items i) (if nat_lt 0 i && target == i then Some index else None) }
    ensures len { vec_len first.new ≡ vec_len first.old }
{
    if target > 0 {
        first[target] = first[target].or(Some(index));
    }
}
