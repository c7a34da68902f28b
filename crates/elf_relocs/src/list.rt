//! A section's list of relocations in either form, not yet decoded (gABI, Relocation; CREL as LLVM defines it).
//! Contracts see a list as the count that it states and its items, of which an error is the last.

ghost use Rattle.std.specs.Prelude.{◌≡◌, Ok, IfOk, MatchResult};
ghost use Rattle.elf_relocs.specs.Fault.{IsCrelFault};
ghost use Rattle.elf_format.specs.Crel.{all_ok};
ghost use Rattle.elf_relocs.specs.Lists.{listing_of_list, form_of_list, relocations_of, form_of_sequence};

use crate::crel::CrelIterator;
use crate::fault::CrelFault;
use crate::rela::RelaView;
use crate::sequence::RelocationSequence;
use elf_words::ElfClass;
use std::alloc::Global;

/// A section's list of relocations, not yet decoded.
#[derive(Clone, Drop)]
pub enum RelocationList<'a, C: ElfClass> {
    /// RELA records.
    Rela(RelaView<'a, C>),
    /// A list in CREL.
    Crel(CrelIterator<'a>),
}

impl<'a, C: ElfClass> RelocationList<'a, C> {
    /// Returns the number of relocations that the list states. A list in CREL yields fewer where a record is
    /// malformed.
    pub fn num_relocations(&self) -> u64
        ensures { result ≡ (listing_of_list self.now).count }
    {
        match self {
            RelocationList::Rela(view) => view.len() as u64,
            RelocationList::Crel(list) => list.len(),
        }
    }

    /// Returns the relocations as a sequence of the same form. The error is `Crel` with the list's error where
    /// the list is malformed CREL, and `NoMemory` where an allocation fails. RELA records take no memory.
    pub fn to_sequence(self, alloc: Global) -> Result<RelocationSequence<'a, C>, CrelFault>
        ensures relocations { MatchResult result (λ s. all_ok (listing_of_list self.entry).items ≡ Ok (relocations_of C.class s)) (λ e. IsCrelFault e (all_ok (listing_of_list self.entry).items)) }
        ensures form { IfOk result (λ s. form_of_sequence s ≡ form_of_list self.entry) }
    {
        match self {
            RelocationList::Rela(view) => Ok(RelocationSequence::Rela(view.into_sequence())),
            RelocationList::Crel(list) => Ok(RelocationSequence::Crel(list.to_vec(alloc)?)),
        }
    }
}
