//! View of bytes that are whole RELA records (gABI, Relocation). It borrows the bytes and decodes the record at
//! an index. Contracts see it as the list of its relocations.

ghost use Rattle.std.specs.Prelude.{◌≡◌, length, option_map, slice_get};
ghost use Rattle.elf_format.specs.Rela.{rela_list, rela_entries};

use crate::rela_sequence::RelaSequence;
use crate::relocation::ElfRela;
use elf_words::{ElfClass, Record};
use std::marker::Model;

/// The relocations of bytes that are whole RELA records.
#[derive(Clone, Drop)]
pub struct RelaView<'a, C: ElfClass> {
    sequence: RelaSequence<'a, C>,
}

impl<'a, C: ElfClass> Model for RelaView<'a, C> {
    ghost use Rattle.std.specs.Prelude.{List};
    ghost use Rattle.elf_format.specs.declared.crel.Crel.{Crel};
    ghost use Rattle.elf_format.specs.Rela.{rela_entries};

    ghost Value = { List Crel };

    ghost view = { λ r. rela_entries C.class r.sequence.bytes.now };
}

impl<'a, C: ElfClass> RelaView<'a, C> {
    /// Views bytes as RELA records: 24 bytes each in a 64-bit file, 12 in a 32-bit one. Returns None exactly
    /// where the number of bytes is no multiple of that size.
    #[tactic(auto, unfolding(elf_format::specs::Rela::rela_list))]
    pub fn new(bytes: &'a [u8]) -> Option<RelaView<'a, C>>
        ensures { result ≡ rela_list C.class bytes.now }
    {
        if bytes.len() % C::Rela::SIZE != 0 {
            return None;
        }
        Some(RelaView {
            sequence: RelaSequence::new(bytes),
        })
    }

    /// Returns the number of relocations.
    pub fn len(&self) -> usize
        ensures { result ≡ length self.now }
    {
        self.sequence.len()
    }

    /// Returns the relocation at an index, or None where the index is not below the count.
    pub fn get(&self, index: usize) -> Option<ElfRela<C>>
        ensures { option_map (λ x. x.values) result ≡ slice_get self.now index }
    {
        self.sequence.get(index)
    }

    /// Converts the view into a sequence of the same relocations.
    pub(crate) fn into_sequence(self) -> RelaSequence<'a, C>
        ensures { rela_entries C.class result.bytes.now ≡ self.entry }
    {
        self.sequence
    }
}
