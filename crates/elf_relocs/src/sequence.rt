//! Relocations of a section in order, in either form, and parts of them (gABI, Relocation; CREL as LLVM defines
//! it). Contracts see a sequence as its relocations and its form.

ghost use Rattle.std.specs.Prelude.{◌≡◌, ◌≤◌, length, IfOk, slice_range, map};
ghost use Rattle.elf_relocs.specs.Lists.{formed, relocations_of, form_of_sequence};

use crate::rel_iter::RelIter;
use crate::rela_sequence::RelaSequence;
use crate::relocation::ElfCrel;
use elf_words::{ElfClass, Span};
use std::alloc::{AllocError, Global};

/// The relocations of a section, in order.
#[derive(Drop)]
pub enum RelocationSequence<'a, C: ElfClass> {
    /// RELA records, decoded at an index.
    Rela(RelaSequence<'a, C>),
    /// The decoded relocations of a list in CREL.
    Crel(Vec<ElfCrel<C>>),
}

impl<'a, C: ElfClass> RelocationSequence<'a, C> {
    /// Returns the number of relocations.
    pub fn num_relocations(&self) -> usize
        ensures { result ≡ length (relocations_of C.class self.now) }
    {
        match self {
            RelocationSequence::Rela(sequence) => sequence.len(),
            RelocationSequence::Crel(list) => list.len(),
        }
    }

    /// Iterates over the relocations from index 0 on: each is a `Rel::Rela` where the sequence is of RELA records,
    /// and a `Rel::Crel` where it is of CREL.
    pub fn rel_iter(&self) -> RelIter<'_, C>
        ensures { result ≡ map (formed (form_of_sequence self.now)) (relocations_of C.class self.now) }
    {
        match self {
            RelocationSequence::Rela(sequence) => return RelIter::of_records(sequence.bytes),
            RelocationSequence::Crel(list) => return RelIter::of_list(list),
        }
    }

    /// Returns the relocations of a span of indexes, start included and stop excluded, in the same form. Requires
    /// a span within the sequence. `AllocError` comes only where an allocation fails; RELA records take none.
    pub fn subsequence(
        &self,
        alloc: Global,
        span: Span,
    ) -> Result<RelocationSequence<'a, C>, AllocError>
        requires order { span.start ≤ span.stop }
        requires within { span.stop ≤ length (relocations_of C.class self.now) }
        ensures form { IfOk result (λ part. form_of_sequence part ≡ form_of_sequence self.now) }
        ensures relocations { IfOk result (λ part. relocations_of C.class part ≡ slice_range (relocations_of C.class self.now) span.start span.stop) }
    {
        match self {
            RelocationSequence::Rela(sequence) => {
                Ok(RelocationSequence::Rela(sequence.subsequence(span)))
            }
            RelocationSequence::Crel(list) => {
                Ok(RelocationSequence::Crel(part_of_list(alloc, list, span)?))
            }
        }
    }
}

/// Copies the relocations of a span of a list.
#[tactic(auto, using(crate::proofs::Spans::map_range))]
fn part_of_list<C: ElfClass>(
    alloc: Global,
    list: &[ElfCrel<C>],
    span: Span,
) -> Result<Vec<ElfCrel<C>>, AllocError>
    requires order { span.start ≤ span.stop }
    requires within { span.stop ≤ length list.now }
    ensures { IfOk result (λ part. map (λ x. x.values) part.items ≡ slice_range (map (λ x. x.values) list.now) span.start span.stop) }
{
    let mut part = Vec::new(alloc);
    part.extend_from_slice(&list[span.start..span.stop])?;
    Ok(part)
}
