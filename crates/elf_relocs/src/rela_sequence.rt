//! Sequence of RELA records (gABI, Relocation), of which parts can be taken. It borrows the records' bytes.

ghost use Rattle.std.specs.Prelude.{◌≡◌, ◌≤◌, ◌<◌, ◌*◌, ◌-◌, ◌/◌, length, option_map, slice_get, slice_range, take, drop};
ghost use Rattle.elf_format.specs.Rela.{rela_entries};

use crate::relocation::ElfRela;
use elf_words::{ElfClass, Record, Records, Span};
use std::marker::PhantomData;

/// RELA records, one after another.
#[derive(Clone, Copy)]
pub struct RelaSequence<'a, C: ElfClass> {
    /// The records' bytes as they stand in the file. An incomplete record at the end does not count.
    pub bytes: &'a [u8],
    class: PhantomData<C>,
}

impl<'a, C: ElfClass> RelaSequence<'a, C> {
    /// Makes the sequence of the whole records of some bytes.
    pub(crate) fn new(bytes: &'a [u8]) -> Self
        ensures { result.bytes.now ≡ bytes.now }
    {
        RelaSequence {
            bytes,
            class: PhantomData,
        }
    }

    /// Returns the number of relocations.
    pub fn len(&self) -> usize
        ensures { result ≡ length (rela_entries C.class self.now.bytes.now) }
    {
        Records::<C::Rela>::whole(self.bytes).len()
    }

    /// Returns the relocation at an index, or None where the index is not below the count.
    pub fn get(&self, index: usize) -> Option<ElfRela<C>>
        ensures { option_map (λ x. x.values) result ≡ slice_get (rela_entries C.class self.now.bytes.now) index }
    {
        let records = Records::<C::Rela>::whole(self.bytes);
        Some(ElfRela::new(records.get(index)?))
    }

    /// Returns the relocations of a span of indexes, start included and stop excluded. Requires a span within
    /// the sequence.
    pub fn subsequence(&self, span: Span) -> RelaSequence<'a, C>
        requires order { span.start ≤ span.stop }
        requires within { span.stop ≤ length (rela_entries C.class self.now.bytes.now) }
        ensures { rela_entries C.class result.bytes.now ≡ slice_range (rela_entries C.class self.now.bytes.now) span.start span.stop }
    {
        RelaSequence::new(bytes_of_span(self.bytes, C::Rela::SIZE, span))
    }
}

/// Returns the bytes of a span of records, each of `size` bytes.
#[tactic(auto, using(crate::proofs::Spans::span_fits))]
fn bytes_of_span(bytes: &[u8], size: usize, span: Span) -> &[u8]
    requires some { 0 < size }
    requires order { span.start ≤ span.stop }
    requires within { span.stop ≤ length bytes.now / size }
    ensures value { result.now ≡ take (size * (span.stop - span.start)) (drop (size * span.start) bytes.now) }
    ensures length { length result.now ≡ size * (span.stop - span.start) }
{
    &bytes[size * span.start..size * span.stop]
}
