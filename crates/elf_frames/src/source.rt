//! What is split: the bytes of an `.eh_frame` section and its relocations, which stand in the order of the entries that they
//! apply to. RELA records and CREL are gone over alike.

ghost use Rattle.std.specs.Prelude.{◌≡◌, ◌≤◌, slice_get, slice_range};
ghost use Rattle.std.specs.List.{list_all};
ghost use Rattle.elf_relocs.specs.Lists.{relocations_of};
ghost use Rattle.elf_frames.specs.Taken.{count_below, has_symbol};

use elf_format::{Crel, SectionIndex, Span};
use elf_relocs::RelocationSequence;
use elf_view::File;
use elf_words::ElfClass;

/// The bytes and the index of an `.eh_frame` section, its relocations, and which sections are loadable.
#[derive(Drop)]
pub(crate) struct Source<'s, 'a, C: ElfClass> {
    pub(crate) file: &'s File<'a, C>,
    pub(crate) list: &'s RelocationSequence<'a, C>,
    pub(crate) loadable: &'s [bool],
    pub(crate) section: SectionIndex,
    pub(crate) bytes: &'a [u8],
}

/// Returns the relocation at an index, or None where the index is not below the count.
pub(crate) fn relocation_at<C: ElfClass>(
    list: &RelocationSequence<'_, C>,
    index: usize,
) -> Option<Crel>
    ensures { result ≡ slice_get (relocations_of C.class list.now) index }
{
    match list {
        RelocationSequence::Rela(sequence) => Some(sequence.get(index)?.values),
        RelocationSequence::Crel(list) => Some(list.get(index)?.values),
    }
}

/// Returns the index of the first relocation whose offset is not below a limit, or the count where there is none, if those
/// below the index `start` are all below the limit.
pub(crate) fn first_not_below<C: ElfClass>(
    list: &RelocationSequence<'_, C>,
    start: usize,
    limit: u64,
) -> usize
    ensures { start ≤ count_below limit (relocations_of C.class list.now) → result ≡ count_below limit (relocations_of C.class list.now) }
{
    let count = list.num_relocations();
    for index in start..count {
        let Some(relocation) = relocation_at(list, index) else {
            return index;
        };
        if relocation.offset >= limit {
            return index;
        }
    }
    count
}

/// Returns whether each relocation of a span of indexes has a symbol.
pub(crate) fn have_symbols<C: ElfClass>(list: &RelocationSequence<'_, C>, span: Span) -> bool
    ensures { result ≡ list_all has_symbol (slice_range (relocations_of C.class list.now) span.start span.stop) }
{
    for index in span.start..span.stop {
        let Some(relocation) = relocation_at(list, index) else {
            return true;
        };
        if relocation.symbol == 0 {
            return false;
        }
    }
    true
}
