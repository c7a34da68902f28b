//! What is kept of `.eh_frame` (Linux Standard Base, The .eh_frame Section): CIEs, and the FDEs of loadable sections, which
//! are called frames.

use elf_format::SectionIndex;
use elf_relocs::RelocationSequence;
use elf_words::ElfClass;

/// The index of a frame among all frames, from 0.
#[derive(Clone, Copy, Debug, PartialEq, Eq)]
pub struct FrameIndex(pub usize);

/// A common information entry (CIE), which FDEs refer to.
#[derive(Clone, Copy, Debug, Default)]
pub struct CieAtOffset<'a> {
    /// The offset in bytes from the start of the section.
    pub offset: usize,
    /// The bytes of the entry, its length field included.
    pub bytes: &'a [u8],
    /// Whether an equal CIE may stand for this one: each of its relocations has a symbol.
    pub eligible_for_deduplication: bool,
}

/// A frame description entry (FDE) of a loadable section.
#[derive(Drop)]
pub struct ExceptionFrame<'a, C: ElfClass> {
    /// The relocations of the entry, in order. Their offsets count from the start of `.eh_frame`.
    pub relocations: RelocationSequence<'a, C>,
    /// The size of the entry in bytes, its length field included.
    pub frame_size: u64,
    /// The frame before this one of the same section, or None where this is its first.
    pub previous_frame_for_section: Option<FrameIndex>,
    /// The `.eh_frame` section that holds the entry.
    pub eh_frame_section_index: SectionIndex,
}

/// How many frames a section has, and their sizes.
#[derive(Clone, Copy, Debug, PartialEq, Eq)]
pub struct EhFrameSizes {
    /// The number of frames.
    pub num_frames: usize,
    /// The sum of their sizes in bytes.
    pub eh_frame_size: u64,
}
