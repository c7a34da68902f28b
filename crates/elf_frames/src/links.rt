//! Frames, and the links between those of one section: from each to the one before it, and from the section to its last.

ghost use Rattle.std.specs.Prelude.{◌≡◌, ℕ, ◌+◌, ◌<◌, ◌≤◌, ◌∷◌, ◌++◌, [], replicate, None, IfOk, OnOk, length, vec_len, vec_capacity};
ghost use Rattle.std.specs.List.{AllByRecursion};
ghost use Rattle.elf_frames.specs.Shown.{shown_frame, shown_frames, last_in};
ghost use Rattle.elf_frames.specs.steps.Links.{linked_frames, AreLinked, HasFrameRoom};

use crate::frame::{ExceptionFrame, FrameIndex};
use elf_format::SectionIndex;
use elf_relocs::RelocationSequence;
use elf_words::ElfClass;
use std::alloc::{AllocError, Global};

/// Frames in order, the section that each is for, and for each of the first sections its last frame.
#[derive(Drop)]
pub(crate) struct FrameLinks<'a, C: ElfClass> {
    pub(crate) frames: Vec<ExceptionFrame<'a, C>>,
    pub(crate) sections: Vec<SectionIndex>,
    pub(crate) last: Vec<Option<FrameIndex>>,
}

impl<'a, C: ElfClass> FrameLinks<'a, C> {
    /// Makes no frames, with room for the last frames of no section. Takes no memory.
    pub(crate) fn new(alloc: Global) -> Self
        ensures linked { AreLinked C.class result }
        ensures none { linked_frames C.class result ≡ [] }
    {
        FrameLinks {
            frames: Vec::new(alloc),
            sections: Vec::new(alloc),
            last: Vec::new(alloc),
        }
    }

    /// Makes no frames, with room for the last frames of the first `count` sections.
    pub(crate) fn with_sections(alloc: Global, count: usize) -> Result<Self, AllocError>
        ensures linked { IfOk result (λ links. AreLinked C.class links) }
        ensures none { IfOk result (λ links. linked_frames C.class links ≡ []) }
        ensures sections { IfOk result (λ links. vec_len links.last ≡ count) }
    {
        let last = vec![in alloc; None; count]?;
        Ok(FrameLinks {
            frames: Vec::new(alloc),
            sections: Vec::new(alloc),
            last,
        })
    }

    /// Takes memory for one more frame.
    fn reserve_one(&mut self) -> Result<(), AllocError>
        ensures same { (self.new.frames.items ≡ self.old.frames.items) × (self.new.sections.items ≡ self.old.sections.items) × (self.new.last ≡ self.old.last) }
        ensures room { OnOk result ((vec_len self.new.frames < vec_capacity self.new.frames) × (vec_len self.new.sections < vec_capacity self.new.sections)) }
    {
        self.frames.reserve(1)?;
        self.sections.reserve(1)?;
        Ok(())
    }

    /// Adds a frame of a section, where there is room for it and for the section's last frame.
    pub(crate) fn put_reserved(&mut self, section: SectionIndex, frame: ExceptionFrame<'a, C>)
        requires linked { AreLinked C.class self.old }
        requires section { section.0 < vec_len self.old.last }
        requires frames { vec_len self.old.frames < vec_capacity self.old.frames }
        requires sections { vec_len self.old.sections < vec_capacity self.old.sections }
        ensures linked { AreLinked C.class self.new }
        ensures frames { linked_frames C.class self.new ≡ linked_frames C.class self.old ++ shown_frame C.class frame.entry section ∷ [] }
        ensures last { vec_len self.new.last ≡ vec_len self.old.last }
        ensures room { (vec_len self.new.frames ≡ vec_len self.old.frames + 1) × (vec_capacity self.new.frames ≡ vec_capacity self.old.frames) × (vec_len self.new.sections ≡ vec_len self.old.sections + 1) × (vec_capacity self.new.sections ≡ vec_capacity self.old.sections) }
    {
        let index = FrameIndex(self.frames.len());
        let previous = self.last[section.0];
        self.frames.push_reserved(ExceptionFrame {
            relocations: frame.relocations,
            frame_size: frame.frame_size,
            previous_frame_for_section: previous,
            eh_frame_section_index: frame.eh_frame_section_index,
        });
        self.sections.push_reserved(section);
        self.last[section.0] = Some(index);
    }

    /// Adds a frame of a section, where there is room for the section's last frame.
    pub(crate) fn put(
        &mut self,
        section: SectionIndex,
        frame: ExceptionFrame<'a, C>,
    ) -> Result<(), AllocError>
        requires linked { AreLinked C.class self.old }
        requires section { section.0 < vec_len self.old.last }
        ensures linked { OnOk result (AreLinked C.class self.new) }
        ensures frames { OnOk result (linked_frames C.class self.new ≡ linked_frames C.class self.old ++ shown_frame C.class frame.entry section ∷ []) }
        ensures last { OnOk result (vec_len self.new.last ≡ vec_len self.old.last) }
    {
        self.reserve_one()?;
        self.put_reserved(section, frame);
        Ok(())
    }

    /// Takes memory for the frames of another, and for the last frames of its sections. Only the room changes, also where an
    /// allocation fails.
    pub(crate) fn reserve_for(&mut self, other: &FrameLinks<'a, C>) -> Result<(), AllocError>
        requires { AreLinked C.class self.old }
        ensures linked { AreLinked C.class self.new }
        ensures frames { linked_frames C.class self.new ≡ linked_frames C.class self.old }
        ensures room { OnOk result (HasFrameRoom self.new (vec_len other.now.frames) (vec_len other.now.sections)) }
        ensures last { OnOk result (vec_len other.now.last ≤ vec_len self.new.last) }
    {
        self.frames.reserve(other.frames.len())?;
        self.sections.reserve(other.sections.len())?;
        grow(&mut self.last, other.last.len())
    }

    /// Adds frames of sections, where there is room for them.
    pub(crate) fn put_all(&mut self, frames: Vec<ExceptionFrame<'a, C>>, sections: &[SectionIndex])
        requires linked { AreLinked C.class self.old }
        requires sections { length sections.now ≡ length frames.items }
        requires within { AllByRecursion (λ s. s.0 < vec_len self.old.last) sections.now }
        requires room { HasFrameRoom self.old (length frames.items) (length frames.items) }
        ensures linked { AreLinked C.class self.new }
        ensures frames { linked_frames C.class self.new ≡ linked_frames C.class self.old ++ shown_frames C.class frames.entry.items sections.now }
    {
        let mut index = 0;
        for frame in frames {
            self.put_reserved(sections[index], frame);
            index += 1;
        }
    }
}

/// Makes a list of last frames at least so long. What it says of each section stays, also where an allocation fails.
fn grow(last: &mut Vec<Option<FrameIndex>>, count: usize) -> Result<(), AllocError>
    ensures same { (section : ℕ) → last_in last.new.items section ≡ last_in last.old.items section }
    ensures longer { vec_len last.old ≤ vec_len last.new }
    ensures room { OnOk result (count ≤ vec_len last.new) }
{
    last.reserve(count.saturating_sub(last.len()))?;
    while last.len() < count {
        last.push(None)?;
    }
    Ok(())
}
