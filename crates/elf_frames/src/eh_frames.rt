//! The CIEs and the frames of `.eh_frame` sections. Contracts see them as lists, each frame with the section that it is for.

ghost use Rattle.std.specs.Prelude.{◌≡◌, ◌+◌, ◌<◌, ◌^◌, None, OnOk, OnErr, length, map, option_map, slice_index_or};
ghost use Rattle.elf_frames.specs.Frames.{no_frames, last_frame, previous_frames, appended, cie_size, total_size};
ghost use Rattle.elf_frames.specs.Shown.{shown_cie, shown_frames, shown_previous, sections_of};
ghost use Rattle.elf_frames.specs.steps.Kept.{kept_lists, size_at};
ghost use Rattle.elf_frames.specs.steps.Links.{AreLinked};

use crate::frame::{CieAtOffset, ExceptionFrame, FrameIndex};
use crate::frame_sizes::sum_of_cies;
use crate::links::FrameLinks;
use crate::parts::Parts;
use elf_format::SectionIndex;
use elf_words::ElfClass;
use smallvec::SmallVec;
use std::alloc::{AllocError, Global};
use std::marker::Model;

/// CIEs and frames in order, and how many bytes are neither. All sizes together fit 64 bits.
#[derive(Drop)]
pub struct EhFrames<'a, C: ElfClass> {
    cies: SmallVec<CieAtOffset<'a>, 2>,
    links: FrameLinks<'a, C>,
    rest: u64,
}

impl<'a, C: ElfClass> Model for EhFrames<'a, C> {
    ghost use Rattle.elf_frames.specs.Frames.{FrameLists};

    ghost Value = { FrameLists };

    ghost use Rattle.elf_frames.specs.steps.Kept.{kept_lists as lists_kept, AreKept};

    ghost view = { λ f. lists_kept C.class f.cies.items f.links f.rest };

    ghost invariant = { λ f. AreKept C.class f.cies.items f.links f.rest };
}

impl<'a, C: ElfClass> EhFrames<'a, C> {
    /// Makes no CIE and no frame. Takes no memory.
    pub fn new(alloc: Global) -> Self
        ensures { result ≡ no_frames }
    {
        EhFrames {
            cies: SmallVec::new(alloc),
            links: FrameLinks::new(alloc),
            rest: 0,
        }
    }

    /// Keeps CIEs and frames, and so many bytes that are neither.
    pub(crate) fn of_parts(parts: Parts<'a, C>, rest: u64) -> Self
        requires linked { AreLinked C.class parts.links }
        requires fits { total_size (kept_lists C.class parts.cies.items parts.links rest) < 2 ^ 64 }
        ensures { result ≡ kept_lists C.class parts.entry.cies.items parts.entry.links rest }
    {
        EhFrames {
            cies: parts.cies,
            links: parts.links,
            rest,
        }
    }

    /// Returns the CIEs in order.
    pub fn cies(&self) -> &[CieAtOffset<'a>]
        ensures { map shown_cie result.now ≡ self.now.cies }
    {
        self.cies.as_slice()
    }

    /// Returns the frames in order. Each has the index of the frame before it that is for the same section, which is lower.
    pub fn frames(&self) -> &[ExceptionFrame<'a, C>]
        ensures count { length result.now ≡ length self.now.frames }
        ensures frames { shown_frames C.class result.now (sections_of self.now.frames) ≡ self.now.frames }
        ensures previous { map shown_previous result.now ≡ previous_frames self.now.frames }
    {
        &self.links.frames
    }

    /// Returns the index of the last frame of a section, or None exactly where the section has no frame.
    pub fn last(&self, section: SectionIndex) -> Option<FrameIndex>
        ensures { option_map (λ i. i.0) result ≡ last_frame section.0 self.now.frames }
    {
        *self.links.last.get(section.0)?
    }

    /// Returns how many bytes are no entry: those after the last entry of a section, where they are no terminator. Of several
    /// sections they are added up.
    pub fn rest(&self) -> u64
        ensures { result ≡ self.now.rest }
    {
        self.rest
    }

    /// Returns the frame before a frame that is for the same section.
    pub(crate) fn previous(&self, index: FrameIndex) -> Option<FrameIndex>
        requires { index.0 < length self.now.frames }
        ensures { option_map (λ i. i.0) result ≡ slice_index_or (previous_frames self.now.frames) index.0 None }
    {
        self.frames()[index.0].previous_frame_for_section
    }

    /// Returns the size of a frame in bytes.
    pub(crate) fn size_of(&self, index: FrameIndex) -> u64
        requires { index.0 < length self.now.frames }
        ensures value { result ≡ size_at self.now.frames index.0 }
        ensures kept { total_size self.now < 2 ^ 64 }
        ensures few { length self.now.frames < 2 ^ 64 }
    {
        // A field is read, so that the proof has what each value keeps.
        let _rest = self.rest;
        self.frames()[index.0].frame_size
    }

    /// Returns the sum of the CIEs' lengths in bytes.
    pub fn cie_bytes(&self) -> u64
        ensures { result ≡ cie_size self.now.cies }
    {
        sum_of_cies(self.cies.as_slice())
    }

    /// Returns the sum of the CIEs' lengths, the frames' sizes and the rest, in bytes. After `split_eh_frame` it is at most the
    /// size of the section.
    pub fn total_bytes(&self) -> u64
        ensures { result ≡ total_size self.now }
    {
        let mut sum = sum_of_cies(self.cies.as_slice()) + self.rest;
        let frames = self.frames();
        for frame in frames {
            sum += frame.frame_size;
        }
        sum
    }

    /// Adds the CIEs and frames of another after its own; the indexes of the other's frames move. The other's first frame of a
    /// section follows the last one of that section. The rests are added up. Requires that the sizes of both together fit 64
    /// bits. `AllocError` comes where an allocation fails, and then nothing is changed.
    pub fn append(&mut self, other: EhFrames<'a, C>) -> Result<(), AllocError>
        requires { total_size self.old + total_size other < 2 ^ 64 }
        ensures ok { OnOk result (self.new ≡ appended self.old other.entry) }
        ensures err { OnErr result (self.new ≡ self.old) }
    {
        self.links.reserve_for(&other.links)?;
        self.cies.extend_from_slice(other.cies.as_slice())?;
        self.rest += other.rest;
        let links = other.links;
        let sections = links.sections;
        self.links.put_all(links.frames, &sections);
        Ok(())
    }
}
