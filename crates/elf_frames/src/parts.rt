//! What is taken of an `.eh_frame` section, entry by entry.

ghost use Rattle.std.specs.Prelude.{◌≡◌, ◌+◌, ◌≤◌, ◌<◌, ◌∷◌, ◌++◌, [], false, Some, None, IfOk, IfErr, OnOk, map, length, option_map, vec_len};
ghost use Rattle.std.specs.Option.{option_to_list};
ghost use Rattle.elf_relocs.specs.Lists.{relocations_of};
ghost use Rattle.elf_frames.specs.Cause.{IsFrameMemory};
ghost use Rattle.elf_frames.specs.Shown.{shown_cie};
ghost use Rattle.elf_frames.specs.Taken as spec;
ghost use Rattle.elf_frames.specs.steps.EntryAt.{IsFound, shown_entry};
ghost use Rattle.elf_frames.specs.steps.Links.{linked_frames, AreLinked};
ghost use Rattle.elf_frames.specs.steps.Reached.{IsTaken, IsLacking, AreReady, TakesEntry, shown_cies};
ghost use Rattle.elf_frames.specs.steps.Source.{source_input};

use crate::entry::Entry;
use crate::error::FrameError;
use crate::frame::{CieAtOffset, ExceptionFrame};
use crate::links::FrameLinks;
use crate::source::{Source, first_not_below, have_symbols};
use elf_format::{SectionIndex, Span};
use elf_words::ElfClass;
use smallvec::SmallVec;
use std::alloc::{AllocError, Global};

/// CIEs and frames.
#[derive(Drop)]
pub(crate) struct Parts<'a, C: ElfClass> {
    pub(crate) cies: SmallVec<CieAtOffset<'a>, 2>,
    pub(crate) links: FrameLinks<'a, C>,
}

impl<'a, C: ElfClass> Parts<'a, C> {
    /// Makes no CIE and no frame, with room for the last frames of the first `count` sections.
    pub(crate) fn with_sections(alloc: Global, count: usize) -> Result<Self, AllocError>
        ensures linked { IfOk result (λ parts. AreLinked C.class parts.links) }
        ensures cies { IfOk result (λ parts. shown_cies parts ≡ []) }
        ensures frames { IfOk result (λ parts. linked_frames C.class parts.links ≡ []) }
        ensures sections { IfOk result (λ parts. vec_len parts.links.last ≡ count) }
    {
        let links = FrameLinks::with_sections(alloc, count)?;
        Ok(Parts {
            cies: SmallVec::new(alloc),
            links,
        })
    }
}

impl<'s, 'a, C: ElfClass> Source<'s, 'a, C> {
    /// Returns the CIE that an entry is, by the span of its relocations.
    fn cie_of(&self, entry: Entry, span: Span) -> CieAtOffset<'a>
        requires taken { IsTaken (source_input C.class self.now) entry span.start span.stop }
        ensures { shown_cie result ≡ spec.cie_at (source_input C.class self.now) (shown_entry entry) }
    {
        CieAtOffset {
            offset: entry.offset,
            bytes: &self.bytes[entry.offset..entry.offset + entry.size],
            eligible_for_deduplication: have_symbols(self.list, span),
        }
    }

    /// Takes a CIE. The error is `NoMemory`.
    fn take_cie(
        &self,
        cies: &mut SmallVec<CieAtOffset<'a>, 2>,
        entry: Entry,
        span: Span,
    ) -> Result<(), FrameError>
        requires taken { IsTaken (source_input C.class self.now) entry span.start span.stop }
        ensures cies { OnOk result (map shown_cie cies.new.items ≡ map shown_cie cies.old.items ++ spec.cie_at (source_input C.class self.now) (shown_entry entry) ∷ []) }
        ensures memory { IfErr result IsFrameMemory }
    {
        cies.push(self.cie_of(entry, span))?;
        Ok(())
    }

    /// Returns whether the section at an index is loadable.
    fn is_loadable(&self, section: SectionIndex) -> bool
        ensures { result ≡ spec.is_loadable self.now.loadable.now section.0 }
    {
        match self.loadable.get(section.0) {
            Some(loadable) => *loadable,
            None => false,
        }
    }

    /// Takes an FDE as a frame of a section. The error is `NoMemory`.
    fn take_frame_of(
        &self,
        alloc: Global,
        links: &mut FrameLinks<'a, C>,
        section: SectionIndex,
        entry: Entry,
        span: Span,
    ) -> Result<(), FrameError>
        requires taken { IsTaken (source_input C.class self.now) entry span.start span.stop }
        requires linked { AreLinked C.class links.old }
        requires section { section.0 < vec_len links.old.last }
        ensures linked { OnOk result (AreLinked C.class links.new) }
        ensures frames { OnOk result (linked_frames C.class links.new ≡ linked_frames C.class links.old ++ spec.frame_for (source_input C.class self.now) (shown_entry entry) section.0 ∷ []) }
        ensures last { OnOk result (vec_len links.new.last ≡ vec_len links.old.last) }
        ensures memory { IfErr result IsFrameMemory }
    {
        let relocations = self.list.subsequence(alloc, span)?;
        links.put(
            section,
            ExceptionFrame {
                relocations,
                frame_size: entry.size as u64,
                previous_frame_for_section: None,
                eh_frame_section_index: self.section,
            },
        )?;
        Ok(())
    }

    /// Takes an FDE that is for a section, as a frame if the section is loadable. The error is `NoMemory`.
    fn take_frame_if_loadable(
        &self,
        alloc: Global,
        links: &mut FrameLinks<'a, C>,
        section: SectionIndex,
        entry: Entry,
        span: Span,
    ) -> Result<(), FrameError>
        requires taken { IsTaken (source_input C.class self.now) entry span.start span.stop }
        requires linked { AreLinked C.class links.old }
        requires sections { length self.now.loadable.now ≤ vec_len links.old.last }
        ensures linked { OnOk result (AreLinked C.class links.new) }
        ensures frames { OnOk result (linked_frames C.class links.new ≡ linked_frames C.class links.old ++ option_to_list (option_map (spec.frame_for (source_input C.class self.now) (shown_entry entry)) (spec.if_loadable self.now.loadable.now (Some section.0)))) }
        ensures last { OnOk result (vec_len links.new.last ≡ vec_len links.old.last) }
        ensures memory { IfErr result IsFrameMemory }
    {
        if !self.is_loadable(section) {
            return Ok(());
        }
        self.take_frame_of(alloc, links, section, entry, span)
    }

    /// Takes an FDE, as a frame where it is for a loadable section. The error is `BadSymbol`, exactly at the first relocation
    /// that says where its code begins and whose symbol, or the extended section index of that, is missing; or `NoMemory`.
    fn take_frame(
        &self,
        alloc: Global,
        links: &mut FrameLinks<'a, C>,
        entry: Entry,
        span: Span,
    ) -> Result<(), FrameError>
        requires taken { IsTaken (source_input C.class self.now) entry span.start span.stop }
        requires fde { entry.is_cie ≡ false }
        requires linked { AreLinked C.class links.old }
        requires sections { length self.now.loadable.now ≤ vec_len links.old.last }
        ensures symbols { OnOk result (spec.first_lacking (source_input C.class self.now) (shown_entry entry) ≡ None) }
        ensures linked { OnOk result (AreLinked C.class links.new) }
        ensures frames { OnOk result (linked_frames C.class links.new ≡ linked_frames C.class links.old ++ option_to_list (spec.frame_of (source_input C.class self.now) (shown_entry entry))) }
        ensures last { OnOk result (vec_len links.new.last ≡ vec_len links.old.last) }
        ensures cause { IfErr result (IsLacking (source_input C.class self.now) (shown_entry entry)) }
    {
        match self.section_of_starts(entry.offset as u64, span) {
            Ok(Some(section)) => self.take_frame_if_loadable(alloc, links, section, entry, span),
            Ok(None) => Ok(()),
            Err(error) => Err(error),
        }
    }

    /// Returns the span of an entry's relocations, by their indexes, where those below `taken` are of the entries before it.
    fn span_of(&self, entry: Entry, taken: usize) -> Span
        requires found { IsFound self.now.bytes.now entry.offset entry }
        requires taken { taken ≡ spec.count_below entry.offset (relocations_of C.class self.now.list.now) }
        ensures { IsTaken (source_input C.class self.now) entry result.start result.stop }
    {
        let end = (entry.offset + entry.size) as u64;
        let stop = first_not_below(self.list, taken, end);
        Span { start: taken, stop }
    }

    /// Takes an entry, and with it the relocations from the index `taken` on whose offsets are below its end. Returns the index
    /// after them. The error is that of the FDE.
    pub(crate) fn take_entry(
        &self,
        alloc: Global,
        parts: &mut Parts<'a, C>,
        entry: Entry,
        taken: usize,
    ) -> Result<usize, FrameError>
        requires found { IsFound self.now.bytes.now entry.offset entry }
        requires taken { taken ≡ spec.count_below entry.offset (relocations_of C.class self.now.list.now) }
        requires ready { AreReady C.class (source_input C.class self.now) parts.old }
        ensures takes { OnOk result (TakesEntry C.class (source_input C.class self.now) (shown_entry entry) parts.old parts.new) }
        ensures relocations { IfOk result (λ stop. stop ≡ spec.count_below (entry.offset + entry.size) (relocations_of C.class self.now.list.now)) }
        ensures cause { IfErr result (IsLacking (source_input C.class self.now) (shown_entry entry)) }
    {
        let span = self.span_of(entry, taken);
        if entry.is_cie {
            return match self.take_cie(&mut parts.cies, entry, span) {
                Ok(()) => Ok(span.stop),
                Err(error) => Err(error),
            };
        }
        match self.take_frame(alloc, &mut parts.links, entry, span) {
            Ok(()) => Ok(span.stop),
            Err(error) => Err(error),
        }
    }
}
