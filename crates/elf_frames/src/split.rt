//! Splits an `.eh_frame` section (Linux Standard Base, The .eh_frame Section), without loading it.

ghost use Rattle.std.specs.Prelude.{◌≡◌, Ok, Err, IfOk, IfErr, slice_get};
ghost use Rattle.elf_format.specs.Section.{sections};
ghost use Rattle.elf_relocs.specs.Lists.{relocations_of};
ghost use Rattle.elf_frames.specs.Cause.{IsFrameCause};
ghost use Rattle.elf_frames.specs.Split.{IsSplit, Splits, frame_input, data_or_error};
ghost use Rattle.elf_frames.specs.steps.Source.{source_input};

use crate::eh_frames::EhFrames;
use crate::entry::{entry_at, rest_of};
use crate::error::FrameError;
use crate::parts::Parts;
use crate::source::Source;
use elf_format::{ElfError, SectionIndex};
use elf_relocs::RelocationSequence;
use elf_view::File;
use elf_words::ElfClass;
use std::alloc::Global;

impl<'s, 'a, C: ElfClass> Source<'s, 'a, C> {
    /// Takes the entries one by one. The error is that of the first entry with a fault, or `NoMemory`.
    fn split(&self, alloc: Global) -> Result<EhFrames<'a, C>, FrameError>
        ensures split { IfOk result (λ frames. IsSplit (source_input C.class self.now) frames) }
        ensures cause { IfErr result (IsFrameCause (Ok (source_input C.class self.now))) }
    {
        let mut parts = Parts::with_sections(alloc, self.loadable.len())?;
        let mut offset = 0;
        let mut taken = 0;
        'entries: loop {
            match entry_at(self.bytes, offset) {
                Ok(Some(entry)) => match self.take_entry(alloc, &mut parts, entry, taken) {
                    Ok(stop) => {
                        taken = stop;
                        offset = entry.offset + entry.size;
                    }
                    Err(error) => return Err(error),
                },
                Ok(None) => return Ok(EhFrames::of_parts(parts, rest_of(self.bytes, offset))),
                Err(error) => return Err(error),
            }
        }
    }
}

/// Returns the bytes of the section at an index. The error is `SectionTable` where there is no such section, and `SectionData`
/// where its bytes are out of the file's range.
fn data_of<'a, C: ElfClass>(file: &File<'a, C>, section: SectionIndex) -> Result<&'a [u8], ElfError>
    ensures found { IfOk result (λ bytes. data_or_error C.class file.now.bytes (slice_get (sections C.class file.now.bytes) section.0) ≡ Ok bytes.now) }
    ensures error { IfErr result (λ e. data_or_error C.class file.now.bytes (slice_get (sections C.class file.now.bytes) section.0) ≡ Err e) }
{
    match file.section(section) {
        Ok(header) => file.raw_section_data(&header),
        Err(error) => Err(error),
    }
}

/// Splits the `.eh_frame` section at an index: its CIEs, and as frames the FDEs that are for a loadable section, each with its
/// relocations. `list` holds the relocations of the section, in the order of the entries that they apply to; an entry takes
/// those that follow the ones taken before, as long as their offsets are below its end. The FDE is for the section in which the
/// symbol of the last relocation of its field PC Begin is defined. A section past the end of `loadable` is not loadable. The
/// file is not changed, and bytes of the section are not copied.
///
/// Entries are read until a length of 0, or fewer than eight bytes are left. The error is, in this order: `Elf` exactly where
/// the file has no such section (`SectionTable`) or its bytes are out of range (`SectionData`); then of the first entry with a
/// fault, `BadEntry` exactly where it ends after the section, else `BadSymbol` at its first relocation of PC Begin whose symbol,
/// or the extended section index of that, is missing. `NoMemory` comes where an allocation fails.
#[tactic(auto, unfolding(crate::specs::Split::frame_input))]
pub fn split_eh_frame<'a, C: ElfClass>(
    alloc: Global,
    file: &File<'a, C>,
    section: SectionIndex,
    list: &RelocationSequence<'a, C>,
    loadable: &[bool],
) -> Result<EhFrames<'a, C>, FrameError>
    ensures split { IfOk result (λ frames. Splits (frame_input C.class file.now.is_dynamic file.now.bytes section.0 (relocations_of C.class list.now) loadable.now) frames) }
    ensures cause { IfErr result (IsFrameCause (frame_input C.class file.now.is_dynamic file.now.bytes section.0 (relocations_of C.class list.now) loadable.now)) }
{
    let bytes = match data_of(file, section) {
        Ok(bytes) => bytes,
        Err(error) => return Err(FrameError::Elf(error)),
    };
    let source = Source {
        file,
        list,
        loadable,
        section,
        bytes,
    };
    source.split(alloc)
}
