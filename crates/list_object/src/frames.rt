//! Lists what an `.eh_frame` section holds.

use crate::error::ListError;
use elf_format::{ElfError, SectionIndex};
use elf_frames::{EhFrames, ExceptionFrame, FrameError, split_eh_frame};
use elf_relocs::Relocation;
use elf_view::File;
use elf_words::ElfClass;
use std::alloc::Global;
use std::io;

/// How many bytes of an FDE stand before its field PC Begin, whose relocation is the first of the entry: the length and the
/// CIE pointer.
const BEFORE_BEGIN: u64 = 8;

/// Splits the first section of this name. Every section counts as loadable. Without such a section there is no frame.
fn split<'a, C: ElfClass>(
    alloc: Global,
    file: &File<'a, C>,
) -> Result<EhFrames<'a, C>, FrameError> {
    let Some((section, _)) = file.section_by_name(".eh_frame") else {
        return Ok(EhFrames::new(alloc));
    };
    let Ok(sections) = file.parse_relocations(alloc) else {
        return Err(FrameError::Elf(ElfError::RelocationTable));
    };
    let Ok(list) = file.relocations(section, &sections) else {
        return Err(FrameError::Elf(ElfError::RelocationTable));
    };
    let Ok(sequence) = list.to_sequence(alloc) else {
        return Err(FrameError::Elf(ElfError::RelocationTable));
    };
    let loadable = vec![in alloc; true; file.num_sections()]?;
    split_eh_frame(alloc, file, section, &sequence, &loadable)
}

/// Returns the offset of a frame in its section: its first relocation is that of PC Begin.
fn offset_of<C: ElfClass>(frame: &ExceptionFrame<'_, C>) -> u64 {
    match frame.relocations.rel_iter().next() {
        Some(relocation) => relocation.offset().saturating_sub(BEFORE_BEGIN),
        None => 0,
    }
}

/// Prints a line for each CIE, `cie OFFSET LENGTH`, and for each frame, `frame OFFSET LENGTH SECTION`, section by section, the
/// last frame of a section first; then `total BYTES REST`.
fn print<C: ElfClass, R: Print>(
    rt: &R,
    frames: &EhFrames<'_, C>,
    sections: usize,
) -> io::Result<()> {
    for cie in frames.cies() {
        println!(rt; "cie {} {}", cie.offset, cie.bytes.len())?;
    }
    for section in 0..sections {
        for index in frames.chain(SectionIndex(section)) {
            if let Some(frame) = frames.frames().get(index.0) {
                let offset = offset_of(frame);
                println!(rt; "frame {offset} {} {section}", frame.frame_size)?;
            }
        }
    }
    println!(rt; "total {} {}", frames.total_bytes(), frames.rest())
}

/// Lists the frames of a file of one class.
pub(crate) fn list_frames<C: ElfClass, R: Print>(
    rt: &R,
    alloc: Global,
    file: &File<'_, C>,
) -> Result<(), ListError> {
    let frames = split(alloc, file)?;
    print(rt, &frames, file.num_sections())?;
    Ok(())
}
