//! Sections of which no frame is kept, or that are refused.

use crate::lists::{records, relocation, sequence};
use elf_format::{Crel, ElfError, SectionIndex};
use elf_frames::{EhFrames, FrameError, split_eh_frame};
use elf_records64::Class64;
use elf_view::File;
use elf_words::SHF_ALLOC;
use std::test::Fail;
use test_objects::{ET_REL, object, object_of_two_units, plain};

#[test]
fn relocations_out_of_order(rt: HostRuntime) -> Result<(), Fail> {
    let object = object_of_two_units(rt.alloc())?;
    let file = File::<Class64>::parse_bytes(&object, false)?;
    for (list, frames) in [
        ([relocation(30, 1), relocation(16, 1)], 0),
        ([relocation(16, 1), relocation(4, 1)], 1),
    ] {
        let bytes = records(rt.alloc(), &list)?;
        let list = sequence(rt.alloc(), &bytes)?;
        let found = split_eh_frame(rt.alloc(), &file, SectionIndex(6), &list, &[true; 10])?;
        assert!(rt; found.cies().len() == 1 && found.frames().len() == frames);
        let sizes = found.section_frame_sizes(SectionIndex(3));
        assert!(rt; sizes.num_frames == frames);
    }
    Ok(())
}

#[test]
fn bytes_that_are_no_entry(rt: HostRuntime) -> Result<(), Fail> {
    for (count, rest) in [(5, 5), (4, 0)] {
        let zeros = vec![in rt.alloc(); 0u8; count]?;
        let object = object(
            rt.alloc(),
            ET_REL,
            62,
            &[plain(b".eh_frame", SHF_ALLOC, &zeros)],
        )?;
        let file = File::<Class64>::parse_bytes(&object, false)?;
        let list = sequence(rt.alloc(), &[])?;
        let found = split_eh_frame(rt.alloc(), &file, SectionIndex(1), &list, &[])?;
        assert!(rt; found.cies().is_empty() && found.frames().is_empty() && found.rest() == rest);
    }
    Ok(())
}

#[test]
fn refused(rt: HostRuntime) -> Result<(), Fail> {
    let object = object_of_two_units(rt.alloc())?;
    let file = File::<Class64>::parse_bytes(&object, false)?;
    for (section, symbol, error) in [
        (6, 3, FrameError::BadSymbol { relocation: 0 }),
        (9, 1, FrameError::BadEntry { offset: 0 }),
        (99, 1, FrameError::Elf(ElfError::SectionTable)),
    ] {
        let bytes = records(rt.alloc(), &[relocation(16, symbol)])?;
        let list = sequence(rt.alloc(), &bytes)?;
        let found = split_eh_frame(rt.alloc(), &file, SectionIndex(section), &list, &[true; 10]);
        assert!(rt; matches!(found, Err(cause) if cause == error));
    }
    Ok(())
}
