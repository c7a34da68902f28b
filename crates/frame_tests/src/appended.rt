//! A CIE and a frame of section 3, split with RELA records and with CREL, and appended.

use crate::lists::{in_crel, records, relocation, sequence};
use elf_format::SectionIndex;
use elf_frames::{EhFrames, FrameIndex, split_eh_frame};
use elf_records64::Class64;
use elf_relocs::RelocationSequence;
use elf_view::File;
use std::test::Fail;
use test_objects::object_of_two_units;

// the numbers of CIEs and frames, of the CIE its offset and its length, and of the frame its section and its relocations
fn counts(frames: &EhFrames<'_, Class64>) -> Option<[usize; 6]> {
    let cie = frames.cies().first()?;
    let frame = frames.frames().first()?;
    Some([
        frames.cies().len(),
        frames.frames().len(),
        cie.offset,
        cie.bytes.len(),
        frame.eh_frame_section_index.0,
        frame.relocations.num_relocations(),
    ])
}

// the sizes of all CIEs, of all, of the frames of section 3, and of the rest
fn sizes(frames: &EhFrames<'_, Class64>) -> [u64; 4] {
    let of_section = frames.section_frame_sizes(SectionIndex(3));
    [
        frames.cie_bytes(),
        frames.total_bytes(),
        of_section.eh_frame_size,
        frames.rest(),
    ]
}

fn split<'a>(
    rt: &HostRuntime,
    file: &File<'a, Class64>,
    list: &RelocationSequence<'a, Class64>,
) -> Result<EhFrames<'a, Class64>, Fail> {
    Ok(split_eh_frame(rt.alloc(), file, SectionIndex(6), list, &[true; 10])?)
}

// both are short, so that their sizes can be added
fn appended<'a>(
    mut frames: EhFrames<'a, Class64>,
    others: EhFrames<'a, Class64>,
) -> Result<EhFrames<'a, Class64>, Fail> {
    if frames.total_bytes() < 1000 && others.total_bytes() < 1000 {
        frames.append(others)?;
    }
    Ok(frames)
}

#[test]
fn either_form_and_appended(rt: HostRuntime) -> Result<(), Fail> {
    let object = object_of_two_units(rt.alloc())?;
    let file = File::<Class64>::parse_bytes(&object, false)?;
    let bytes = records(rt.alloc(), &[relocation(16, 1)])?;
    let frames = split(&rt, &file, &sequence(rt.alloc(), &bytes)?)?;
    let others = split(&rt, &file, &in_crel(rt.alloc(), relocation(16, 1))?)?;
    for either in [&frames, &others] {
        assert_eq!(rt; counts(either), Some([1, 1, 0, 8, 6, 1]));
        assert_eq!(rt; sizes(either), [8, 24, 16, 0]);
        assert_eq!(rt; either.last(SectionIndex(3)), Some(FrameIndex(0)));
    }
    let frames = appended(frames, others)?;
    assert_eq!(rt; frames.last(SectionIndex(3)), Some(FrameIndex(1)));
    let mut chain = frames.chain(SectionIndex(3));
    assert_eq!(rt;
        [chain.next(), chain.next(), chain.next()],
        [Some(FrameIndex(1)), Some(FrameIndex(0)), None]
    );
    assert_eq!(rt; frames.section_frame_sizes(SectionIndex(3)).num_frames, 2);
    Ok(())
}
