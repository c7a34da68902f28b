//! Objects whose tables are refused: for their spans, for placements that do not ascend, and for sections of theirs that cannot be read.

use crate::tables::derive;
use derive_program::DeriveError;
use elf_format::{Architecture, SectionIndex, Span};
use elf_words::SHF_COMPRESSED;
use gdb_index_format::{IndexVersion, Placement, UnitFault};
use std::alloc::Global;
use std::test::Fail;
use test_objects::{ET_REL, UNIT, object, object_with_names, plain, sample};

/// So many bytes of zero are a unit of four bytes more than an index can number.
const TOO_MANY_UNITS: usize = 67_108_868;

/// Returns the length of the index of one object, a span of the buffer, or the cause of its refusal.
fn index_len(
    alloc: Global,
    buffer: &[u8],
    start: usize,
    stop: usize,
    placements: &[Placement],
) -> Result<usize, DeriveError> {
    match derive(
        alloc,
        buffer,
        &[Span { start, stop }],
        placements,
        IndexVersion::V9,
    ) {
        Ok(derived) => Ok(derived.index.len()),
        Err(error) => Err(error),
    }
}

#[test]
fn spans(rt: HostRuntime) -> Result<(), Fail> {
    let alloc = rt.alloc();
    let bytes = sample(alloc)?;
    let len = bytes.len();
    let past = len.saturating_add(1);
    for (start, stop, answer) in [
        (0, len, Ok(52)),
        (5, 3, Err(DeriveError::BadSpan(0))),
        (0, past, Err(DeriveError::BadSpan(0))),
    ] {
        assert_eq!(rt; index_len(alloc, &bytes, start, stop, &[]), answer);
    }
    Ok(())
}

#[test]
fn placements_and_sections(rt: HostRuntime) -> Result<(), Fail> {
    let alloc = rt.alloc();
    let placed = Placement {
        object: 0,
        section: 3,
        address: 4096,
        size: 16,
    };
    let machine = Architecture::X86_64.machine();
    let compressed = object(
        alloc,
        ET_REL,
        machine,
        &[plain(b".debug_info", SHF_COMPRESSED, &UNIT)],
    )?;
    let plain_unit = object_with_names(alloc, &UNIT, &[])?;
    let long_unit = object_with_names(alloc, &[0xff; 12], &[])?;
    let units = vec![in alloc; 0u8; TOO_MANY_UNITS]?;
    let many_units = object_with_names(alloc, &units, &[])?;
    for (bytes, placements, error) in [
        (
            compressed.as_slice(),
            [].as_slice(),
            DeriveError::CompressedSection(0, SectionIndex(1)),
        ),
        (
            plain_unit.as_slice(),
            [placed, placed].as_slice(),
            DeriveError::BadPlacement(1),
        ),
        (
            long_unit.as_slice(),
            [].as_slice(),
            DeriveError::BadUnit {
                object: 0,
                offset: 0,
                fault: UnitFault::InvalidLength,
            },
        ),
        (
            many_units.as_slice(),
            [].as_slice(),
            DeriveError::TooManyUnits(16_777_217),
        ),
    ] {
        assert_eq!(rt;
            index_len(alloc, bytes, 0, bytes.len(), placements),
            Err(error)
        );
    }
    Ok(())
}
