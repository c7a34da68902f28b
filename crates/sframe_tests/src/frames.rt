//! SFrame sections (SFrame 2) that are sorted by themselves and by `derive_tables` without an object: their bytes
//! afterwards, and the errors.

use derivation::{DeriveError, derive_tables};
use elf_format::{Architecture, Span};
use gdb_index_format::IndexVersion;
use sframe_find::check_sframe;
use sframe_format::{LargeKind, SframeFault, SframeOutcome, TruncatedKind};
use sframe_order::sort_sframe_section;
use std::alloc::Global;
use std::test::Fail;

/// A contribution with one function, whose FREs have three bytes.
#[derive(Clone, Copy)]
struct Contribution {
    magic: u16,
    version: u8,
    flags: u8,
    start: u32,
    row_offset: u32,
    fres: [u8; 3],
}

/// The first contribution, whose function is the later one.
const FIRST: Contribution = Contribution {
    magic: 0xdee2,
    version: 2,
    flags: 0,
    start: 100,
    row_offset: 0,
    fres: [0xa1, 0xa2, 0xa3],
};

/// The second contribution.
const SECOND: Contribution = Contribution {
    magic: 0xdee2,
    version: 2,
    flags: 0,
    start: 50,
    row_offset: 0,
    fres: [0xb1, 0xb2, 0xb3],
};

/// A contribution whose two functions share three bytes of FREs.
const SHARED: &[u8] = b"\
    \xe2\xde\x02\0\x03\0\xf8\0\x02\0\0\0\x01\0\0\0\x03\0\0\0\0\0\0\0\x28\0\0\0\
    \x07\0\0\0\x10\0\0\0\0\0\0\0\x01\0\0\0\0\0\0\0\
    \x09\0\0\0\x10\0\0\0\0\0\0\0\x01\0\0\0\0\0\0\0\
    \xa1\xa2\xa3";

/// The ranges of the first and the second contribution.
const HALVES: [Span; 2] = [
    Span { start: 0, stop: 51 },
    Span {
        start: 51,
        stop: 102,
    },
];

/// Returns a section of contributions.
fn section_of(alloc: Global, contributions: &[Contribution]) -> Result<Vec<u8>, Fail> {
    let mut section = Vec::new(alloc);
    for one in contributions {
        section.extend_from_slice(&one.magic.to_le_bytes())?;
        section.extend_from_slice(&[one.version, one.flags, 3, 0, 0xf8, 0])?;
        for number in [1, 1, 3, 0, 20, one.start, 16, one.row_offset, 1, 0] {
            section.extend_from_slice(&u32::to_le_bytes(number))?;
        }
        section.extend_from_slice(&one.fres)?;
    }
    Ok(section)
}

/// Returns the sorted section and its outcome, by `derive_tables`.
fn derived(
    alloc: Global,
    sframe: &[u8],
    ranges: &[Span],
    base: u64,
) -> Result<(Vec<u8>, SframeOutcome), DeriveError> {
    match derive_tables(
        alloc,
        Architecture::X86_64,
        &[],
        &[],
        &[],
        sframe,
        ranges,
        base,
        IndexVersion::V9,
    ) {
        Ok(derived) => Ok((derived.sframe, derived.outcome)),
        Err(error) => Err(error),
    }
}

/// Returns the section after `sort_sframe_section`, and its result.
fn sorted(
    alloc: Global,
    sframe: &[u8],
    ranges: &[Span],
    base: u64,
) -> Result<(Vec<u8>, Result<SframeOutcome, SframeFault>), Fail> {
    let mut section = sframe.to_vec(alloc)?;
    let result = sort_sframe_section(alloc, section.as_mut_slice(), base, ranges);
    Ok((section, result))
}

#[test]
fn sorted_sections(rt: HostRuntime) -> Result<(), Fail> {
    let alloc = rt.alloc();
    let absolute = "\
        e2de02010300f8000200000002000000060000000000000028000000\
        3200000010000000000000000100000000000000\
        6400000010000000030000000100000000000000\
        b1b2b3a1a2a3\
        00000000000000000000000000000000000000000000000000000000";
    let relative = "\
        e2de02050300f8000200000002000000060000000000000028000000\
        1600000010000000000000000100000000000000\
        5000000010000000030000000100000000000000\
        b1b2b3a1a2a3\
        00000000000000000000000000000000000000000000000000000000";
    for (flags, base, bytes) in [
        (0, 8192, absolute),
        (0, 0, absolute),
        (4, 8192, relative),
        (4, 0, relative),
    ] {
        let section = section_of(alloc, &[Contribution { flags, ..FIRST }, SECOND])?;
        let (once, result) = sorted(alloc, &section, &HALVES, base)?;
        assert_eq!(rt; result, Ok(SframeOutcome::Sorted { used: 74 }));
        assert_eq!(rt; hex::encode(alloc, once.as_slice())?.as_str(), bytes);
        let used = Span { start: 0, stop: 74 };
        let (again, result) = sorted(alloc, &once, &[used], base)?;
        assert_eq!(rt; result, Ok(SframeOutcome::Sorted { used: 74 }));
        assert_eq!(rt; again.as_slice(), once.as_slice());
        if let Some(used) = once.get(..74) {
            assert!(rt; check_sframe(used, base).is_ok());
        }
        let (bytes, outcome) = derived(alloc, &section, &HALVES, base)?;
        assert_eq!(rt; outcome, SframeOutcome::Sorted { used: 74 });
        assert_eq!(rt; bytes.as_slice(), once.as_slice());
    }
    Ok(())
}

#[test]
fn unchanged_sections(rt: HostRuntime) -> Result<(), Fail> {
    let alloc = rt.alloc();
    let other = Contribution {
        version: 1,
        ..SECOND
    };
    let broken = Contribution {
        magic: 0x1234,
        ..SECOND
    };
    let three = [
        Span { start: 0, stop: 51 },
        Span {
            start: 51,
            stop: 102,
        },
        Span {
            start: 102,
            stop: 153,
        },
    ];
    let short = [Span { start: 0, stop: 27 }];
    for (contributions, ranges, expected) in [
        (
            [FIRST, other].as_slice(),
            HALVES.as_slice(),
            SframeOutcome::OtherVersion(1),
        ),
        (
            [FIRST, other, broken].as_slice(),
            three.as_slice(),
            SframeOutcome::OtherVersion(1),
        ),
        (
            [FIRST, SECOND].as_slice(),
            short.as_slice(),
            SframeOutcome::NoDescriptors,
        ),
    ] {
        let section = section_of(alloc, contributions)?;
        let (bytes, result) = sorted(alloc, &section, ranges, 0)?;
        assert_eq!(rt; result, Ok(expected));
        assert_eq!(rt; bytes.as_slice(), section.as_slice());
        let (bytes, outcome) = derived(alloc, &section, ranges, 0)?;
        assert_eq!(rt; outcome, expected);
        assert_eq!(rt; bytes.as_slice(), section.as_slice());
    }
    Ok(())
}

#[test]
fn sections_with_errors(rt: HostRuntime) -> Result<(), Fail> {
    let alloc = rt.alloc();
    let broken = Contribution {
        magic: 0x1234,
        ..FIRST
    };
    let cut = Contribution {
        row_offset: 3,
        ..FIRST
    };
    let bad_magic = section_of(alloc, &[broken, SECOND])?;
    let bad_offset = section_of(alloc, &[cut, SECOND])?;
    let reversed = [Span { start: 5, stop: 3 }];
    let whole = [Span { start: 0, stop: 71 }];
    for (section, ranges, fault, error) in [
        (
            b"".as_slice(),
            reversed.as_slice(),
            SframeFault::BadRange(0),
            DeriveError::BadRange(0),
        ),
        (
            bad_magic.as_slice(),
            HALVES.as_slice(),
            SframeFault::BadMagic {
                value: 0x1234,
                offset: 0,
            },
            DeriveError::BadMagicBytes {
                value: 0x1234,
                offset: 0,
            },
        ),
        (
            bad_offset.as_slice(),
            HALVES.as_slice(),
            SframeFault::Truncated {
                kind: TruncatedKind::FreOffset,
                offset: 28,
            },
            DeriveError::SframeTruncated {
                kind: TruncatedKind::FreOffset,
                offset: 28,
            },
        ),
        (
            SHARED,
            whole.as_slice(),
            SframeFault::TooLarge {
                kind: LargeKind::Merged,
                needed: 74,
                limit: 71,
            },
            DeriveError::SframeTooLarge {
                kind: LargeKind::Merged,
                needed: 74,
                limit: 71,
            },
        ),
    ] {
        let (bytes, result) = sorted(alloc, section, ranges, 0)?;
        assert_eq!(rt; result, Err(fault));
        assert_eq!(rt; bytes.as_slice(), section);
        assert_eq!(rt; derived(alloc, section, ranges, 0).err(), Some(error));
    }
    Ok(())
}
