//! What one object gives to an index (GDB manual, "Index Section Format"), and how a malformed object is refused.

use elf_format::{Architecture, ElfError, SectionIndex};
use elf_records64::Class64;
use elf_view::File;
use elf_words::SHF_COMPRESSED;
use gdb_index::gdb_hash;
use gdb_index_format::{CuBoundary, UnitFault};
use gdb_scan::{GdbError, build_section_cu_map, scan_one_object, section_units};
use std::test::Fail;
use test_objects::{
    ET_REL, SET_OF_MAIN, UNIT, object, object_of_two_units, object_with_names, plain,
};

const FIRST: CuBoundary = CuBoundary {
    offset: 0,
    length: 12,
};

#[test]
fn an_object_is_scanned(rt: HostRuntime) -> Result<(), Fail> {
    let alloc = rt.alloc();
    let bytes = object_with_names(alloc, &UNIT, &SET_OF_MAIN)?;
    if bytes.len() >= 1 << 39 {
        return Ok(());
    }
    let file = File::<Class64>::parse_bytes(&bytes, false).expect(&rt, "an object");
    let scan = scan_one_object(alloc, 0, &file, &[])?.expect(&rt, "an object with a unit");
    assert_eq!(rt; scan.units(), [FIRST].as_slice());
    assert_eq!(rt; scan.placed(), 0);
    assert_eq!(rt; scan.publications().len(), 1);
    for publication in scan.publications() {
        assert_eq!(rt; publication.name, b"main".as_slice());
        assert_eq!(rt; publication.hash, gdb_hash(b"main"));
        let mark = publication.mark();
        assert!(rt; mark.unit == 0 && mark.flag == 0x30);
    }
    Ok(())
}

/// Returns how an object with these bytes of `.debug_info` and `.debug_gnu_pubnames` is refused, where the sections have
/// these flags.
fn refused_as(rt: &HostRuntime, info: (u64, &[u8]), names: (u64, &[u8])) -> Option<GdbError> {
    let alloc = rt.alloc();
    let bytes = object(
        alloc,
        ET_REL,
        Architecture::X86_64.machine(),
        &[
            plain(b".debug_info", info.0, info.1),
            plain(b".debug_gnu_pubnames", names.0, names.1),
        ],
    )
    .ok()?;
    if bytes.len() >= 1 << 39 {
        return None;
    }
    let file = File::<Class64>::parse_bytes(&bytes, false).ok()?;
    scan_one_object(alloc, 0, &file, &[]).err()
}

#[test]
fn malformed_objects_are_refused(rt: HostRuntime) -> Result<(), Fail> {
    let cut = &SET_OF_MAIN[..27];
    for (info, names, error) in [
        ((0, UNIT.as_slice()), (0, SET_OF_MAIN.as_slice()), None),
        (
            (SHF_COMPRESSED, UNIT.as_slice()),
            (0, cut),
            Some(GdbError::CompressedSection(0, SectionIndex(1))),
        ),
        (
            (0, UNIT.as_slice()),
            (SHF_COMPRESSED, cut),
            Some(GdbError::CompressedSection(0, SectionIndex(2))),
        ),
        (
            (0, &UNIT[..11]),
            (0, cut),
            Some(GdbError::BadUnit {
                object: 0,
                offset: 0,
                fault: UnitFault::InvalidLength,
            }),
        ),
        (
            (0, UNIT.as_slice()),
            (0, cut),
            Some(GdbError::BadPubnames(0, SectionIndex(2))),
        ),
        ((0, [].as_slice()), (0, cut), None),
    ] {
        assert!(rt; refused_as(&rt, info, names) == error);
    }
    Ok(())
}

/// Returns how an object of one unit and the name `main` is refused, with one of its bytes changed.
fn changed_refused_as(rt: &HostRuntime, offset: usize, byte: u8) -> Option<GdbError> {
    let alloc = rt.alloc();
    let mut bytes = object_with_names(alloc, &UNIT, &SET_OF_MAIN).ok()?;
    if let Some(to) = bytes.get_mut(offset) {
        *to = byte;
    }
    if bytes.len() >= 1 << 39 {
        return None;
    }
    let file = File::<Class64>::parse_bytes(&bytes, false).ok()?;
    scan_one_object(alloc, 0, &file, &[]).err()
}

#[test]
fn changed_objects_are_refused(rt: HostRuntime) -> Result<(), Fail> {
    for (offset, byte, error) in [
        (
            242,
            8,
            Some(GdbError::CompressedSection(0, SectionIndex(1))),
        ),
        (
            306,
            8,
            Some(GdbError::CompressedSection(0, SectionIndex(2))),
        ),
        (
            64,
            9,
            Some(GdbError::BadUnit {
                object: 0,
                offset: 0,
                fault: UnitFault::InvalidLength,
            }),
        ),
        (76, 0x19, Some(GdbError::BadPubnames(0, SectionIndex(2)))),
        (258, 0xff, Some(GdbError::BadElf(0, ElfError::SectionData))),
        (242, 0, None),
    ] {
        assert!(rt; changed_refused_as(&rt, offset, byte) == error, "{offset}");
    }
    Ok(())
}

#[test]
fn sections_have_units(rt: HostRuntime) -> Result<(), Fail> {
    let alloc = rt.alloc();
    let bytes = object_of_two_units(alloc)?;
    let file = File::<Class64>::parse_bytes(&bytes, false).expect(&rt, "an object");
    let second = CuBoundary {
        offset: 12,
        length: 12,
    };
    let map = build_section_cu_map(alloc, &file, &[FIRST, second])?;
    assert_eq!(rt; map.len(), 2);
    assert!(rt; map.get(&3).copied() == Some(0));
    assert!(rt; map.get(&4).copied() == Some(1));
    let moved = [
        CuBoundary {
            offset: 100,
            length: 12,
        },
        CuBoundary {
            offset: 112,
            length: 12,
        },
    ];
    let map = section_units(alloc, &file, &moved, 100)?;
    assert_eq!(rt; map.len(), 2);
    assert!(rt; map.get(&3).copied() == Some(0));
    assert!(rt; map.get(&4).copied() == Some(1));
    Ok(())
}
