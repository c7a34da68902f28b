//! Why an index is refused: each test that one can fail, once in each version, and which comes first.

use gdb_index_format::BadIndex;
use index_browser::{BrowseError, check_index};
use std::test::Fail;
use test_objects::{MAIN, MAIN_8, with_bytes};

/// The slots of `MAIN`, exchanged.
const EXCHANGED: &[u8] = b"\x08\0\0\0\0\0\0\0\0\0\0\0\0\0\0\0";

#[test]
fn truncated_headers(rt: HostRuntime) {
    let indexes: [&[u8]; 4] = [&MAIN[..1], &MAIN[..20], &MAIN[..27], &MAIN_8[..23]];
    for index in indexes {
        assert_eq!(rt; check_index(index).err(), Some(BrowseError::Short));
    }
    assert_eq!(rt;
        check_index(&MAIN_8[..24]).err(),
        Some(BrowseError::Format(BadIndex::Offsets))
    );
}

#[test]
fn damaged_indexes(rt: HostRuntime) -> Result<(), Fail> {
    let changes: [(usize, &[u8], BrowseError); 12] = [
        (0, b"\x07", BrowseError::Format(BadIndex::Version)),
        (8, b"\0", BrowseError::Format(BadIndex::Offsets)),
        (20, b"\x44", BrowseError::Format(BadIndex::Slots)),
        (8, b"\x1c", BrowseError::TypeUnits),
        (8, b"\x24\0\0\0\x24", BrowseError::UnitArea),
        (8, b"\x1c\0\0\0\x1c", BrowseError::AddressArea(0)),
        (52, b"\xff", BrowseError::NameOutside(1)),
        (68, b"\x02\x01", BrowseError::VectorOutside(1)),
        (68, b"\0", BrowseError::BadVector(1)),
        (72, b"\0\0\0\x31", BrowseError::BadVector(1)),
        (72, b"\x01", BrowseError::BadVector(1)),
        (44, EXCHANGED, BrowseError::Misplaced(0)),
    ];
    for (offset, bytes, fault) in changes {
        let index = with_bytes(rt.alloc(), &MAIN, offset, bytes)?;
        assert_eq!(rt; check_index(&index).err(), Some(fault));
    }
    Ok(())
}

#[test]
fn damaged_indexes_of_version_8(rt: HostRuntime) -> Result<(), Fail> {
    let changes: [(usize, &[u8], BrowseError); 9] = [
        (8, b"\x18", BrowseError::TypeUnits),
        (8, b"\x20\0\0\0\x20", BrowseError::UnitArea),
        (8, b"\x18\0\0\0\x18", BrowseError::AddressArea(0)),
        (48, b"\xff", BrowseError::NameOutside(1)),
        (56, b"\x02\x01", BrowseError::VectorOutside(1)),
        (56, b"\0", BrowseError::BadVector(1)),
        (60, b"\0\0\0\x31", BrowseError::BadVector(1)),
        (60, b"\x01", BrowseError::BadVector(1)),
        (40, EXCHANGED, BrowseError::Misplaced(0)),
    ];
    for (offset, bytes, fault) in changes {
        let index = with_bytes(rt.alloc(), &MAIN_8, offset, bytes)?;
        assert_eq!(rt; check_index(&index).err(), Some(fault));
    }
    Ok(())
}
