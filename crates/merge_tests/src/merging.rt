//! What two indexes are merged in, in both versions.

use gdb_index_format::{AddressEntry, CuBoundary, IndexVersion};
use index_browser::check_index;
use index_merge::merge_indexes;
use std::test::Fail;
use test_objects::{MAIN, MAIN_8, MAIN_TWICE, PLACED};

#[test]
fn one_index_twice(rt: HostRuntime) -> Result<(), Fail> {
    let alloc = rt.alloc();
    let indexes: [&[u8]; 2] = [&MAIN, &MAIN_8];
    for bytes in indexes {
        let main = check_index(bytes).ok().expect(&rt, "an index");
        let twice = merge_indexes(alloc, &main, &main, 12, IndexVersion::V9)?;
        assert_eq!(rt; twice.as_slice(), MAIN_TWICE.as_slice());
    }
    Ok(())
}

#[test]
fn an_index_with_none(rt: HostRuntime) -> Result<(), Fail> {
    let alloc = rt.alloc();
    let none = check_index(&[]).ok().expect(&rt, "no bytes");
    let cases: [(&[u8], IndexVersion, &[u8]); 5] = [
        (&MAIN, IndexVersion::V9, &MAIN),
        (&MAIN, IndexVersion::V8, &MAIN_8),
        (&MAIN_8, IndexVersion::V9, &MAIN),
        (&MAIN_8, IndexVersion::V8, &MAIN_8),
        (&[], IndexVersion::V9, &[]),
    ];
    for (bytes, version, expected) in cases {
        let index = check_index(bytes).ok().expect(&rt, "an index");
        let before = merge_indexes(alloc, &index, &none, 0, version)?;
        assert_eq!(rt; before.as_slice(), expected);
        let after = merge_indexes(alloc, &none, &index, 0, version)?;
        assert_eq!(rt; after.as_slice(), expected);
    }
    Ok(())
}

#[test]
fn a_name_and_an_address(rt: HostRuntime) -> Result<(), Fail> {
    let alloc = rt.alloc();
    let main = check_index(&MAIN).ok().expect(&rt, "an index");
    let placed = check_index(&PLACED).ok().expect(&rt, "an index");
    let bytes = merge_indexes(alloc, &main, &placed, 100, IndexVersion::V9)?;
    let merged = check_index(&bytes).ok().expect(&rt, "an index");
    let unit = CuBoundary {
        offset: 100,
        length: 12,
    };
    assert_eq!(rt; merged.unit(1), Some(unit));
    let entry = AddressEntry {
        low: 4096,
        high: 4112,
        unit: 1,
    };
    assert_eq!(rt; merged.address(0), Some(entry));
    assert_eq!(rt; merged.names(alloc)?.len(), 1);
    Ok(())
}
