//! The merge of scans, the size of an index, and its bytes (GDB manual, "Index Section Format").

use crate::index::{
    FUNCTION, NO_NAME, NO_NAME_8, ONE_NAME, ONE_NAME_8, TWO_BUCKETS, TWO_NAMES, TWO_WORDS, find,
};
use crate::written::{built, built_of_two, placed, write_index};
use elf_records64::Class64;
use elf_view::{AnyFile, File};
use gdb_index_format::{CuBoundary, IndexVersion};
use gdb_tables::{compute_gdb_index_size, merge_gdb_index_scans, scan_one_object};
use std::marker::Brand;
use std::sync::ledger::Blank;
use std::test::Fail;
use test_objects::{ObjectClass, SET_OF_MAIN, UNIT, object_with_names, object_with_names_of};

/// The set that publishes `main` and `MAIN`.
const SET_OF_TWO: &[u8] =
    b"\x22\0\0\0\x02\0\0\0\0\0\x0c\0\0\0\x2a\0\0\0\x30main\0\x2b\0\0\0\x30MAIN\0\0\0\0\0";

/// The set that publishes the function `a` and the static function `r`, whose bucket is before that of `a`.
const SET_OF_TWO_BUCKETS: &[u8] =
    b"\x1c\0\0\0\x02\0\0\0\0\0\x0c\0\0\0\x2a\0\0\0\x30a\0\x2b\0\0\0\xb0r\0\0\0\0\0";

/// The set that publishes `main` twice.
const SET_OF_REPEATS: &[u8] =
    b"\x22\0\0\0\x02\0\0\0\0\0\x0c\0\0\0\x2a\0\0\0\x30main\0\x2b\0\0\0\x30main\0\0\0\0\0";

/// An index of one unit, the name `main` and the addresses 4096 to 4111.
const ONE_ADDRESS: [u8; 101] = [
    9, 0, 0, 0, 28, 0, 0, 0, 44, 0, 0, 0, 44, 0, 0, 0, 64, 0, 0, 0, 80, 0, 0, 0, 88, 0, 0, 0, 0, 0,
    0, 0, 0, 0, 0, 0, 12, 0, 0, 0, 0, 0, 0, 0, 0, 16, 0, 0, 0, 0, 0, 0, 16, 16, 0, 0, 0, 0, 0, 0,
    0, 0, 0, 0, 0, 0, 0, 0, 0, 0, 0, 0, 8, 0, 0, 0, 0, 0, 0, 0, 0, 0, 0, 0, 0, 0, 0, 0, 1, 0, 0, 0,
    0, 0, 0, 48, 109, 97, 105, 110, 0,
];

/// An index of one unit and the name `main`, with room for an address entry that is not there.
const SAVED_ADDRESS: [u8; 101] = [
    9, 0, 0, 0, 28, 0, 0, 0, 44, 0, 0, 0, 44, 0, 0, 0, 44, 0, 0, 0, 60, 0, 0, 0, 68, 0, 0, 0, 0, 0,
    0, 0, 0, 0, 0, 0, 12, 0, 0, 0, 0, 0, 0, 0, 0, 0, 0, 0, 0, 0, 0, 0, 8, 0, 0, 0, 0, 0, 0, 0, 0,
    0, 0, 0, 0, 0, 0, 0, 1, 0, 0, 0, 0, 0, 0, 48, 109, 97, 105, 110, 0, 0, 0, 0, 0, 0, 0, 0, 0, 0,
    0, 0, 0, 0, 0, 0, 0, 0, 0, 0, 0,
];

const FIRST: CuBoundary = CuBoundary {
    offset: 0,
    length: 12,
};

#[test]
fn scans_are_merged(rt: HostRuntime) -> Result<(), Fail> {
    let alloc = rt.alloc();
    let bytes = object_with_names(alloc, &UNIT, &SET_OF_MAIN)?;
    if bytes.len() >= 1 << 39 {
        return Ok(());
    }
    let file = File::<Class64>::parse_bytes(&bytes, false).expect(&rt, "an object");
    let scan = scan_one_object(alloc, 0, &file, &[])?.expect(&rt, "an object with a unit");
    let merged = merge_gdb_index_scans(alloc, vec![in alloc; Some(scan)]?)?;
    assert_eq!(rt; merged.units(), [FIRST].as_slice());
    assert_eq!(rt; merged.unit_counts(), [1].as_slice());
    assert_eq!(rt; merged.placed(), 0);
    assert_eq!(rt; merged.names().len(), 1);
    for named in merged.names() {
        assert_eq!(rt; named.name, b"main".as_slice());
        assert_eq!(rt; named.words.as_slice(), [FUNCTION].as_slice());
    }
    Ok(())
}

#[test]
fn objects_have_a_size(rt: HostRuntime) -> Result<(), Fail> {
    let alloc = rt.alloc();
    let bytes = object_with_names(alloc, &UNIT, &SET_OF_MAIN)?;
    if bytes.len() >= 1 << 39 {
        return Ok(());
    }
    let one = AnyFile::parse_bytes(&bytes, false).expect(&rt, "an object");
    let first = AnyFile::parse_bytes(&bytes, false).expect(&rt, "an object");
    let second = AnyFile::parse_bytes(&bytes, false).expect(&rt, "an object");
    let none: [AnyFile<'_>; 0] = [];
    let (size, scan) = compute_gdb_index_size(alloc, &[one], &[], IndexVersion::V8)?;
    assert!(rt; size == 69 && scan.is_some());
    let (size, scan) = compute_gdb_index_size(alloc, &[first, second], &[], IndexVersion::V9)?;
    assert!(rt; size == 101 && scan.is_some());
    let (size, scan) = compute_gdb_index_size(alloc, &none, &[], IndexVersion::V9)?;
    assert!(rt; size == 0 && scan.is_none());
    Ok(())
}

#[test]
fn indexes_are_written(rt: HostRuntime) -> Result<(), Fail> {
    let alloc = rt.alloc();
    let at_page = [placed(3, 4096, 16)];
    let nowhere = [placed(3, 0, 16)];
    let (v8, v9) = (IndexVersion::V8, IndexVersion::V9);
    let main = Some((1, FUNCTION));
    for (names, placements, version, index, name, found) in [
        (
            b"".as_slice(),
            [].as_slice(),
            v9,
            NO_NAME.as_slice(),
            b"main".as_slice(),
            None,
        ),
        (b"", &[], v8, &NO_NAME_8, b"main", None),
        (&SET_OF_MAIN, &[], v9, &ONE_NAME, b"main", main),
        (&SET_OF_MAIN, &[], v8, &ONE_NAME_8, b"main", main),
        (SET_OF_TWO, &[], v9, &TWO_NAMES, b"main", main),
        (SET_OF_TWO, &[], v9, &TWO_NAMES, b"MAIN", main),
        (SET_OF_TWO, &[], v9, &TWO_NAMES, b"foo", None),
        (SET_OF_TWO_BUCKETS, &[], v9, &TWO_BUCKETS, b"a", main),
        (
            SET_OF_TWO_BUCKETS,
            &[],
            v9,
            &TWO_BUCKETS,
            b"r",
            Some((1, 0xb000_0000)),
        ),
        (
            SET_OF_REPEATS,
            &[],
            v9,
            &TWO_WORDS,
            b"main",
            Some((2, FUNCTION)),
        ),
        (&SET_OF_MAIN, &at_page, v9, &ONE_ADDRESS, b"main", main),
        (&SET_OF_MAIN, &nowhere, v9, &SAVED_ADDRESS, b"main", main),
    ] {
        for class in [ObjectClass::Elf64, ObjectClass::Elf32] {
            let bytes = object_with_names_of(alloc, class, &UNIT, names)?;
            if bytes.len() < 1 << 39 {
                let written = write_index(alloc, &bytes, placements, version)?;
                assert_eq!(rt; written.index.as_slice(), index);
                let tables = built(alloc, &bytes, placements, version)?.expect(&rt, "an object");
                assert_eq!(rt; tables.index.as_slice(), index);
                assert_eq!(rt;
                    find::<Brand>(&written.index, name, Blank::new(1)),
                    Ok(found)
                );
            }
        }
    }
    Ok(())
}

#[test]
fn classes_are_mixed(rt: HostRuntime) -> Result<(), Fail> {
    let alloc = rt.alloc();
    let first = object_with_names_of(alloc, ObjectClass::Elf64, &UNIT, &SET_OF_MAIN)?;
    let second = object_with_names_of(alloc, ObjectClass::Elf32, &UNIT, &SET_OF_MAIN)?;
    assert_eq!(rt; (first.len(), second.len()), (489, 357));
    let next = CuBoundary {
        offset: 12,
        length: 12,
    };
    for (one, two) in [(&first, &second), (&second, &first), (&second, &second)] {
        if one.len() < 1 << 39 && two.len() < 1 << 39 {
            let tables = built_of_two(alloc, one, two, IndexVersion::V9)?.expect(&rt, "objects");
            assert_eq!(rt; tables.units.as_slice(), [FIRST, next].as_slice());
            assert_eq!(rt; tables.index.len(), 101);
            assert_eq!(rt; tables.names.len(), 1);
            for named in &tables.names {
                assert_eq!(rt; named.name, b"main".as_slice());
                assert_eq!(rt; named.words.as_slice(), [FUNCTION, FUNCTION + 1].as_slice());
            }
        }
    }
    Ok(())
}
