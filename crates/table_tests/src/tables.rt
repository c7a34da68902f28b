//! The tables of objects: the indexes (GDB manual, "Index Section Format"), byte by byte, the units that they list, and what a lookup of
//! a name finds in them.

ghost use Rattle.std.specs.Prelude.{◌≡◌, ◌<◌};

use derive_program::{DeriveError, Derived, derive_tables};
use elf_format::{Architecture, Span};
use gdb_index_format::{CuBoundary, IndexVersion, Placement};
use gdb_tables::{BadIndex, Steps, lookup};
use std::alloc::Global;
use std::marker::Brand;
use std::sync::ledger::{Blank, Ledger};
use std::test::Fail;
use test_objects::{SET_OF_MAIN, UNIT, object_with_names};

/// The element of a CU vector for a global function of unit 0.
const FUNCTION: u32 = 0x3000_0000;

/// Two units of twelve bytes, one after the other.
const UNITS: [CuBoundary; 2] = [
    CuBoundary {
        offset: 0,
        length: 12,
    },
    CuBoundary {
        offset: 12,
        length: 12,
    },
];

/// A unit of four bytes.
const SMALL_UNIT: CuBoundary = CuBoundary {
    offset: 0,
    length: 4,
};

/// A unit of twelve bytes, and three bytes after it.
const UNIT_AND_REST: &[u8] = b"\x08\0\0\0\0\0\0\0\0\0\0\0\x01\x02\x03";

/// The set that publishes `main` and `MAIN`, which have one hash.
const SET_OF_TWO: &[u8] =
    b"\x22\0\0\0\x02\0\0\0\0\0\x0c\0\0\0\x2a\0\0\0\x30main\0\x2b\0\0\0\x30MAIN\0\0\0\0\0";

/// The set that publishes `main` twice.
const SET_OF_REPEATS: &[u8] =
    b"\x22\0\0\0\x02\0\0\0\0\0\x0c\0\0\0\x2a\0\0\0\x30main\0\x2b\0\0\0\x30main\0\0\0\0\0";

/// The set of a unit at offset 4, where none begins.
const SET_OF_NO_UNIT: &[u8] = b"\x18\0\0\0\x02\0\x04\0\0\0\x0c\0\0\0\x2a\0\0\0\x30main\0\0\0\0\0";

/// The set that publishes `main` as a static function.
const SET_OF_STATIC: &[u8] = b"\x18\0\0\0\x02\0\0\0\0\0\x0c\0\0\0\x2a\0\0\0\xb0main\0\0\0\0\0";

/// The set that publishes `a` as a function and `r` as a static function.
const SET_OF_TWO_BUCKETS: &[u8] =
    b"\x1c\0\0\0\x02\0\0\0\0\0\x0c\0\0\0\x2a\0\0\0\x30a\0\x2b\0\0\0\xb0r\0\0\0\0\0";

/// The index of one unit of twelve bytes and no names.
const NO_NAME: &str = "\
    090000001c0000002c0000002c0000002c0000002c0000003400000000000000\
    000000000c000000000000000000000000000000";

/// The index of one unit of four bytes and no names.
const SMALL: &str = "\
    090000001c0000002c0000002c0000002c0000002c0000003400000000000000\
    0000000004000000000000000000000000000000";

/// The index of one unit of twelve bytes that publishes `main`.
const MAIN: &str = "\
    090000001c0000002c0000002c0000002c0000003c0000004400000000000000\
    000000000c000000000000000000000000000000080000000000000000000000\
    0000000001000000000000306d61696e00";

/// The same, where its code is placed at address 0: the address is not known.
const MAIN_NOWHERE: &str = "\
    090000001c0000002c0000002c0000002c0000003c0000004400000000000000\
    000000000c000000000000000000000000000000080000000000000000000000\
    0000000001000000000000306d61696e00000000000000000000000000000000\
    0000000000";

/// The same, where its code is placed at address 4096.
const MAIN_AT_PAGE: &str = "\
    090000001c0000002c0000002c00000040000000500000005800000000000000\
    000000000c000000000000000010000000000000101000000000000000000000\
    0000000000000000080000000000000000000000000000000100000000000030\
    6d61696e00";

/// The index of one unit that publishes `main` twice.
const MAIN_TWICE: &str = "\
    090000001c0000002c0000002c0000002c0000003c0000004400000000000000\
    000000000c0000000000000000000000000000000c0000000000000000000000\
    000000000200000000000030000000306d61696e00";

/// The index of one unit that publishes `main` and `MAIN`.
const ONE_HASH: &str = "\
    090000001c0000002c0000002c0000002c0000004c0000005400000000000000\
    000000000c000000000000000000000000000000100000000000000015000000\
    0800000000000000000000000000000000000000010000000000003001000000\
    000000306d61696e004d41494e00";

/// The index of two units and no names.
const TWO_UNITS: &str = "\
    090000001c0000003c0000003c0000003c0000003c0000004400000000000000\
    000000000c000000000000000c000000000000000c0000000000000000000000\
    00000000";

/// The index of two units, of which the first publishes `main` and the second a static `main`.
const TWO_MAINS: &str = "\
    090000001c0000003c0000003c0000003c0000004c0000005400000000000000\
    000000000c000000000000000c000000000000000c0000000000000000000000\
    000000000c0000000000000000000000000000000200000000000030010000b0\
    6d61696e00";

/// The index of one unit of twelve bytes and no names, in version 8.
const NO_NAME_8: &str = "\
    0800000018000000280000002800000028000000280000000000000000000000\
    0c00000000000000";

/// The index of one unit of twelve bytes that publishes `main`, in version 8.
const MAIN_8: &str = "\
    0800000018000000280000002800000028000000380000000000000000000000\
    0c00000000000000000000000000000008000000000000000100000000000030\
    6d61696e00";

/// The index of one unit that publishes `a` and then a static `r`: the bucket of `r` is 0, and that of `a` is 31.
const TWO_BUCKETS: &str = "\
    090000001c0000002c0000002c0000002c0000004c0000005400000000000000\
    000000000c000000000000001200000008000000100000000000000000000000\
    000000000000000000000000000000000000000001000000000000b001000000\
    0000003072006100";

/// Derives the tables of objects without SFrame bytes.
pub(crate) fn derive<'a>(
    alloc: Global,
    buffer: &'a [u8],
    objects: &[Span],
    placements: &[Placement],
    version: IndexVersion,
) -> Result<Derived<'a>, DeriveError> {
    if buffer.len() >= 1 << 39 || objects.len() >= 1 << 24 {
        return Err(DeriveError::NoMemory);
    }
    derive_tables(
        alloc,
        Architecture::X86_64,
        buffer,
        objects,
        placements,
        &[],
        &[],
        0,
        version,
    )
}

/// Returns the number of elements that a lookup finds, and the last of them.
fn find<L: Ledger>(
    index: &[u8],
    name: &[u8],
    blank: Blank,
) -> Result<Option<(usize, u32)>, BadIndex>
    requires name { blank.name ≡ L.name }
    requires parts { blank.parts ≡ L.parts }
    requires some { 0 < blank.parts }
{
    let mut steps = Steps::<L>::new(blank);
    let Some(vector) = lookup(index, name, &mut steps)? else {
        return Ok(None);
    };
    let last = vector.get(vector.len().saturating_sub(1));
    Ok(last.map(|element| (vector.len(), element)))
}

/// Returns the bytes of objects, one after the other, and where each stands. An object is given by its bytes of `.debug_info` and of
/// `.debug_gnu_pubnames`.
fn objects_of(alloc: Global, objects: &[(&[u8], &[u8])]) -> Result<(Vec<u8>, Vec<Span>), Fail> {
    let mut buffer = Vec::new(alloc);
    let mut spans = Vec::new(alloc);
    for (info, names) in objects {
        let start = buffer.len();
        buffer.extend_from_slice(&object_with_names(alloc, info, names)?)?;
        spans.push(Span {
            start,
            stop: buffer.len(),
        })?;
    }
    Ok((buffer, spans))
}

#[test]
fn indexes_of_objects(rt: HostRuntime) -> Result<(), Fail> {
    let alloc = rt.alloc();
    let unit = UNIT.as_slice();
    let main = SET_OF_MAIN.as_slice();
    let none = b"".as_slice();
    for (version, objects, units, names, index, found) in [
        (
            IndexVersion::V9,
            [(unit, main)].as_slice(),
            &UNITS[..1],
            1,
            MAIN,
            Some((1, FUNCTION)),
        ),
        (
            IndexVersion::V9,
            [(unit, none)].as_slice(),
            &UNITS[..1],
            0,
            NO_NAME,
            None,
        ),
        (
            IndexVersion::V9,
            [(unit, SET_OF_REPEATS)].as_slice(),
            &UNITS[..1],
            1,
            MAIN_TWICE,
            Some((2, FUNCTION)),
        ),
        (
            IndexVersion::V9,
            [(unit, SET_OF_TWO)].as_slice(),
            &UNITS[..1],
            2,
            ONE_HASH,
            Some((1, FUNCTION)),
        ),
        (
            IndexVersion::V9,
            [([0; 4].as_slice(), none)].as_slice(),
            [SMALL_UNIT].as_slice(),
            0,
            SMALL,
            None,
        ),
        (
            IndexVersion::V9,
            [(unit, SET_OF_NO_UNIT)].as_slice(),
            &UNITS[..1],
            0,
            NO_NAME,
            None,
        ),
        (
            IndexVersion::V9,
            [(none, b"\x01".as_slice())].as_slice(),
            [].as_slice(),
            0,
            "",
            None,
        ),
        (IndexVersion::V9, [].as_slice(), [].as_slice(), 0, "", None),
        (
            IndexVersion::V9,
            [(unit, main), (unit, SET_OF_STATIC)].as_slice(),
            UNITS.as_slice(),
            1,
            TWO_MAINS,
            Some((2, 0xb000_0001)),
        ),
        (
            IndexVersion::V9,
            [(UNIT_AND_REST, none), (unit, none)].as_slice(),
            UNITS.as_slice(),
            0,
            TWO_UNITS,
            None,
        ),
        (
            IndexVersion::V8,
            [(unit, main)].as_slice(),
            &UNITS[..1],
            1,
            MAIN_8,
            Some((1, FUNCTION)),
        ),
        (
            IndexVersion::V8,
            [(unit, none)].as_slice(),
            &UNITS[..1],
            0,
            NO_NAME_8,
            None,
        ),
        (
            IndexVersion::V8,
            [(none, none)].as_slice(),
            [].as_slice(),
            0,
            "",
            None,
        ),
        (
            IndexVersion::V9,
            [(unit, SET_OF_TWO_BUCKETS)].as_slice(),
            &UNITS[..1],
            2,
            TWO_BUCKETS,
            None,
        ),
    ] {
        let (buffer, spans) = objects_of(alloc, objects)?;
        let derived = derive(alloc, &buffer, &spans, &[], version)?;
        assert_eq!(rt; derived.units.as_slice(), units);
        assert_eq!(rt; derived.names.len(), names);
        assert_eq!(rt;
            hex::encode(alloc, derived.index.as_slice())?.as_str(),
            index
        );
        assert_eq!(rt;
            find::<Brand>(&derived.index, b"main", Blank::new(1)),
            Ok(found)
        );
    }
    Ok(())
}

#[test]
fn lookups_in_an_index(rt: HostRuntime) -> Result<(), Fail> {
    let alloc = rt.alloc();
    let (buffer, spans) = objects_of(alloc, &[(UNIT.as_slice(), SET_OF_TWO)])?;
    let derived = derive(alloc, &buffer, &spans, &[], IndexVersion::V9)?;
    for (name, found) in [
        (b"main".as_slice(), Some((1, FUNCTION))),
        (b"MAIN".as_slice(), Some((1, FUNCTION))),
        (b"foo".as_slice(), None),
    ] {
        assert_eq!(rt;
            find::<Brand>(&derived.index, name, Blank::new(1)),
            Ok(found)
        );
    }
    Ok(())
}

#[test]
fn placed_code(rt: HostRuntime) -> Result<(), Fail> {
    let alloc = rt.alloc();
    let (buffer, spans) = objects_of(alloc, &[(UNIT.as_slice(), SET_OF_MAIN.as_slice())])?;
    for (address, index) in [(0, MAIN_NOWHERE), (4096, MAIN_AT_PAGE)] {
        let placed = Placement {
            object: 0,
            section: 3,
            address,
            size: 16,
        };
        let derived = derive(alloc, &buffer, &spans, &[placed], IndexVersion::V9)?;
        assert_eq!(rt;
            hex::encode(alloc, derived.index.as_slice())?.as_str(),
            index
        );
        assert_eq!(rt;
            find::<Brand>(&derived.index, b"main", Blank::new(1)),
            Ok(Some((1, FUNCTION)))
        );
    }
    Ok(())
}
