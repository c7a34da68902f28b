//! The index as bytes (GDB manual, "Index Section Format"): hashes, slots, elements, sizes and lookups.

ghost use Rattle.std.specs.Prelude.{◌≡◌, ◌<◌, codes};
ghost use Rattle.gdb_index_format.specs.Example.{index_of_two};
ghost use Rattle.gdb_index_format.specs.Probe.{probe};

use gdb_tables::{
    BadIndex, IndexCounts, IndexTooLarge, IndexVersion, Steps, checked_index_size,
    compute_hash_table_slots, encode_cu_vector_entry, gdb_hash, index_size, lookup,
};
use std::marker::Brand;
use std::sync::ledger::{Blank, Ledger};

/// The element of a CU vector for a global function of CU 0.
pub const FUNCTION: u32 = 0x3000_0000;

/// An index of one unit and no names.
pub const NO_NAME: [u8; 52] = [
    9, 0, 0, 0, 28, 0, 0, 0, 44, 0, 0, 0, 44, 0, 0, 0, 44, 0, 0, 0, 44, 0, 0, 0, 52, 0, 0, 0, 0, 0,
    0, 0, 0, 0, 0, 0, 12, 0, 0, 0, 0, 0, 0, 0, 0, 0, 0, 0, 0, 0, 0, 0,
];

/// An index of one unit and the name `main`.
pub const ONE_NAME: [u8; 81] = [
    9, 0, 0, 0, 28, 0, 0, 0, 44, 0, 0, 0, 44, 0, 0, 0, 44, 0, 0, 0, 60, 0, 0, 0, 68, 0, 0, 0, 0, 0,
    0, 0, 0, 0, 0, 0, 12, 0, 0, 0, 0, 0, 0, 0, 0, 0, 0, 0, 0, 0, 0, 0, 8, 0, 0, 0, 0, 0, 0, 0, 0,
    0, 0, 0, 0, 0, 0, 0, 1, 0, 0, 0, 0, 0, 0, 48, 109, 97, 105, 110, 0,
];

/// The header of an index of version 7, which is not known.
const VERSION_7: [u8; 28] = [
    7, 0, 0, 0, 0, 0, 0, 0, 0, 0, 0, 0, 0, 0, 0, 0, 0, 0, 0, 0, 0, 0, 0, 0, 0, 0, 0, 0,
];

/// The header of an index of version 8 whose offsets are 0.
const NO_OFFSETS: [u8; 24] = [
    8, 0, 0, 0, 0, 0, 0, 0, 0, 0, 0, 0, 0, 0, 0, 0, 0, 0, 0, 0, 0, 0, 0, 0,
];

/// An index of one unit, in version 8.
pub const NO_NAME_8: [u8; 40] = [
    8, 0, 0, 0, 24, 0, 0, 0, 40, 0, 0, 0, 40, 0, 0, 0, 40, 0, 0, 0, 40, 0, 0, 0, 0, 0, 0, 0, 0, 0,
    0, 0, 12, 0, 0, 0, 0, 0, 0, 0,
];

/// An index of one unit and the name `main`, in version 8.
pub const ONE_NAME_8: [u8; 69] = [
    8, 0, 0, 0, 24, 0, 0, 0, 40, 0, 0, 0, 40, 0, 0, 0, 40, 0, 0, 0, 56, 0, 0, 0, 0, 0, 0, 0, 0, 0,
    0, 0, 12, 0, 0, 0, 0, 0, 0, 0, 0, 0, 0, 0, 0, 0, 0, 0, 8, 0, 0, 0, 0, 0, 0, 0, 1, 0, 0, 0, 0,
    0, 0, 48, 109, 97, 105, 110, 0,
];

/// An index of one unit and the names `r` and `a`, in the order of their buckets.
pub const TWO_BUCKETS: [u8; 104] = [
    9, 0, 0, 0, 28, 0, 0, 0, 44, 0, 0, 0, 44, 0, 0, 0, 44, 0, 0, 0, 76, 0, 0, 0, 84, 0, 0, 0, 0, 0,
    0, 0, 0, 0, 0, 0, 12, 0, 0, 0, 0, 0, 0, 0, 18, 0, 0, 0, 8, 0, 0, 0, 16, 0, 0, 0, 0, 0, 0, 0, 0,
    0, 0, 0, 0, 0, 0, 0, 0, 0, 0, 0, 0, 0, 0, 0, 0, 0, 0, 0, 0, 0, 0, 0, 1, 0, 0, 0, 0, 0, 0, 176,
    1, 0, 0, 0, 0, 0, 0, 48, 114, 0, 97, 0,
];

/// An index of one unit and the names `main` and `MAIN`, which have one hash.
pub const TWO_NAMES: [u8; 110] = [
    9, 0, 0, 0, 28, 0, 0, 0, 44, 0, 0, 0, 44, 0, 0, 0, 44, 0, 0, 0, 76, 0, 0, 0, 84, 0, 0, 0, 0, 0,
    0, 0, 0, 0, 0, 0, 12, 0, 0, 0, 0, 0, 0, 0, 0, 0, 0, 0, 0, 0, 0, 0, 16, 0, 0, 0, 0, 0, 0, 0, 21,
    0, 0, 0, 8, 0, 0, 0, 0, 0, 0, 0, 0, 0, 0, 0, 0, 0, 0, 0, 0, 0, 0, 0, 1, 0, 0, 0, 0, 0, 0, 48,
    1, 0, 0, 0, 0, 0, 0, 48, 109, 97, 105, 110, 0, 77, 65, 73, 78, 0,
];

/// An index of one unit and the name `main`, which is published twice.
pub const TWO_WORDS: [u8; 85] = [
    9, 0, 0, 0, 28, 0, 0, 0, 44, 0, 0, 0, 44, 0, 0, 0, 44, 0, 0, 0, 60, 0, 0, 0, 68, 0, 0, 0, 0, 0,
    0, 0, 0, 0, 0, 0, 12, 0, 0, 0, 0, 0, 0, 0, 0, 0, 0, 0, 0, 0, 0, 0, 12, 0, 0, 0, 0, 0, 0, 0, 0,
    0, 0, 0, 0, 0, 0, 0, 2, 0, 0, 0, 0, 0, 0, 48, 0, 0, 0, 48, 109, 97, 105, 110, 0,
];

#[test]
fn hashes_slots_and_elements(rt: HostRuntime) {
    let hashes: [(&[u8], u32); 5] = [
        (b"", 0),
        (b"a", 4_294_967_280),
        (b"main", 4_293_691_881),
        (b"Main", 4_293_691_881),
        (b"foo", 4_294_917_781),
    ];
    for (name, hash) in hashes {
        assert_eq!(rt; gdb_hash(name), hash);
    }
    for (names, slots) in [(0, 0), (1, 2), (2, 4), (3, 8)] {
        assert_eq!(rt; compute_hash_table_slots(names), slots);
    }
    assert_eq!(rt; encode_cu_vector_entry(5, 0x30), 0x3000_0005);
    assert_eq!(rt; encode_cu_vector_entry(42, 0xb0), 0xb000_002a);
}

#[test]
fn sizes_have_a_limit(rt: HostRuntime) {
    let mut counts = IndexCounts {
        units: 1,
        placed: 0,
        names: 0,
        words: 0,
        name_bytes: 4_294_967_243,
    };
    assert_eq!(rt;
        checked_index_size(&counts, IndexVersion::V9),
        Ok(4_294_967_295)
    );
    counts.name_bytes = 4_294_967_244;
    assert_eq!(rt;
        checked_index_size(&counts, IndexVersion::V9),
        Err(IndexTooLarge(4_294_967_296))
    );
    counts.name_bytes = 4_294_967_256;
    assert_eq!(rt;
        checked_index_size(&counts, IndexVersion::V8),
        Err(IndexTooLarge(4_294_967_296))
    );
    counts.units = 0;
    assert_eq!(rt; index_size(&counts, IndexVersion::V9), 0);
}

/// Returns the number of elements that a lookup finds, and the last of them.
pub fn find<L: Ledger>(
    index: &[u8],
    name: &[u8],
    blank: Blank,
) -> Result<Option<(usize, u32)>, BadIndex>
    requires name { blank.name ≡ L.name }
    requires parts { blank.parts ≡ L.parts }
    requires some { 0 < blank.parts }
{
    let mut steps = Steps::<L>::new(blank);
    let Some(vector) = lookup(index, name, &mut steps)? else {
        return Ok(None);
    };
    let count = vector.len();
    if count == 0 {
        return Ok(None);
    }
    Ok(vector.get(count - 1).map(|element| (count, element)))
}

/// The probe steps that a lookup counts in an index of one unit and the names `main` and `MAIN`, which have one hash:
/// the first name is found at once, the second after one collision, and an absent name with their hash after two.
fn probes_take_steps()
    ensures first { (probe index_of_two (codes "main")).steps ≡ 1 }
    ensures second { (probe index_of_two (codes "MAIN")).steps ≡ 2 }
    ensures absent { (probe index_of_two (codes "foo")).steps ≡ 3 }
{}

#[test]
fn lookups_find_names(rt: HostRuntime) {
    let rows: [(&[u8], &[u8], Option<(usize, u32)>); 9] = [
        (&NO_NAME, b"main", None),
        (&ONE_NAME, b"main", Some((1, FUNCTION))),
        (&ONE_NAME, b"m", None),
        (&TWO_NAMES, b"MAIN", Some((1, FUNCTION))),
        (&TWO_NAMES, b"foo", None),
        (&TWO_WORDS, b"main", Some((2, FUNCTION))),
        (&ONE_NAME_8, b"main", Some((1, FUNCTION))),
        (&ONE_NAME_8, b"m", None),
        (&VERSION_7[..24], b"main", None),
    ];
    for (index, name, found) in rows {
        assert_eq!(rt; find::<Brand>(index, name, Blank::new(1)), Ok(found));
    }
    probes_take_steps();
}

#[test]
fn malformed_indexes_are_refused(rt: HostRuntime) {
    let faults: [(usize, u8, BadIndex); 5] = [
        (0, 7, BadIndex::Version),
        (4, 27, BadIndex::Offsets),
        (20, 61, BadIndex::Slots),
        (55, 0x7f, BadIndex::NameOutside),
        (71, 0xff, BadIndex::VectorOutside),
    ];
    for (at, byte, fault) in faults {
        let mut index = ONE_NAME;
        index[at] = byte;
        assert_eq!(rt; find::<Brand>(&index, b"main", Blank::new(1)), Err(fault));
    }
    for (index, fault) in [
        (VERSION_7.as_slice(), BadIndex::Version),
        (NO_OFFSETS.as_slice(), BadIndex::Offsets),
    ] {
        assert_eq!(rt; find::<Brand>(index, b"main", Blank::new(1)), Err(fault));
    }
}
