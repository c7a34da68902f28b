//! Compilation units (CUs) of `.debug_info` (DWARF 5, 7.4 and 7.5.1), and the units of offsets.

use dwarf_sections::{UnitError, cu_index_for_offset, parse_cu_boundaries, unit_with_offset};
use gdb_index_format::CuBoundary;
use std::test::Fail;
use test_objects::UNIT;

/// Two units, of twelve bytes and of four, and a rest of three bytes.
const TWO_UNITS: [u8; 19] = [8, 0, 0, 0, 0, 0, 0, 0, 0, 0, 0, 0, 0, 0, 0, 0, 1, 2, 3];

const FIRST: CuBoundary = CuBoundary {
    offset: 0,
    length: 12,
};

const SECOND: CuBoundary = CuBoundary {
    offset: 12,
    length: 4,
};

#[test]
fn units_of_bytes(rt: HostRuntime) -> Result<(), Fail> {
    let alloc = rt.alloc();
    assert!(rt; parse_cu_boundaries(alloc, &[])?.is_empty());
    let one = parse_cu_boundaries(alloc, &UNIT)?;
    assert_eq!(rt; one.as_slice(), [FIRST].as_slice());
    let two = parse_cu_boundaries(alloc, &TWO_UNITS)?;
    assert_eq!(rt; two.as_slice(), [FIRST, SECOND].as_slice());
    for (bytes, error) in [
        (
            [0xff, 0xff, 0xff, 0xff, 0, 0, 0, 0].as_slice(),
            UnitError::Truncated { offset: 0 },
        ),
        (&[0xff; 12], UnitError::InvalidLength { offset: 0 }),
        (
            &[9, 0, 0, 0, 0, 0, 0, 0, 0, 0, 0, 0],
            UnitError::InvalidLength { offset: 0 },
        ),
    ] {
        assert!(rt; parse_cu_boundaries(alloc, bytes).err() == Some(error));
    }
    Ok(())
}

#[test]
fn units_of_offsets(rt: HostRuntime) -> Result<(), Fail> {
    let units = [FIRST];
    assert!(rt; unit_with_offset(&units, 0) == Some(0));
    assert!(rt; unit_with_offset(&units, 4).is_none());
    assert!(rt; cu_index_for_offset(&units, 11) == Some(0));
    assert!(rt; cu_index_for_offset(&units, 12).is_none());
    Ok(())
}
