//! Sets of `.debug_gnu_pubnames` and `.debug_gnu_pubtypes` (the layout of DWARF 4, 6.1.1).

use dwarf_sections::{SetError, parse_pubnames_sets};
use std::test::Fail;
use test_objects::SET_OF_MAIN;

#[test]
fn sets_of_bytes(rt: HostRuntime) -> Result<(), Fail> {
    let alloc = rt.alloc();
    let sets = parse_pubnames_sets(alloc, &SET_OF_MAIN)?;
    assert_eq!(rt; sets.len(), 1);
    for set in &sets {
        assert_eq!(rt; set.debug_info_offset, 0);
        assert_eq!(rt; set.entries.len(), 1);
        for entry in &set.entries {
            assert_eq!(rt; entry.0, b"main".as_slice());
            assert_eq!(rt; entry.1, 0x30);
        }
    }
    assert!(rt; parse_pubnames_sets(alloc, &SET_OF_MAIN[..27]).err() == Some(SetError::BadSet));
    Ok(())
}
