//! The index that the writer makes of an object, in each version, and a damaged entry of its address area.

use elf_view::AnyFile;
use gdb_index_format::{AddressEntry, IndexVersion, Placement};
use gdb_tables::{build_index, first_misplaced};
use index_browser::{BrowseError, check_index};
use std::alloc::{AllocError, Global};
use std::test::Fail;
use test_objects::{SET_OF_MAIN, UNIT, object_with_names, with_bytes};

/// The addresses of the 16 bytes of code.
const CODE: Placement = Placement {
    object: 0,
    section: 3,
    address: 4096,
    size: 16,
};

/// Returns the index of an object of one unit that publishes `main`, whose code has addresses; no bytes where it has none.
fn index_of_main(alloc: Global, version: IndexVersion) -> Result<Vec<u8>, AllocError> {
    let bytes = object_with_names(alloc, &UNIT, &SET_OF_MAIN)?;
    let Ok(file) = AnyFile::parse_bytes(&bytes[..bytes.len().min(4096)], false) else {
        return Ok(Vec::new(alloc));
    };
    let files = [file];
    if first_misplaced(&files, &[CODE]).is_some() {
        return Ok(Vec::new(alloc));
    }
    match build_index(alloc, &files, &[CODE], version) {
        Ok(tables) => Ok(tables.index),
        Err(_) => Ok(Vec::new(alloc)),
    }
}

#[test]
fn written_indexes(rt: HostRuntime) -> Result<(), Fail> {
    let alloc = rt.alloc();
    for (version, unit_at) in [(IndexVersion::V9, 60), (IndexVersion::V8, 56)] {
        let bytes = index_of_main(alloc, version)?;
        let index = check_index(&bytes).ok().expect(&rt, "an index");
        assert_eq!(rt; index.unit_count(), 1);
        let entry = AddressEntry {
            low: 4096,
            high: 4112,
            unit: 0,
        };
        assert_eq!(rt; index.address_count(), 1);
        assert_eq!(rt; index.address(0), Some(entry));
        assert_eq!(rt; index.address(1), None);
        assert_eq!(rt; index.names(alloc)?.len(), 1);
        let of_no_unit = with_bytes(alloc, &bytes, unit_at, &[1])?;
        assert_eq!(rt;
            check_index(&of_no_unit).err(),
            Some(BrowseError::AddressArea(0))
        );
    }
    Ok(())
}
