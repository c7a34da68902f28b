//! What an index that passes its tests lists.

use gdb_index_format::CuBoundary;
use index_browser::check_index;
use std::test::Fail;
use test_objects::{MAIN, MAIN_8};

#[test]
fn an_index_of_one_name(rt: HostRuntime) -> Result<(), Fail> {
    let alloc = rt.alloc();
    let indexes: [&[u8]; 2] = [&MAIN, &MAIN_8];
    for bytes in indexes {
        let index = check_index(bytes).ok().expect(&rt, "an index");
        assert_eq!(rt; index.bytes(), bytes);
        assert_eq!(rt; index.unit_count(), 1);
        let unit = CuBoundary {
            offset: 0,
            length: 12,
        };
        assert_eq!(rt; index.unit(0), Some(unit));
        assert_eq!(rt; index.unit(1), None);
        assert_eq!(rt; index.address_count(), 0);
        assert_eq!(rt; index.address(0), None);
        let names = index.names(alloc)?;
        assert_eq!(rt; names.len(), 1);
        assert_eq!(rt; names[0].name, b"main".as_slice());
        assert_eq!(rt; names[0].vector.len(), 1);
        assert_eq!(rt; names[0].vector.get(0), Some(0x3000_0000));
    }
    Ok(())
}

#[test]
fn names_with_prefixes(rt: HostRuntime) -> Result<(), Fail> {
    let alloc = rt.alloc();
    let index = check_index(&MAIN).ok().expect(&rt, "an index");
    let prefixes: [(&[u8], usize); 5] = [
        (b"", 1),
        (b"ma", 1),
        (b"main", 1),
        (b"main0", 0),
        (b"n", 0),
    ];
    for (prefix, count) in prefixes {
        let names = index.names_with_prefix(alloc, prefix)?;
        assert_eq!(rt; names.len(), count);
    }
    Ok(())
}

#[test]
fn an_index_of_no_bytes(rt: HostRuntime) -> Result<(), Fail> {
    let index = check_index(&[]).ok().expect(&rt, "an index");
    assert_eq!(rt; index.unit_count(), 0);
    assert_eq!(rt; index.unit(0), None);
    assert_eq!(rt; index.address_count(), 0);
    assert_eq!(rt; index.names(rt.alloc())?.len(), 0);
    Ok(())
}
