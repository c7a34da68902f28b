//! Why two indexes are not merged.

use gdb_index_format::IndexVersion;
use index_browser::check_index;
use index_merge::{MergeError, merge_indexes};
use std::test::Fail;
use test_objects::{MAIN, MAIN_TWICE};

#[test]
fn an_offset_too_large(rt: HostRuntime) -> Result<(), Fail> {
    let alloc = rt.alloc();
    let main = check_index(&MAIN).ok().expect(&rt, "an index");
    let twice = check_index(&MAIN_TWICE).ok().expect(&rt, "an index");
    let refused = merge_indexes(alloc, &main, &twice, u64::MAX, IndexVersion::V9).err();
    assert_eq!(rt; refused, Some(MergeError::OffsetTooLarge(1)));
    let moved = merge_indexes(alloc, &main, &twice, u64::MAX - 12, IndexVersion::V9)?;
    assert_eq!(rt; moved.len(), 117 + 4);
    Ok(())
}
