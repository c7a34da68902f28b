//! Whole runs of `merge`: the merged index, to the letter, refusals of either index and of both, and files and texts that fail.

use crate::queries::{MAIN, NO_OFFSETS};
use crate::runs::other_end;
use std::test::Fail;

/// The index of two units of twelve bytes that publish `main`, the second as a static function.
const BOTH: &str = "\
    090000001c0000003c0000003c0000003c0000004c0000005400000000000000\
    000000000c000000000000000c000000000000000c0000000000000000000000\
    000000000c0000000000000000000000000000000200000000000030010000b0\
    6d61696e00";

/// What is written of the index of `main`, merged with itself, the units of the second twelve bytes further on.
const TWICE: &str = "\
index 101
090000001c0000003c0000003c0000003c0000004c0000005400000000000000
000000000c000000000000000c000000000000000c0000000000000000000000
000000000c000000000000000000000000000000020000000000003001000030
6d61696e00
";

/// What is written of the index of `main` alone.
const ALONE: &str = "\
index 81
090000001c0000002c0000002c0000002c0000003c0000004400000000000000
000000000c000000000000000000000000000000080000000000000000000000
0000000001000000000000306d61696e00
";

#[test]
fn merged_indexes(rt: HostRuntime) -> Result<(), Fail> {
    let alloc = rt.alloc();
    let index = hex::decode(alloc, MAIN)?;
    let both = hex::decode(alloc, BOTH)?;
    let texts: [(&str, &[u8]); 4] = [("i", &index), ("b", &both), ("e", &[]), ("o", &NO_OFFSETS)];
    let rows = [
        ("merge i i 12", 9, "derive: Merged 101", 0, TWICE),
        ("merge i e 0", 9, "derive: Merged 81", 0, ALONE),
        ("merge e e 0", 9, "derive: Merged 0", 0, "index 0\n"),
        ("merge e e 0", 0, "derive: WriteFault", 4, "inde"),
        (
            "merge i b 18446744073709551615",
            9,
            "derive: RefusedMerge OffsetTooLarge 1",
            1,
            "",
        ),
        (
            "merge o i 0",
            9,
            "derive: RefusedBrowse Format Offsets",
            1,
            "",
        ),
        (
            "merge i o 0",
            9,
            "derive: RefusedBrowse Format Offsets",
            1,
            "",
        ),
        ("merge q q 0", 9, "derive: ReadFault 1", 3, ""),
        ("merge i q 0", 9, "derive: ReadFault 2", 3, ""),
        ("merge", 9, "derive: BadWords 1", 2, ""),
        ("merge i", 9, "derive: BadWords 2", 2, ""),
        ("merge i i", 9, "derive: BadWords 3", 2, ""),
        ("merge i i 012", 9, "derive: BadWords 3", 2, ""),
        ("merge i i 12 x", 9, "derive: BadWords 4", 2, ""),
    ];
    assert_eq!(rt; other_end(alloc, &texts, &rows)?.as_str(), "");
    Ok(())
}
