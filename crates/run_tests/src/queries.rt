//! Whole runs of the commands that ask one thing of one file: the line on standard error, the exit status, and what is written.

use crate::arguments::arguments_of;
use crate::runs::{FRAMES, other_end, outcome, outcome_of};
use std::test::Fail;

/// The index of one unit of twelve bytes that publishes `main`.
pub(crate) const MAIN: &str = "\
    090000001c0000002c0000002c0000002c0000003c0000004400000000000000\
    000000000c000000000000000000000000000000080000000000000000000000\
    0000000001000000000000306d61696e00";

/// The same index with its slots exchanged.
const EXCHANGED: &str = "\
    090000001c0000002c0000002c0000002c0000003c0000004400000000000000\
    000000000c000000000000000800000000000000000000000000000000000000\
    0000000001000000000000306d61696e00";

/// The same index with an element of a unit that is not listed.
const OTHER_UNIT: &str = "\
    090000001c0000002c0000002c0000002c0000003c0000004400000000000000\
    000000000c000000000000000000000000000000080000000000000000000000\
    0000000001000000010000306d61696e00";

/// The same index with the addresses 4096 to 4111.
const ADDRESSED: &str = "\
    090000001c0000002c0000002c00000040000000500000005800000000000000\
    000000000c000000000000000010000000000000101000000000000000000000\
    0000000000000000080000000000000000000000000000000100000000000030\
    6d61696e00";

/// The sorted contribution (SFrame 2) of two functions of 16 bytes, at 50 and 100.
const SORTED: [u8; 74] = *b"\
    \xe2\xde\x02\x01\x03\0\xf8\0\x02\0\0\0\x02\0\0\0\x06\0\0\0\0\0\0\0\x28\0\0\0\
    \x32\0\0\0\x10\0\0\0\0\0\0\0\x01\0\0\0\0\0\0\0\
    \x64\0\0\0\x10\0\0\0\x03\0\0\0\x01\0\0\0\0\0\0\0\
    \xb1\xb2\xb3\xa1\xa2\xa3";

/// An index whose offsets do not ascend.
pub(crate) const NO_OFFSETS: [u8; 28] =
    *b"\x09\0\0\0\0\0\0\0\0\0\0\0\0\0\0\0\0\0\0\0\0\0\0\0\0\0\0\0";

/// Returns the sorted contribution with this magic and version, and these starts of its functions.
fn sorted_with(header: [u8; 3], first: [u8; 4], second: [u8; 4]) -> [u8; 74] {
    let mut bytes = SORTED;
    bytes[0] = header[0];
    bytes[1] = header[1];
    bytes[2] = header[2];
    bytes[28] = first[0];
    bytes[29] = first[1];
    bytes[30] = first[2];
    bytes[31] = first[3];
    bytes[48] = second[0];
    bytes[49] = second[1];
    bytes[50] = second[2];
    bytes[51] = second[3];
    bytes
}

#[test]
fn names_in_an_index(rt: HostRuntime) -> Result<(), Fail> {
    let alloc = rt.alloc();
    let index = hex::decode(alloc, MAIN)?;
    let texts: [(&str, &[u8]); 2] = [("i", &index), ("o", &NO_OFFSETS)];
    let rows = [
        ("find i 6d61696e", 9, "derive: Found", 0, "30000000\n"),
        ("find i 6D61696E", 9, "derive: Found", 0, "30000000\n"),
        ("find i 6d", 9, "derive: Absent", 8, ""),
        ("find o 6d", 9, "derive: RefusedIndex Offsets", 1, ""),
        ("find q 6d", 9, "derive: ReadFault 1", 3, ""),
        ("find i 6d61696e", 0, "derive: WriteFault", 4, "3000"),
        ("find i 6", 9, "derive: BadWords 2", 2, ""),
    ];
    assert_eq!(rt; other_end(alloc, &texts, &rows)?.as_str(), "");
    let reads = [0].to_vec(alloc)?;
    let none = Vec::new(alloc);
    let (said, status, written) = outcome(alloc, "find i 6d61696e", &texts, reads, none)?;
    assert_eq!(rt; said.as_str(), "derive: ReadFault 1");
    assert_eq!(rt; status, 3);
    assert_eq!(rt; written.len(), 0);
    let mut arguments = arguments_of(alloc, "find i")?;
    arguments.push(String::new(alloc))?;
    let none = Vec::new(alloc);
    let (said, status, _) = outcome_of(alloc, &arguments, &texts, none, Vec::new(alloc))?;
    assert_eq!(rt; said.as_str(), "derive: Absent");
    assert_eq!(rt; status, 8);
    Ok(())
}

#[test]
fn functions_of_addresses(rt: HostRuntime) -> Result<(), Fail> {
    let alloc = rt.alloc();
    let magic = [0xe2, 0xde, 2];
    let below = sorted_with(magic, [0xf0, 0xff, 0xff, 0xff], [100, 0, 0, 0]);
    let exchanged = sorted_with(magic, [100, 0, 0, 0], [50, 0, 0, 0]);
    let other_magic = sorted_with([0x34, 0x12, 2], [50, 0, 0, 0], [100, 0, 0, 0]);
    let other_version = sorted_with([0xe2, 0xde, 1], [50, 0, 0, 0], [100, 0, 0, 0]);
    let texts: [(&str, &[u8]); 8] = [
        ("s", &SORTED),
        ("b", &below),
        ("x", &exchanged),
        ("m", &other_magic),
        ("v", &other_version),
        ("u", &FRAMES[..51]),
        ("h", &SORTED[..26]),
        ("c", &SORTED[..60]),
    ];
    let rows = [
        ("frame s 8192 8241", 9, "derive: Absent", 8, ""),
        (
            "frame s 8192 8242",
            9,
            "derive: Located 0",
            0,
            "function 0 8242 16 inside\n",
        ),
        (
            "frame s 8192 8257",
            9,
            "derive: Located 0",
            0,
            "function 0 8242 16 inside\n",
        ),
        (
            "frame s 8192 8260",
            9,
            "derive: Located 0",
            0,
            "function 0 8242 16 past\n",
        ),
        (
            "frame s 8192 8300",
            9,
            "derive: Located 1",
            0,
            "function 1 8292 16 inside\n",
        ),
        (
            "frame b 0 0",
            9,
            "derive: Located 0",
            0,
            "function 0 -16 16 past\n",
        ),
        (
            "frame s 8192 8242",
            0,
            "derive: WriteFault",
            4,
            "function 0 82",
        ),
        ("frame q 8192 8242", 9, "derive: ReadFault 1", 3, ""),
        (
            "frame u 8192 8242",
            9,
            "derive: RefusedFrames NotSorted",
            1,
            "",
        ),
        ("frame h 8192 8242", 9, "derive: RefusedFrames Short", 1, ""),
        (
            "frame x 8192 8242",
            9,
            "derive: RefusedFrames NotAscending 1",
            1,
            "",
        ),
        (
            "frame m 8192 8242",
            9,
            "derive: RefusedFrames Header BadMagicBytes 4660",
            1,
            "",
        ),
        (
            "frame v 8192 8242",
            9,
            "derive: RefusedFrames Header UnsupportedVersion 1",
            1,
            "",
        ),
        (
            "frame c 8192 8242",
            9,
            "derive: RefusedFrames Truncated FdeArray 0",
            1,
            "",
        ),
    ];
    assert_eq!(rt; other_end(alloc, &texts, &rows)?.as_str(), "");
    Ok(())
}

#[test]
fn lists_of_an_index(rt: HostRuntime) -> Result<(), Fail> {
    let alloc = rt.alloc();
    let index = hex::decode(alloc, MAIN)?;
    let addressed = hex::decode(alloc, ADDRESSED)?;
    let texts: [(&str, &[u8]); 3] = [("i", &index), ("a", &addressed), ("e", &[])];
    let rows = [
        (
            "browse i",
            9,
            "derive: Listed 1",
            0,
            "units 1\nunit 0 0 12\naddresses 0\nnames 1\nname 6d61696e 30000000\n",
        ),
        (
            "browse a 6D61",
            9,
            "derive: Listed 1",
            0,
            "units 1\nunit 0 0 12\naddresses 1\naddress 4096 4112 0\nnames 1\nname 6d61696e 30000000\n",
        ),
        (
            "browse i 6e",
            9,
            "derive: Listed 0",
            0,
            "units 1\nunit 0 0 12\naddresses 0\nnames 0\n",
        ),
        (
            "browse e",
            9,
            "derive: Listed 0",
            0,
            "units 0\naddresses 0\nnames 0\n",
        ),
        ("browse e", 0, "derive: WriteFault", 4, "units 0\naddres"),
        ("browse q", 9, "derive: ReadFault 1", 3, ""),
        ("browse", 9, "derive: BadWords 1", 2, ""),
        ("browse i 6", 9, "derive: BadWords 2", 2, ""),
        ("browse i 6g", 9, "derive: BadWords 2", 2, ""),
        ("browse i 6d x", 9, "derive: BadWords 3", 2, ""),
    ];
    assert_eq!(rt; other_end(alloc, &texts, &rows)?.as_str(), "");
    Ok(())
}

#[test]
fn indexes_that_are_not_listed(rt: HostRuntime) -> Result<(), Fail> {
    let alloc = rt.alloc();
    let exchanged = hex::decode(alloc, EXCHANGED)?;
    let other_unit = hex::decode(alloc, OTHER_UNIT)?;
    let texts: [(&str, &[u8]); 4] = [
        ("x", &exchanged),
        ("u", &other_unit),
        ("s", &SORTED[..20]),
        ("o", &NO_OFFSETS),
    ];
    let rows = [
        ("browse x", 9, "derive: RefusedBrowse Misplaced 0", 1, ""),
        ("browse u", 9, "derive: RefusedBrowse BadVector 1", 1, ""),
        ("browse s", 9, "derive: RefusedBrowse Short", 1, ""),
        ("browse o", 9, "derive: RefusedBrowse Format Offsets", 1, ""),
    ];
    assert_eq!(rt; other_end(alloc, &texts, &rows)?.as_str(), "");
    Ok(())
}
