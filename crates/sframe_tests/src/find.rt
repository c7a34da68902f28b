//! Functions that are found by address in sections that were checked (SFrame 2), the errors of the check with their
//! texts, and the reader of a contribution.

ghost use Rattle.std.specs.Prelude.{◌≡◌, ◌+◌, ◌<◌, ◌≤◌, length};

use sframe_find::{FindFault, FrameFunction, OrderedFrames, Steps, check_sframe};
use sframe_format::{SframeError, SframeFault, TruncatedKind};
use sframe_order::Contribution;
use std::marker::Brand;
use std::sync::ledger::{Blank, Ledger};
use std::test::Fail;

/// A sorted contribution of two functions of 16 bytes, at 50 and 100.
const SORTED: [u8; 74] = *b"\
    \xe2\xde\x02\x01\x03\0\xf8\0\x02\0\0\0\x02\0\0\0\x06\0\0\0\0\0\0\0\x28\0\0\0\
    \x32\0\0\0\x10\0\0\0\0\0\0\0\x01\0\0\0\0\0\0\0\
    \x64\0\0\0\x10\0\0\0\x03\0\0\0\x01\0\0\0\0\0\0\0\
    \xb1\xb2\xb3\xa1\xa2\xa3";

/// A contribution of one function, whose flag 1 is missing.
const UNSORTED: &[u8] = b"\
    \xe2\xde\x02\0\x03\0\xf8\0\x01\0\0\0\x01\0\0\0\x03\0\0\0\0\0\0\0\x14\0\0\0\
    \x64\0\0\0\x10\0\0\0\0\0\0\0\x01\0\0\0\0\0\0\0\
    \xa1\xa2\xa3";

/// Returns the sorted contribution with other bytes at some offsets.
fn sorted_with(changes: &[(usize, u8)]) -> [u8; 74] {
    let mut bytes = SORTED;
    for (at, value) in changes {
        if let Some(byte) = bytes.get_mut(*at) {
            *byte = *value;
        }
    }
    bytes
}

/// Finds the function of an address in two functions: at most two FDEs are read.
fn find_in_two<L: Ledger>(
    frames: &OrderedFrames,
    address: u64,
    steps: &mut Steps<L>,
) -> Option<usize>
    requires { length frames.now.functions ≡ 2 }
    ensures { steps.new ≤ steps.old + 2 }
{
    frames.find(address, steps)
}

/// Returns the index of the function that is found, and whether it covers the address.
fn find<L: Ledger>(frames: &OrderedFrames, address: u64, blank: Blank) -> Option<(usize, bool)>
    requires name { blank.name ≡ L.name }
    requires parts { blank.parts ≡ L.parts }
    requires some { 0 < blank.parts }
{
    let mut steps = Steps::<L>::new(blank);
    let index = if frames.count() == 2 {
        find_in_two(frames, address, &mut steps)?
    } else {
        frames.find(address, &mut steps)?
    };
    if index < frames.count() {
        Some((index, frames.covers(index, address)))
    } else {
        None
    }
}

#[test]
fn functions_are_found(rt: HostRuntime) {
    let relative = sorted_with(&[(3, 5), (28, 0xfb), (29, 0xff), (30, 0xff), (31, 0xff)]);
    let equal = sorted_with(&[(48, 0x32)]);
    let empty = sorted_with(&[(8, 0)]);
    let rows: [(&[u8], u64, u64, Option<(usize, bool)>); 13] = [
        (&SORTED, 8192, 0, None),
        (&SORTED, 8192, 8241, None),
        (&SORTED, 8192, 8242, Some((0, true))),
        (&SORTED, 8192, 8257, Some((0, true))),
        (&SORTED, 8192, 8260, Some((0, false))),
        (&SORTED, 8192, 8300, Some((1, true))),
        (&SORTED, 8192, u64::MAX, Some((1, false))),
        (&SORTED, u64::MAX, u64::MAX, None),
        (&relative, 0, 22, None),
        (&relative, 0, 23, Some((0, true))),
        (&relative, 0, 148, Some((1, true))),
        (&equal, 8192, 8242, Some((1, true))),
        (&empty, 8192, 8242, None),
    ];
    for (section, base, address, found) in rows {
        let frames = check_sframe(section, base).expect(&rt, "an ordered section");
        assert_eq!(rt; find::<Brand>(&frames, address, Blank::new(1)), found);
    }
}

#[test]
fn functions_are_listed(rt: HostRuntime) {
    let frames = check_sframe(&SORTED, 8192).expect(&rt, "an ordered section");
    assert_eq!(rt; frames.count(), 2);
    let rows: [(usize, Option<i128>, Option<&[u8]>); 3] = [
        (0, Some(8242), Some(b"\xb1\xb2\xb3")),
        (1, Some(8292), Some(b"\xa1\xa2\xa3")),
        (2, None, None),
    ];
    for (index, address, fres) in rows {
        let function = address.map(|address| FrameFunction {
            address,
            size: 16,
            row_count: 1,
            info: 0,
        });
        assert_eq!(rt; frames.function(index), function);
        assert_eq!(rt; frames.rows(index), fres);
    }
    let negative = sorted_with(&[(31, 0x80)]);
    let frames = check_sframe(&negative, 0).expect(&rt, "an ordered section");
    assert_eq!(rt;
        frames.function(0).map(|function| function.address),
        Some(50 - 2_147_483_648)
    );
}

#[test]
fn sections_that_cannot_be_searched(rt: HostRuntime) -> Result<(), Fail> {
    let alloc = rt.alloc();
    let first = Some(FindFault::NotSorted);
    assert_eq!(rt; check_sframe(UNSORTED, 8192).err(), first);
    let short = check_sframe(&SORTED[..26], 8192).err();
    assert_eq!(rt; short, Some(FindFault::Short));
    let rows: [(&[(usize, u8)], FindFault, &str); 8] = [
        (
            &[(0, 0x34)],
            FindFault::Header(SframeError::BadMagicBytes(0xde34)),
            "Invalid SFrame magic 0xde34",
        ),
        (
            &[(2, 1), (3, 0)],
            FindFault::Header(SframeError::UnsupportedVersion(1)),
            "Unsupported SFrame version 1",
        ),
        (
            &[(3, 0), (8, 3)],
            FindFault::NotSorted,
            "the section is not sorted",
        ),
        (
            &[(8, 3)],
            FindFault::Truncated {
                kind: TruncatedKind::FdeArray,
                offset: 0,
            },
            "a part of the contribution at 0 ends beyond it",
        ),
        (
            &[(24, 47)],
            FindFault::Truncated {
                kind: TruncatedKind::FreStart,
                offset: 0,
            },
            "a part of the contribution at 0 ends beyond it",
        ),
        (
            &[(28, 0x65), (56, 6)],
            FindFault::Truncated {
                kind: TruncatedKind::FreOffset,
                offset: 48,
            },
            "a part of the contribution at 48 ends beyond it",
        ),
        (
            &[(28, 0x64), (48, 0x32)],
            FindFault::NotAscending(1),
            "the address of function 1 is below the one before it",
        ),
        (
            &[(28, 0x65)],
            FindFault::NotAscending(1),
            "the address of function 1 is below the one before it",
        ),
    ];
    for (changes, fault, text) in rows {
        let section = sorted_with(changes);
        assert_eq!(rt; check_sframe(&section, 8192).err(), Some(fault));
        assert_eq!(rt; fault.to_string(alloc)?.as_str(), text);
    }
    Ok(())
}

/// Returns the start, the row offset and the FREs of the first function of a contribution without a fault.
fn first_function<'a>(contribution: &Contribution<'a>) -> Option<(i64, u32, &'a [u8])> {
    if contribution.num_fdes() == 0 {
        return None;
    }
    match contribution.fault() {
        Some(_) => None,
        None => Some((
            contribution.start(0),
            contribution.row_offset(0),
            contribution.fres(0),
        )),
    }
}

#[test]
fn contributions_are_read(rt: HostRuntime) {
    let relative = sorted_with(&[(3, 5)]);
    let contribution = Contribution {
        offset: 1000,
        bytes: &relative,
    };
    assert_eq!(rt; contribution.header().flags, 5);
    assert_eq!(rt;
        (contribution.has_flag(4), contribution.has_flag(2)),
        (true, false)
    );
    assert_eq!(rt;
        (contribution.fde_at(1), contribution.fres_start()),
        (48, 68)
    );
    let fres: &[u8] = b"\xb1\xb2\xb3";
    assert_eq!(rt; first_function(&contribution), Some((1078, 0, fres)));
    let cut = Contribution {
        offset: 1000,
        bytes: UNSORTED,
    };
    assert_eq!(rt; cut.fault(), None::<SframeFault>);
}
