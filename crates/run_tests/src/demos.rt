//! Whole runs of `demo`: the summary, to the letter, the tables, usage errors, and a summary that is not written whole.

use crate::arguments::arguments_of;
use crate::runs::other_end;
use derive_program::{Ran, run};
use program_io::{MemoryFiles, MemorySink};
use sframe_format::SframeOutcome;
use std::test::Fail;

/// The summaries of no object, of one, of three and of 1000.
const NONE: &str = "objects 0\nunits 0\nnames 0\nindex 0\ncommon 0\noutcome none\n";

const ONE: &str = "objects 1\nunits 1\nnames 2\nindex 132\ncommon 1\noutcome sorted 51\n";

const THREE: &str = "objects 3\nunits 3\nnames 4\nindex 270\ncommon 3\noutcome sorted 97\n";

const THOUSAND: &str =
    "objects 1000\nunits 1000\nnames 1001\nindex 69431\ncommon 1000\noutcome sorted 23028\n";

/// The first half of the summary of three objects.
const HALF: &str = "objects 3\nunits 3\nnames 4\nindex";

#[test]
fn summaries_of_numbers(rt: HostRuntime) -> Result<(), Fail> {
    let alloc = rt.alloc();
    let rows = [
        ("demo 0", 9, "derive: Shown", 0, NONE),
        ("demo 1", 9, "derive: Shown", 0, ONE),
        ("demo 3", 9, "derive: Shown", 0, THREE),
        ("demo 1000", 9, "derive: Shown", 0, THOUSAND),
        ("demo 3", 0, "derive: WriteFault", 4, HALF),
        ("demo", 9, "derive: BadWords 1", 2, ""),
        ("demo 01", 9, "derive: BadWords 1", 2, ""),
        ("demo 1001", 9, "derive: BadWords 1", 2, ""),
        ("demo x", 9, "derive: BadWords 1", 2, ""),
        ("demo 3 x", 9, "derive: BadWords 2", 2, ""),
    ];
    assert_eq!(rt; other_end(alloc, &[], &rows)?.as_str(), "");
    Ok(())
}

#[test]
fn tables_of_three_objects(rt: HostRuntime) -> Result<(), Fail> {
    let alloc = rt.alloc();
    let arguments = arguments_of(alloc, "demo 3")?;
    let mut files = MemoryFiles::new(Vec::new(alloc), Vec::new(alloc));
    let mut out = MemorySink::new(alloc, Vec::new(alloc));
    let Ran::Shown(summary, tables) = run(alloc, &arguments, &mut files, &mut out) else {
        return Err(Fail::from("not shown"));
    };
    assert_eq!(rt; summary.common, 3);
    assert_eq!(rt; tables.index.len(), 270);
    assert_eq!(rt; tables.sframe.len(), 153);
    assert_eq!(rt; tables.outcome, SframeOutcome::Sorted { used: 97 });
    Ok(())
}
