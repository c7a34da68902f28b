//! Whole runs over files in memory that do not end well: the line on standard error, the exit status, and what is written.

use crate::arguments::arguments_of;
use derive_program::{DeriveError, Ran, run};
use elf_format::SectionIndex;
use elf_words::{SHF_ALLOC, SHF_EXECINSTR};
use program_io::{MemoryFiles, MemorySink};
use sframe_format::LargeKind;
use std::alloc::{AllocError, Global};
use std::test::Fail;
use test_objects::{UNIT, object, object_with_names, plain};

/// Two contributions (SFrame 2), the later function first.
pub(crate) const FRAMES: [u8; 102] = *b"\
    \xe2\xde\x02\0\x03\0\xf8\0\x01\0\0\0\x01\0\0\0\x03\0\0\0\0\0\0\0\x14\0\0\0\
    \x64\0\0\0\x10\0\0\0\0\0\0\0\x01\0\0\0\0\0\0\0\xa1\xa2\xa3\
    \xe2\xde\x02\0\x03\0\xf8\0\x01\0\0\0\x01\0\0\0\x03\0\0\0\0\0\0\0\x14\0\0\0\
    \x32\0\0\0\x10\0\0\0\0\0\0\0\x01\0\0\0\0\0\0\0\xb1\xb2\xb3";

/// Where these contributions stand.
const RANGES: &str = "range 0 51\nrange 51 102\n";

/// The report of an object with one unit.
pub(crate) const REPORT: &str =
    "units 1\nunit 0 0 12\nnames 0\noutcome none\nindex 52\n090000001c0000002c0000002c0000002c0000002c0000003400000000000000\n000000000c000000000000000000000000000000\nsframe 0\n";

/// Returns an object with these bytes of `.debug_info` and of `.debug_gnu_pubnames`, and 16 bytes of code.
fn object_of(
    alloc: Global,
    file_type: u16,
    machine: u16,
    info: &[u8],
    names: &[u8],
) -> Result<Vec<u8>, AllocError> {
    object(
        alloc,
        file_type,
        machine,
        &[
            plain(b".debug_info", 0, info),
            plain(b".debug_gnu_pubnames", 0, names),
            plain(b".text", SHF_ALLOC | SHF_EXECINSTR, &[0; 16]),
        ],
    )
}

/// Runs a line of arguments over these files: the line, the status, and what was written.
pub(crate) fn outcome(
    alloc: Global,
    line: &str,
    texts: &[(&str, &[u8])],
    reads: Vec<u64>,
    puts: Vec<u64>,
) -> Result<(String, u8, Vec<u8>), Fail> {
    let arguments = arguments_of(alloc, line)?;
    outcome_of(alloc, &arguments, texts, reads, puts)
}

/// Runs arguments over these files: the line, the status, and what was written.
pub(crate) fn outcome_of(
    alloc: Global,
    arguments: &[String],
    texts: &[(&str, &[u8])],
    reads: Vec<u64>,
    puts: Vec<u64>,
) -> Result<(String, u8, Vec<u8>), Fail> {
    let mut held = Vec::new(alloc);
    for (name, bytes) in texts {
        held.push((String::from_str(alloc, name)?, bytes.to_vec(alloc)?))?;
    }
    let mut files = MemoryFiles::new(held, reads);
    let mut out = MemorySink::new(alloc, puts);
    let ran = run(alloc, arguments, &mut files, &mut out);
    let text = ran.to_string(alloc)?;
    Ok((text, ran.status(), out.written().to_vec(alloc)?))
}

/// An expected run: its arguments, the call of the sink that fails (9: none), the line, the status, and what is written.
pub(crate) type Row<'a> = (&'a str, u64, &'a str, u8, &'a str);

/// Runs each row over these files, and says how the first that ends otherwise ended; the empty text where each ends as expected.
pub(crate) fn other_end(
    alloc: Global,
    texts: &[(&str, &[u8])],
    rows: &[Row<'_>],
) -> Result<String, Fail> {
    for (words, put, line, code, text) in rows {
        let puts = [*put].to_vec(alloc)?;
        let (said, status, written) = outcome(alloc, words, texts, Vec::new(alloc), puts)?;
        if said.as_str() != *line || status != *code || written.as_slice() != text.as_bytes() {
            let count = written.len();
            return Ok(format!(in alloc; "{words}: {said}, {status}, {count} bytes")?);
        }
    }
    Ok(String::new(alloc))
}

#[test]
fn objects_without_tables(rt: HostRuntime) -> Result<(), Fail> {
    let alloc = rt.alloc();
    let cut = [255, 255, 255, 255, 0, 0, 0, 0];
    let long = [9, 0, 0, 0, 0, 0, 0, 0, 0, 0, 0, 0];
    for (file_type, machine, info, names, line) in [
        (
            1,
            62,
            UNIT.as_slice(),
            b"1".as_slice(),
            "derive: BadPubnames 0 2",
        ),
        (
            1,
            62,
            cut.as_slice(),
            b"".as_slice(),
            "derive: BadUnit 0 0 Truncated",
        ),
        (
            1,
            62,
            long.as_slice(),
            b"".as_slice(),
            "derive: BadUnit 0 0 InvalidLength",
        ),
        (
            1,
            183,
            UNIT.as_slice(),
            b"".as_slice(),
            "derive: BadElf 0 Machine",
        ),
        (
            3,
            62,
            UNIT.as_slice(),
            b"".as_slice(),
            "derive: BadElf 0 Header",
        ),
    ] {
        let bytes = object_of(alloc, file_type, machine, info, names)?;
        let (text, status, written) = outcome(
            alloc,
            "tables x86_64 l o",
            &[("l", b""), ("o", &bytes)],
            Vec::new(alloc),
            Vec::new(alloc),
        )?;
        assert_eq!(rt; text.as_str(), line);
        assert_eq!(rt; status, 1);
        assert_eq!(rt; written.len(), 0);
    }
    Ok(())
}

/// The two contributions, the first with this magic and with its first FRE at this offset.
fn frames_with(magic: [u8; 2], rows_at: u8) -> [u8; 102] {
    let mut frames = FRAMES;
    frames[..2].copy_from_slice(&magic);
    frames[36] = rows_at;
    frames
}

#[test]
fn layouts_and_frames_without_tables(rt: HostRuntime) -> Result<(), Fail> {
    let alloc = rt.alloc();
    let bytes = object_with_names(alloc, &UNIT, &[])?;
    let twice = "place 0 3 4096 16\nplace 0 3 4096 16\n";
    let magic = [0xe2, 0xde];
    for (layout, magic, rows_at, line) in [
        (twice, magic, 0, "derive: BadPlacement 1"),
        ("range 5 3\n", magic, 0, "derive: BadRange 0"),
        (RANGES, [0x34, 0x12], 0, "derive: BadMagicBytes 4660 0"),
        (RANGES, magic, 3, "derive: SframeTruncated FreOffset 28"),
    ] {
        let frames = frames_with(magic, rows_at);
        let (text, status, written) = outcome(
            alloc,
            "tables x86_64 l --sframe s o",
            &[("l", layout.as_bytes()), ("s", &frames), ("o", &bytes)],
            Vec::new(alloc),
            Vec::new(alloc),
        )?;
        assert_eq!(rt; text.as_str(), line);
        assert_eq!(rt; status, 1);
        assert_eq!(rt; written.len(), 0);
    }
    Ok(())
}

#[test]
fn runs_that_fail(rt: HostRuntime) -> Result<(), Fail> {
    let alloc = rt.alloc();
    for (words, read, put, line, code, length) in [
        ("", 9, 9, "derive: BadWords 0", 2, 0),
        ("finds l 6d", 9, 9, "derive: BadWords 0", 2, 0),
        ("tables arm", 9, 9, "derive: BadWords 1", 2, 0),
        (
            "tables x86_64 l --index 7 o",
            9,
            9,
            "derive: BadWords 4",
            2,
            0,
        ),
        (
            "tables x86_64 l --index 8 q",
            9,
            9,
            "derive: ReadFault 5",
            3,
            0,
        ),
        ("tables x86_64 l c", 9, 9, "derive: BadElf 0 Header", 1, 0),
        ("tables x86_64 l o", 1, 9, "derive: ReadFault 3", 3, 0),
        ("tables x86_64 l q", 9, 9, "derive: ReadFault 3", 3, 0),
        ("tables x86_64 p o", 9, 9, "derive: BadLayout 1", 5, 0),
        (
            "tables x86_64 l o",
            9,
            0,
            "derive: WriteFault",
            4,
            REPORT.len() / 2,
        ),
    ] {
        let bytes = object_with_names(alloc, &UNIT, &[])?;
        let reads = [read].to_vec(alloc)?;
        let puts = [put].to_vec(alloc)?;
        let mut third_class = bytes.to_vec(alloc)?;
        if third_class.len() > 4 {
            third_class[4] = 3;
        }
        let texts: [(&str, &[u8]); 4] = [
            ("l", b""),
            ("p", b"place 0 3 4096"),
            ("o", &bytes),
            ("c", &third_class),
        ];
        let (text, status, written) = outcome(alloc, words, &texts, reads, puts)?;
        assert_eq!(rt; text.as_str(), line);
        assert_eq!(rt; status, code);
        assert_eq!(rt; written.len(), length);
    }
    Ok(())
}

#[test]
fn printed_errors(rt: HostRuntime) -> Result<(), Fail> {
    for (error, line) in [
        (DeriveError::BadSpan(0), "derive: BadSpan 0"),
        (
            DeriveError::CompressedSection(0, SectionIndex(1)),
            "derive: CompressedSection 0 1",
        ),
        (
            DeriveError::TooManyUnits(16_777_217),
            "derive: TooManyUnits 16777217",
        ),
        (
            DeriveError::IndexTooLarge(4_294_967_296),
            "derive: IndexTooLarge 4294967296",
        ),
        (
            DeriveError::SframeTooLarge {
                kind: LargeKind::Merged,
                needed: 74,
                limit: 71,
            },
            "derive: SframeTooLarge Merged 74 71",
        ),
        (
            DeriveError::SframeAddressRange {
                function: 1,
                value: -2_147_483_649,
            },
            "derive: SframeAddressRange 1 -2147483649",
        ),
    ] {
        let text = Ran::Refused(error).to_string(rt.alloc())?;
        assert_eq!(rt; text.as_str(), line);
    }
    Ok(())
}
