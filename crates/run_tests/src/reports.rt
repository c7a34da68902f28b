//! Whole runs over files in memory that end well: the report of the tables, to the letter, and the prefix of it that is left where it is
//! not written whole.

use crate::runs::{FRAMES, REPORT, outcome};
use elf_format::Architecture;
use elf_words::{SHF_ALLOC, SHF_EXECINSTR, SHF_WRITE};
use std::alloc::{AllocError, Global};
use std::test::Fail;
use test_objects::{
    ET_REL, ObjectClass, SET_OF_MAIN, UNIT, object, object_of_two_units, object_of_two_units_of,
    object_with_names, object_with_names_of, plain,
};

/// The flags of code.
const CODE: u64 = SHF_ALLOC | SHF_EXECINSTR;

/// The set of the functions and the variable of a unit of 64 bytes (GDB manual, "Index Section Format").
const NAMES: &[u8] = b"\
    \x30\0\0\0\x02\0\0\0\0\0\x40\0\0\0\
    \x2a\0\0\0\x30alpha\0\x3a\0\0\0\x30main\0\x4a\0\0\0\xa0counter\0\0\0\0\0";

/// The set of its type.
const TYPES: &[u8] = b"\x17\0\0\0\x02\0\0\0\0\0\x40\0\0\0\x2a\0\0\0\x90int\0\0\0\0\0";

/// The report of an object with one unit that publishes `main`, whose code is placed at address 4096, and of two contributions.
const REPORT_OF_ALL: &str = "\
units 1
unit 0 0 12
names 1
name 6d61696e 30000000
outcome sorted 74
index 101
090000001c0000002c0000002c00000040000000500000005800000000000000
000000000c000000000000000010000000000000101000000000000000000000
0000000000000000080000000000000000000000000000000100000000000030
6d61696e00
sframe 102
e2de02010300f800020000000200000006000000000000002800000032000000
1000000000000000010000000000000064000000100000000300000001000000
00000000b1b2b3a1a2a300000000000000000000000000000000000000000000
000000000000
";

/// The report of an object with one unit that publishes `main`.
const REPORT_OF_MAIN: &str = "\
units 1
unit 0 0 12
names 1
name 6d61696e 30000000
outcome none
index 81
090000001c0000002c0000002c0000002c0000003c0000004400000000000000
000000000c000000000000000000000000000000080000000000000000000000
0000000001000000000000306d61696e00
sframe 0
";

/// The report of the object of two units.
const REPORT_OF_TWO_UNITS: &str = "\
units 2
unit 0 0 12
unit 1 12 12
names 0
outcome none
index 128
090000001c0000003c0000003c00000078000000780000008000000000000000
000000000c000000000000000c000000000000000c0000000000000000100000
0000000010100000000000000000000010100000000000002010000000000000
0100000020100000000000003010000000000000000000000000000000000000
sframe 0
";

/// The report of the object of functions.
const REPORT_OF_FUNCTIONS: &str = "\
units 1
unit 0 0 64
names 4
name 616c706861 30000000
name 636f756e746572 a0000000
name 696e74 90000000
name 6d61696e 30000000
outcome none
index 211
090000001c0000002c0000002c00000054000000940000009c00000000000000
0000000040000000000000000010400000000000181040000000000000000000
181040000000000040104000000000000000000000000000000000002e000000
1000000033000000180000000000000000000000000000000000000028000000
0800000000000000000000002000000000000000000000000000000001000000
000000a0010000000000003001000000000000300100000000000090636f756e
74657200616c706861006d61696e00696e7400
sframe 0
";

/// The same with an index of version 8.
const REPORT_OF_FUNCTIONS_8: &str = "\
units 1
unit 0 0 64
names 4
name 616c706861 30000000
name 636f756e746572 a0000000
name 696e74 90000000
name 6d61696e 30000000
outcome none
index 199
0800000018000000280000002800000050000000900000000000000000000000
4000000000000000001040000000000018104000000000000000000018104000
0000000040104000000000000000000000000000000000002e00000010000000
3300000018000000000000000000000000000000000000002800000008000000
0000000000000000200000000000000001000000000000a00100000000000030
01000000000000300100000000000090636f756e74657200616c706861006d61
696e00696e7400
sframe 0
";

/// The report of two objects that publish `main`.
const REPORT_OF_BOTH: &str = "\
units 2
unit 0 0 12
unit 1 12 12
names 1
name 6d61696e 30000000 30000001
outcome none
index 101
090000001c0000003c0000003c0000003c0000004c0000005400000000000000
000000000c000000000000000c000000000000000c0000000000000000000000
000000000c000000000000000000000000000000020000000000003001000030
6d61696e00
sframe 0
";

/// The same with an index of version 8.
const REPORT_OF_BOTH_8: &str = "\
units 2
unit 0 0 12
unit 1 12 12
names 1
name 6d61696e 30000000 30000001
outcome none
index 89
0800000018000000380000003800000038000000480000000000000000000000
0c000000000000000c000000000000000c000000000000000000000000000000
0c000000000000000200000000000030010000306d61696e00
sframe 0
";

/// Returns an object as a compiler writes it, with a section for each function.
fn object_of_functions(alloc: Global) -> Result<Vec<u8>, AllocError> {
    let mut info = vec![in alloc; 0x3cu8; 1]?;
    info.extend_from_slice(&[0; 63])?;
    object(
        alloc,
        ET_REL,
        Architecture::X86_64.machine(),
        &[
            plain(b".text", CODE, &[]),
            plain(b".text.alpha", CODE, &[0; 24]),
            plain(b".text.main", CODE, &[0; 40]),
            plain(b".data", SHF_ALLOC | SHF_WRITE, &[0; 8]),
            plain(b".rodata", SHF_ALLOC, &[0; 16]),
            plain(b".debug_info", 0, &info),
            plain(b".debug_gnu_pubnames", 0, NAMES),
            plain(b".debug_gnu_pubtypes", 0, TYPES),
        ],
    )
}

#[test]
fn reports_of_objects(rt: HostRuntime) -> Result<(), Fail> {
    let alloc = rt.alloc();
    let tables = "tables x86_64 l o";
    let one_unit = object_with_names(alloc, &UNIT, &[])?;
    let main = object_with_names(alloc, &UNIT, &SET_OF_MAIN)?;
    let main_32 = object_with_names_of(alloc, ObjectClass::Elf32, &UNIT, &SET_OF_MAIN)?;
    assert_eq!(rt; main_32.len(), 357);
    let two_units = object_of_two_units(alloc)?;
    let two_units_32 = object_of_two_units_of(alloc, ObjectClass::Elf32)?;
    let functions = object_of_functions(alloc)?;
    for (line, layout, object, report) in [
        (
            "tables x86_64 l",
            "",
            b"".as_slice(),
            "units 0\nnames 0\noutcome none\nindex 0\nsframe 0\n",
        ),
        (tables, "", one_unit.as_slice(), REPORT),
        (tables, "", main.as_slice(), REPORT_OF_MAIN),
        (
            "tables x86_64 l --sframe s o",
            "# code and frames\nplace 0 3 4096 16\nrange 0 51\nrange 51 102\nbase 8192",
            main.as_slice(),
            REPORT_OF_ALL,
        ),
        (
            tables,
            "place 0 3 4096 16\nplace 0 4 4112 16\nplace 0 5 4128 16\n",
            two_units.as_slice(),
            REPORT_OF_TWO_UNITS,
        ),
        (
            tables,
            "place 0 3 4096 16\nplace 0 4 4112 16\nplace 0 5 4128 16\n",
            two_units_32.as_slice(),
            REPORT_OF_TWO_UNITS,
        ),
        (tables, "", main_32.as_slice(), REPORT_OF_MAIN),
        ("tables x86_64 l o p", "", main.as_slice(), REPORT_OF_BOTH),
        (
            "tables x86_64 l --index 9 p o",
            "",
            main.as_slice(),
            REPORT_OF_BOTH,
        ),
        (
            "tables x86_64 l --index 8 p o",
            "",
            main.as_slice(),
            REPORT_OF_BOTH_8,
        ),
        (
            tables,
            "place 0 1 4198400 0\nplace 0 2 4198400 24\nplace 0 3 4198424 40\nplace 0 4 4206592 8\nplace 0 5 4202496 16",
            functions.as_slice(),
            REPORT_OF_FUNCTIONS,
        ),
        (
            "tables x86_64 l --index 8 o",
            "place 0 2 4198400 24\nplace 0 3 4198424 40\n",
            functions.as_slice(),
            REPORT_OF_FUNCTIONS_8,
        ),
    ] {
        let (text, status, written) = outcome(
            alloc,
            line,
            &[
                ("l", layout.as_bytes()),
                ("s", &FRAMES),
                ("o", object),
                ("p", &main_32),
            ],
            Vec::new(alloc),
            Vec::new(alloc),
        )?;
        assert_eq!(rt; text.as_str(), "derive: Done");
        assert_eq!(rt; status, 0);
        assert_eq!(rt; written.as_slice(), report.as_bytes());
    }
    Ok(())
}

#[test]
fn a_report_that_is_cut_off(rt: HostRuntime) -> Result<(), Fail> {
    let alloc = rt.alloc();
    let main = object_with_names(alloc, &UNIT, &SET_OF_MAIN)?;
    assert_eq!(rt; main.len(), 489);
    let (text, status, written) = outcome(
        alloc,
        "tables x86_64 l o",
        &[("l", b""), ("o", &main)],
        Vec::new(alloc),
        [0].to_vec(alloc)?,
    )?;
    assert_eq!(rt; text.as_str(), "derive: WriteFault");
    assert_eq!(rt; status, 4);
    assert_eq!(rt; written.len(), REPORT_OF_MAIN.len() / 2);
    assert!(rt; REPORT_OF_MAIN.as_bytes().starts_with(&written));
    Ok(())
}
