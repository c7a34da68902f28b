//! The entries of the address area of objects whose code is placed (GDB manual, "Index Section Format"), and the sizes
//! of their indexes; misplaced placements.

use crate::written::{placed, write_index};
use elf_format::Architecture;
use elf_view::AnyFile;
use elf_words::{SHF_ALLOC, SHF_EXECINSTR, SHF_WRITE};
use gdb_index_format::{AddressEntry, IndexVersion, Placement};
use gdb_tables::first_misplaced;
use std::alloc::{AllocError, Global};
use std::test::Fail;
use test_objects::{
    ET_REL, ObjectClass, object, object_of_two_units, object_of_two_units_of, plain,
};

/// The set of a unit of 64 bytes that publishes two functions and a static variable.
const NAMES: &[u8] = b"\
    \x30\0\0\0\x02\0\0\0\0\0\x40\0\0\0\x2a\0\0\0\x30alpha\0\x3a\0\0\0\x30main\0\
    \x4a\0\0\0\xa0counter\0\0\0\0\0";

/// The set of the same unit that publishes a type.
const TYPES: &[u8] = b"\x17\0\0\0\x02\0\0\0\0\0\x40\0\0\0\x2a\0\0\0\x90int\0\0\0\0\0";

/// Returns an object as a compiler writes it with function sections: an empty `.text`, two functions in sections of
/// their own (2 and 3), data, and one unit with its names.
fn object_of_function_sections(alloc: Global) -> Result<Vec<u8>, AllocError> {
    let code = SHF_ALLOC | SHF_EXECINSTR;
    let mut unit = [0; 64];
    unit[0] = 60;
    object(
        alloc,
        ET_REL,
        Architecture::X86_64.machine(),
        &[
            plain(b".text", code, &[]),
            plain(b".text.alpha", code, &[0; 24]),
            plain(b".text.main", code, &[0; 40]),
            plain(b".data", SHF_ALLOC | SHF_WRITE, &[0; 8]),
            plain(b".rodata", SHF_ALLOC, &[0; 16]),
            plain(b".debug_info", 0, &unit),
            plain(b".debug_gnu_pubnames", 0, NAMES),
            plain(b".debug_gnu_pubtypes", 0, TYPES),
        ],
    )
}

fn entry(low: u64, high: u64, unit: u32) -> AddressEntry {
    AddressEntry { low, high, unit }
}

#[test]
fn placed_sections_have_entries(rt: HostRuntime) -> Result<(), Fail> {
    let alloc = rt.alloc();
    let two_units = object_of_two_units(alloc)?;
    let two_units_32 = object_of_two_units_of(alloc, ObjectClass::Elf32)?;
    let functions = object_of_function_sections(alloc)?;
    let code_of_units = [
        placed(3, 4096, 16),
        placed(4, 4112, 16),
        placed(5, 4128, 16),
    ];
    let sections = [
        placed(1, 4198400, 0),
        placed(2, 4198400, 24),
        placed(3, 4198424, 40),
        placed(4, 4206592, 8),
        placed(5, 4202496, 16),
    ];
    let entries_of_units = [
        entry(4096, 4112, 0),
        entry(4112, 4128, 1),
        entry(4128, 4144, 0),
    ];
    let entries_of_sections = [entry(4198400, 4198424, 0), entry(4198424, 4198464, 0)];
    for (bytes, placements, size, entries) in [
        (
            two_units.as_slice(),
            code_of_units.as_slice(),
            128,
            entries_of_units.as_slice(),
        ),
        (
            two_units_32.as_slice(),
            code_of_units.as_slice(),
            128,
            entries_of_units.as_slice(),
        ),
        (
            functions.as_slice(),
            sections.as_slice(),
            211,
            entries_of_sections.as_slice(),
        ),
    ] {
        if bytes.len() < 1 << 39 {
            let written = write_index(alloc, bytes, placements, IndexVersion::V9)?;
            assert_eq!(rt; written.size, size);
            assert_eq!(rt; written.entries.as_slice(), entries);
        }
    }
    Ok(())
}

#[test]
fn misplaced_placements(rt: HostRuntime) -> Result<(), Fail> {
    let bytes = object_of_two_units(rt.alloc())?;
    let file = AnyFile::parse_bytes(&bytes, false).expect(&rt, "an object");
    let files = [file];
    let elsewhere = Placement {
        object: 1,
        ..placed(3, 4096, 16)
    };
    for (placements, first) in [
        ([].as_slice(), None),
        ([placed(3, 4112, 16), placed(9, 4096, 16)].as_slice(), None),
        (
            [placed(4, 4096, 16), placed(3, 4112, 16)].as_slice(),
            Some(1),
        ),
        (
            [placed(3, 4096, 16), placed(3, 4112, 16)].as_slice(),
            Some(1),
        ),
        ([placed(10, 4096, 16)].as_slice(), Some(0)),
        ([placed(3, 4096, 16), elsewhere].as_slice(), Some(1)),
        ([placed(3, u64::MAX, 0)].as_slice(), None),
        ([placed(3, u64::MAX, 1)].as_slice(), Some(0)),
    ] {
        assert!(rt; first_misplaced(&files, placements) == first);
    }
    Ok(())
}
