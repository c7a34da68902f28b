//! Symbol versions (GNU symbol versioning): the names of versions, chains of their records, and what is refused of malformed ones.

use crate::shared::{DEFINITIONS, NEEDS, Parts, shared_object, well_formed};
use elf_format::{ElfError, SectionIndex, SymbolIndex};
use elf_records32::Class32;
use elf_records64::Class64;
use elf_view::{File, RawSymbolName, VersionError, VersionNames, raw_symbol_name};
use elf_words::ElfClass;
use std::alloc::{AllocError, Global};
use std::test::Fail;
use test_objects::{ObjectClass, object_with_names_of};

/// What is said of a symbol: its name with the version that is defined for it, its name with the version that it needs, and the
/// text of its version. A name that is not read is `unreadable`.
#[derive(Drop)]
struct Said {
    defined: String,
    needed: String,
    text: Vec<u8>,
}

/// Says it of the symbol at an index.
fn say<C: ElfClass>(
    alloc: Global,
    file: &File<'_, C>,
    index: SymbolIndex,
) -> Result<Said, VersionError> {
    let names = file.get_version_names(alloc)?;
    let table = file.verneed_table(alloc)?;
    let symbol = file.symbol(index).map_err(VersionError::Elf)?;
    let unreadable = RawSymbolName::parse(b"unreadable");
    let defined = file.get_symbol_name_and_version(&symbol, index.0, &names);
    let needed = match file.symbol_name(&symbol) {
        Ok(name) => raw_symbol_name(name, &table, index),
        Err(_) => unreadable,
    };
    Ok(Said {
        defined: match defined {
            Ok(name) => format!(in alloc; "{name}")?,
            Err(_) => format!(in alloc; "unreadable")?,
        },
        needed: format!(in alloc; "{needed}")?,
        text: file
            .symbol_version_debug(alloc, index)?
            .unwrap_or(Vec::new(alloc)),
    })
}

/// Says it of the symbol at an index of a shared object.
fn say_of(
    alloc: Global,
    class: ObjectClass,
    bytes: &[u8],
    index: usize,
) -> Result<Said, VersionError> {
    match class {
        ObjectClass::Elf64 => {
            let file = File::<Class64>::parse_bytes(bytes, true).map_err(VersionError::Elf)?;
            say(alloc, &file, SymbolIndex(index))
        }
        ObjectClass::Elf32 => {
            let file = File::<Class32>::parse_bytes(bytes, true).map_err(VersionError::Elf)?;
            say(alloc, &file, SymbolIndex(index))
        }
    }
}

#[test]
fn versions_of_symbols(rt: HostRuntime) -> Result<(), Fail> {
    let alloc = rt.alloc();
    for class in [ObjectClass::Elf64, ObjectClass::Elf32] {
        let bytes = shared_object(alloc, class, well_formed())?;
        for (index, defined, needed, text) in [
            (0, "", "", b"".as_slice()),
            (1, "one@@TWO", "one", b"@@TWO"),
            (2, "one@TWO", "one", b"@TWO"),
            (3, "one", "one@ONE", b"@@ONE"),
            (4, "one", "one", b""),
            (5, "unreadable", "unreadable", b""),
        ] {
            match say_of(alloc, class, &bytes, index) {
                Ok(said) => {
                    assert_eq!(rt; said.defined.as_str(), defined);
                    assert_eq!(rt; said.needed.as_str(), needed);
                    assert_eq!(rt; said.text.as_slice(), text);
                }
                Err(_) => return Ok(assert!(rt; false, "symbol {index}")),
            }
        }
    }
    Ok(())
}

/// Returns why the names of the definitions and those of the needs of a shared object with these parts are refused.
fn refusals(
    alloc: Global,
    definitions: &[u8],
    definition_count: u32,
    needs: &[u8],
    strings: u32,
) -> Result<(Option<VersionError>, Option<VersionError>), AllocError> {
    let parts = Parts {
        definitions,
        definition_count,
        needs,
        versions: b"\0\0",
        strings,
        entries: &[],
    };
    let bytes = shared_object(alloc, ObjectClass::Elf64, parts)?;
    match File::<Class64>::parse_bytes(&bytes, true) {
        Ok(file) => Ok((
            file.get_version_names(alloc).err(),
            file.verneed_table(alloc).err(),
        )),
        Err(error) => Ok((Some(VersionError::Elf(error)), None)),
    }
}

/// Returns the definitions with another byte at an offset.
fn definitions_with(alloc: Global, offset: usize, byte: u8) -> Result<Vec<u8>, AllocError> {
    let mut changed = DEFINITIONS.to_vec(alloc)?;
    if let Some(slot) = changed.get_mut(offset) {
        *slot = byte;
    }
    Ok(changed)
}

#[test]
fn malformed_versions(rt: HostRuntime) -> Result<(), Fail> {
    let alloc = rt.alloc();
    let malformed = Some(VersionError::Elf(ElfError::VersionTable));
    let above = Some(VersionError::BadIndex(3));
    for (size, count, needs, strings, expected) in [
        (64, 2, 48, 2, (None, None)),
        (63, 2, 48, 2, (None, None)),
        (55, 2, 48, 2, (malformed, None)),
        (64, 1, 48, 2, (None, None)),
        (64, 2, 47, 2, (None, malformed)),
        (64, 2, 0, 2, (None, malformed)),
        (64, 2, 48, 0, (malformed, malformed)),
        (64, 2, 48, 9, (malformed, malformed)),
    ] {
        let definitions = DEFINITIONS.get(..size).unwrap_or(&[]);
        let needs = NEEDS.get(..needs).unwrap_or(&[]);
        assert_eq!(rt;
            refusals(alloc, definitions, count, needs, strings)?,
            expected
        );
    }
    for (offset, byte, expected) in [(4, 3, above), (6, 0, malformed), (32, 3, above)] {
        let definitions = definitions_with(alloc, offset, byte)?;
        assert_eq!(rt;
            refusals(alloc, &definitions, 2, NEEDS, 2)?,
            (expected, None)
        );
    }
    Ok(())
}

/// Returns how many definitions a chain has before its end, and whether it ends with an error; None without definitions.
fn chain<C: ElfClass>(bytes: &[u8]) -> Option<(usize, bool)> {
    let file = File::<C>::parse_bytes(bytes, true).ok()?;
    let (definitions, link) = file.verdef()?;
    if link != SectionIndex(2) {
        return None;
    }
    let mut count = 0_usize;
    for definition in definitions {
        if definition.is_err() {
            return Some((count, true));
        }
        count = count.saturating_add(1);
    }
    Some((count, false))
}

#[test]
fn chains_of_definitions(rt: HostRuntime) -> Result<(), Fail> {
    let alloc = rt.alloc();
    let overlapping = b"\0\0\0\0\0\0\0\0\0\0\0\0\0\0\0\0\x01\0\0\0\0".as_slice();
    let truncated = b"\0\0\0\0\0\0\0\0\0\0\0\0\0\0\0\0\x02\0\0\0\0".as_slice();
    for (definitions, definition_count, expected) in [
        (DEFINITIONS, 2, Some((2, false))),
        (DEFINITIONS, 1, Some((1, false))),
        (DEFINITIONS, 9, Some((2, false))),
        (DEFINITIONS, 0, Some((0, false))),
        (overlapping, 3, Some((2, false))),
        (truncated, 3, Some((1, true))),
        (b"", 1, Some((0, true))),
    ] {
        let parts = Parts {
            definitions,
            definition_count,
            ..well_formed()
        };
        let wide = shared_object(alloc, ObjectClass::Elf64, parts)?;
        assert_eq!(rt; chain::<Class64>(&wide), expected);
        let narrow = shared_object(alloc, ObjectClass::Elf32, parts)?;
        assert_eq!(rt; chain::<Class32>(&narrow), expected);
    }
    Ok(())
}

/// Returns whether a file without versions says that it has none.
fn has_no_versions<C: ElfClass>(alloc: Global, bytes: &[u8]) -> Result<bool, VersionError> {
    let file = File::<C>::parse_bytes(bytes, false).map_err(VersionError::Elf)?;
    let names = file.get_version_names(alloc)?;
    let needed = file.verneed_table(alloc)?;
    let text = file.symbol_version_debug(alloc, SymbolIndex(0))?;
    Ok(
        names.len() == 1
            && names.get(0).is_none()
            && needed.version_name(SymbolIndex(0)).is_none()
            && text.is_none()
            && file.verdef().is_none()
            && file.verneed().is_none()
            && file.verdefnum() == 0
            && file.symbol_versions().len() == 0,
    )
}

#[test]
fn a_file_without_versions(rt: HostRuntime) -> Result<(), Fail> {
    let alloc = rt.alloc();
    let wide = object_with_names_of(alloc, ObjectClass::Elf64, &[], &[])?;
    assert_eq!(rt; has_no_versions::<Class64>(alloc, &wide), Ok(true));
    let narrow = object_with_names_of(alloc, ObjectClass::Elf32, &[], &[])?;
    assert_eq!(rt; has_no_versions::<Class32>(alloc, &narrow), Ok(true));
    Ok(())
}

/// Returns whether the name of an index is the expected one, or None where it has none.
fn is_name(names: &VersionNames<'_>, index: usize, expected: &[u8]) -> Option<bool> {
    match names.get(index) {
        Some(name) => Some(name == expected),
        None => None,
    }
}

/// Returns how many indexes have room for a name, and of the indexes 0 to 3 whether the name is the expected one.
fn names_by_index(alloc: Global, bytes: &[u8]) -> Result<(usize, [Option<bool>; 4]), VersionError> {
    let file = File::<Class64>::parse_bytes(bytes, true).map_err(VersionError::Elf)?;
    let names = file.get_version_names(alloc)?;
    let found = [
        is_name(&names, 0, b""),
        is_name(&names, 1, b"BASE"),
        is_name(&names, 2, b"TWO"),
        is_name(&names, 3, b""),
    ];
    Ok((names.len(), found))
}

#[test]
fn names_of_definitions(rt: HostRuntime) -> Result<(), Fail> {
    let alloc = rt.alloc();
    let bytes = shared_object(alloc, ObjectClass::Elf64, well_formed())?;
    let expected = (3, [None, Some(true), Some(true), None]);
    assert_eq!(rt; names_by_index(alloc, &bytes), Ok(expected));
    let parts = Parts {
        definition_count: 0,
        ..well_formed()
    };
    let bytes = shared_object(alloc, ObjectClass::Elf64, parts)?;
    assert_eq!(rt; names_by_index(alloc, &bytes), Ok((1, [None; 4])));
    Ok(())
}
