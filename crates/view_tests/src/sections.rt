//! Sections and symbols: their shown names, copies of their bytes, compressed sections, and the file's own numbers.

use crate::shared::{shared_object, well_formed};
use elf_format::{Architecture, ElfError, SectionIndex, SymbolIndex};
use elf_records32::Class32;
use elf_records64::Class64;
use elf_view::{File, FileKind};
use elf_words::{ET_REL, ElfClass, SHF_COMPRESSED, SHT_NOBITS, SymFields};
use std::alloc::{AllocError, Global};
use std::test::Fail;
use test_objects::{
    ObjectClass, SET_OF_MAIN, Section, UNIT, object_of_class, object_with_names_of, plain,
};

#[test]
fn files_of_a_kind(rt: HostRuntime) -> Result<(), Fail> {
    let alloc = rt.alloc();
    let bytes = object_with_names_of(alloc, ObjectClass::Elf64, &UNIT, &SET_OF_MAIN)?;
    let other = Architecture::AArch64;
    let own = Architecture::X86_64;
    for (kind, machine, is_dynamic) in [
        (FileKind::ElfObject, own, Ok(false)),
        (FileKind::ElfDynamic, own, Ok(true)),
        (FileKind::ElfObject, other, Err(ElfError::Machine)),
    ] {
        let file = File::<Class64>::parse(&bytes, kind, machine);
        assert_eq!(rt;
            file.map(|file| file.is_dynamic() && file.eflags() == 0),
            is_dynamic
        );
    }
    let cut = bytes.get(..63).unwrap_or(&[]);
    let file = File::<Class64>::parse(cut, FileKind::ElfObject, other);
    assert_eq!(rt; file.err(), Some(ElfError::Header));
    Ok(())
}

#[test]
fn shown_names(rt: HostRuntime) -> Result<(), Fail> {
    let alloc = rt.alloc();
    let bytes = object_with_names_of(alloc, ObjectClass::Elf64, &UNIT, &SET_OF_MAIN)?;
    let Ok(file) = File::<Class64>::parse_bytes(&bytes, false) else {
        return Ok(assert!(rt; false));
    };
    for (index, shown) in [
        (3, b".text".as_slice()),
        (9, b"<index 9>"),
        (0, b""),
        (12345, b"<index 12345>"),
    ] {
        let name = file.section_display_name(alloc, SectionIndex(index))?;
        assert_eq!(rt; name.as_slice(), shown);
    }
    assert_eq!(rt;
        file.section_groups(alloc).map(|groups| groups.len()),
        Ok(0)
    );
    Ok(())
}

/// The sizes and alignments of the sections 1 to 4 of a file, and the errors of copying them into ten bytes.
type Sizes = [(
    Result<u64, ElfError>,
    Result<u64, ElfError>,
    Option<ElfError>,
); 4];

/// Returns an object with a plain section of ten bytes, a compressed one, one that is too short for its header, and one of the type NOBITS.
fn compressed_object(alloc: Global, class: ObjectClass) -> Result<Vec<u8>, AllocError> {
    let wide = b"\x01\0\0\0\0\0\0\0\x40\0\0\0\0\0\0\0\x10\0\0\0\0\0\0\0".as_slice();
    let narrow = b"\x01\0\0\0\x40\0\0\0\x10\0\0\0".as_slice();
    let header = match class {
        ObjectClass::Elf64 => wide,
        ObjectClass::Elf32 => narrow,
    };
    let sections = [
        plain(b".a", 0, &[7; 10]),
        plain(b".b", SHF_COMPRESSED, header),
        plain(b".c", SHF_COMPRESSED, b"\x01\0\0\0"),
        Section {
            section_type: SHT_NOBITS,
            ..plain(b".d", 0, &[])
        },
    ];
    object_of_class(alloc, class, ET_REL, 62, &sections)
}

/// Returns the sizes of the sections of such an object.
fn sizes<C: ElfClass>(bytes: &[u8]) -> Option<Sizes> {
    let file = File::<C>::parse_bytes(bytes, false).ok()?;
    let mut found = [(Ok(0), Ok(0), None); 4];
    for (index, slot) in found.iter_mut().enumerate() {
        let header = file.section(SectionIndex(index.saturating_add(1))).ok()?;
        let error = match file.section_data(&header) {
            Ok(_) => None,
            Err(error) => Some(error),
        };
        *slot = (
            file.section_size(&header),
            file.section_alignment(&header),
            error,
        );
    }
    Some(found)
}

#[test]
fn compressed_sections(rt: HostRuntime) -> Result<(), Fail> {
    let alloc = rt.alloc();
    let compressed = Some(ElfError::Compressed);
    let cut = ElfError::Compressed;
    let expected = [
        (Ok(10), Ok(1), None),
        (Ok(64), Ok(16), compressed),
        (Err(cut), Err(cut), compressed),
        (Ok(0), Ok(1), None),
    ];
    let wide = compressed_object(alloc, ObjectClass::Elf64)?;
    assert_eq!(rt; sizes::<Class64>(&wide), Some(expected));
    let narrow = compressed_object(alloc, ObjectClass::Elf32)?;
    assert_eq!(rt; sizes::<Class32>(&narrow), Some(expected));
    Ok(())
}

#[test]
fn copied_bytes(rt: HostRuntime) -> Result<(), Fail> {
    let alloc = rt.alloc();
    let bytes = object_with_names_of(alloc, ObjectClass::Elf64, &UNIT, &SET_OF_MAIN)?;
    let Ok(file) = File::<Class64>::parse_bytes(&bytes, false) else {
        return Ok(assert!(rt; false));
    };
    let mut copy = [1; 12];
    if let Ok(header) = file.section(SectionIndex(1)) {
        if let Ok(data) = file.raw_section_data(&header) {
            if data.len() == 12 {
                assert_eq!(rt; file.copy_section_data(&header, &mut copy), Ok(()));
            }
        }
    }
    assert_eq!(rt; copy, UNIT);
    Ok(())
}

/// Returns how many symbols a shared object has, by each way to go through them, and the value of the second, or None where they differ.
fn symbols<C: ElfClass>(bytes: &[u8]) -> Option<(usize, u64)> {
    let file = File::<C>::parse_bytes(bytes, true).ok()?;
    let mut count = 0_usize;
    for (index, symbol) in file.enumerate_symbols() {
        let same = file.symbol(index).ok()?;
        if index != SymbolIndex(count) || same.st_name() != symbol.st_name() {
            return None;
        }
        count = count.saturating_add(1);
    }
    let symbol = file.symbol(SymbolIndex(1)).ok()?;
    if file.symbols_iter().len() != count || file.num_symbols() != count {
        return None;
    }
    Some((
        count,
        file.symbol_offset_in_section(&symbol, SectionIndex(1)),
    ))
}

#[test]
fn symbols_of_files(rt: HostRuntime) -> Result<(), Fail> {
    let alloc = rt.alloc();
    let wide = shared_object(alloc, ObjectClass::Elf64, well_formed())?;
    assert_eq!(rt; symbols::<Class64>(&wide), Some((6, 16)));
    let narrow = shared_object(alloc, ObjectClass::Elf32, well_formed())?;
    assert_eq!(rt; symbols::<Class32>(&narrow), Some((6, 16)));
    Ok(())
}
