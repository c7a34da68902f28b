//! Views of ELF objects (System V gABI), over objects that are written out as their bytes.

use elf_records64::Class64;
use elf_relocs::Relocation;
use elf_view::{Architecture, ElfError, File, RelocError};
use elf_words::{SectionHeaderFields, SectionIndex, SymbolIndex};
use std::test::Fail;

// 64-bit: one CU in `.debug_info`, one set in `.debug_gnu_pubnames`, 16 bytes of code, and the section names
const OBJECT: &[u8] = b"\
    \x7fELF\x02\x01\x01\0\0\0\0\0\0\0\0\0\x01\0>\0\x01\0\0\0\0\0\0\0\0\0\0\0\0\0\0\0\0\0\0\0\
    \xa9\0\0\0\0\0\0\0\0\0\0\0@\0\0\0\0\0@\0\x05\0\x04\0\
    \x08\0\0\0\0\0\0\0\0\0\0\0\
    \x18\0\0\0\x02\0\0\0\0\0\x0c\0\0\0*\0\0\0\
    0main\0\0\0\0\0\
    \0\0\0\0\0\0\0\0\0\0\0\0\0\0\0\0\
    \0.debug_info\0.debug_gnu_pubnames\0.text\0.shstrtab\0\
    \0\0\0\0\0\0\0\0\0\0\0\0\0\0\0\0\0\0\0\0\0\0\0\0\0\0\0\0\0\0\0\0\
    \0\0\0\0\0\0\0\0\0\0\0\0\0\0\0\0\0\0\0\0\0\0\0\0\0\0\0\0\0\0\0\0\
    \x01\0\0\0\x01\0\0\0\0\0\0\0\0\0\0\0\0\0\0\0\0\0\0\0@\0\0\0\0\0\0\0\
    \x0c\0\0\0\0\0\0\0\0\0\0\0\0\0\0\0\x01\0\0\0\0\0\0\0\0\0\0\0\0\0\0\0\
    \x0d\0\0\0\x01\0\0\0\0\0\0\0\0\0\0\0\0\0\0\0\0\0\0\0L\0\0\0\0\0\0\0\
    \x1c\0\0\0\0\0\0\0\0\0\0\0\0\0\0\0\x01\0\0\0\0\0\0\0\0\0\0\0\0\0\0\0\
    !\0\0\0\x01\0\0\0\x06\0\0\0\0\0\0\0\0\0\0\0\0\0\0\0h\0\0\0\0\0\0\0\
    \x10\0\0\0\0\0\0\0\0\0\0\0\0\0\0\0\x01\0\0\0\0\0\0\0\0\0\0\0\0\0\0\0\
    '\0\0\0\x03\0\0\0\0\0\0\0\0\0\0\0\0\0\0\0\0\0\0\0x\0\0\0\0\0\0\0\
    1\0\0\0\0\0\0\0\0\0\0\0\0\0\0\0\x01\0\0\0\0\0\0\0\0\0\0\0\0\0\0\0";

// 64-bit: two CUs in `.debug_info`; in section 2 two relocations of it, about symbols defined in sections 3 and 4
const RELOCATED: &[u8] = b"\
    \x7fELF\x02\x01\x01\0\0\0\0\0\0\0\0\0\x01\0>\0\x01\0\0\0\0\0\0\0\0\0\0\0\0\0\0\0\0\0\0\0\
    s\x01\0\0\0\0\0\0\0\0\0\0@\0\0\0\0\0@\0\x0a\0\x09\0\
    \x08\0\0\0\0\0\0\0\0\0\0\0\x08\0\0\0\0\0\0\0\0\0\0\0\
    \x08\0\0\0\0\0\0\0\x01\0\0\0\x01\0\0\0\0\0\0\0\0\0\0\0\x14\0\0\0\0\0\0\0\
    \x01\0\0\0\x02\0\0\0\0\0\0\0\0\0\0\0\
    \0\0\0\0\0\0\0\0\0\0\0\0\0\0\0\0\
    \0\0\0\0\0\0\0\0\0\0\0\0\0\0\0\0\
    \0\0\0\0\0\0\0\0\0\0\0\0\0\0\0\0\
    \x04\0\0\0\0\0\0\0\x0c\0\0\0\x0c\0\0\0\0\0\0\0\0\0\0\0\
    \0\0\0\0\0\0\0\0\0\0\0\0\0\0\0\0\0\0\0\0\0\0\0\0\0\0\0\0\x03\0\x03\0\
    \0\0\0\0\0\0\0\0\0\0\0\0\0\0\0\0\0\0\0\0\x03\0\x04\0\0\0\0\0\0\0\0\0\
    \0\0\0\0\0\0\0\0\
    \0\
    \0.debug_info\0.rela.debug_info\0.t\
    ext.a\0.text.b\0.text.c\0.eh_frame\0\
    .symtab\0.strtab\0.shstrtab\0\
    \0\0\0\0\0\0\0\0\0\0\0\0\0\0\0\0\0\0\0\0\0\0\0\0\0\0\0\0\0\0\0\0\
    \0\0\0\0\0\0\0\0\0\0\0\0\0\0\0\0\0\0\0\0\0\0\0\0\0\0\0\0\0\0\0\0\
    \x01\0\0\0\x01\0\0\0\0\0\0\0\0\0\0\0\0\0\0\0\0\0\0\0@\0\0\0\0\0\0\0\
    \x18\0\0\0\0\0\0\0\0\0\0\0\0\0\0\0\x01\0\0\0\0\0\0\0\0\0\0\0\0\0\0\0\
    \x0d\0\0\0\x04\0\0\0\0\0\0\0\0\0\0\0\0\0\0\0\0\0\0\0X\0\0\0\0\0\0\0\
    0\0\0\0\0\0\0\0\x07\0\0\0\x01\0\0\0\x01\0\0\0\0\0\0\0\x18\0\0\0\0\0\0\0\
    \x1e\0\0\0\x01\0\0\0\x06\0\0\0\0\0\0\0\0\0\0\0\0\0\0\0\x88\0\0\0\0\0\0\0\
    \x10\0\0\0\0\0\0\0\0\0\0\0\0\0\0\0\x01\0\0\0\0\0\0\0\0\0\0\0\0\0\0\0\
    &\0\0\0\x01\0\0\0\x06\0\0\0\0\0\0\0\0\0\0\0\0\0\0\0\x98\0\0\0\0\0\0\0\
    \x10\0\0\0\0\0\0\0\0\0\0\0\0\0\0\0\x01\0\0\0\0\0\0\0\0\0\0\0\0\0\0\0\
    .\0\0\0\x01\0\0\0\x06\0\0\0\0\0\0\0\0\0\0\0\0\0\0\0\xa8\0\0\0\0\0\0\0\
    \x10\0\0\0\0\0\0\0\0\0\0\0\0\0\0\0\x01\0\0\0\0\0\0\0\0\0\0\0\0\0\0\0\
    6\0\0\0\x01\0\0\0\x02\0\0\0\0\0\0\0\0\0\0\0\0\0\0\0\xb8\0\0\0\0\0\0\0\
    \x18\0\0\0\0\0\0\0\0\0\0\0\0\0\0\0\x01\0\0\0\0\0\0\0\0\0\0\0\0\0\0\0\
    @\0\0\0\x02\0\0\0\0\0\0\0\0\0\0\0\0\0\0\0\0\0\0\0\xd0\0\0\0\0\0\0\0\
    H\0\0\0\0\0\0\0\x08\0\0\0\x03\0\0\0\x01\0\0\0\0\0\0\0\x18\0\0\0\0\0\0\0\
    H\0\0\0\x03\0\0\0\0\0\0\0\0\0\0\0\0\0\0\0\0\0\0\0\x18\x01\0\0\0\0\0\0\
    \x01\0\0\0\0\0\0\0\0\0\0\0\0\0\0\0\x01\0\0\0\0\0\0\0\0\0\0\0\0\0\0\0\
    P\0\0\0\x03\0\0\0\0\0\0\0\0\0\0\0\0\0\0\0\0\0\0\0\x19\x01\0\0\0\0\0\0\
    Z\0\0\0\0\0\0\0\0\0\0\0\0\0\0\0\x01\0\0\0\0\0\0\0\0\0\0\0\0\0\0\0";

#[test]
fn sections_of_an_object(rt: HostRuntime) {
    let Ok(file) = File::<Class64>::parse_bytes(OBJECT, false) else {
        return assert!(rt; false);
    };
    assert!(rt; file.num_sections() == 5);
    assert!(rt; file.arch() == Architecture::X86_64);
    assert!(rt; !file.is_dynamic() && file.bytes().len() == 489);
    for (index, name, size) in [
        (0, "", 0),
        (1, ".debug_info", 12),
        (2, ".debug_gnu_pubnames", 28),
        (3, ".text", 16),
        (4, ".shstrtab", 49),
    ] {
        let found = file.section_name(SectionIndex(index));
        assert!(rt;
            matches!(found, Ok(bytes) if bytes == name.as_bytes()),
            "{name}"
        );
        assert!(rt;
            file.has_name(SectionIndex(index), name.as_bytes()),
            "{name}"
        );
        let Ok(header) = file.section(SectionIndex(index)) else {
            return assert!(rt; false);
        };
        assert!(rt;
            matches!(file.section_data(&header), Ok(bytes) if bytes.len() == size),
            "{name}"
        );
        let first = file.section_by_name(name);
        assert!(rt;
            matches!(first, Some((found, _)) if found == SectionIndex(index)),
            "{name}"
        );
    }
    assert!(rt; file.section_by_name(".bss").is_none());
    assert!(rt; file.section_name(SectionIndex(5)) == Err(ElfError::SectionTable));
    for name in [".tex", ".text\0", ".text\0.shstrtab", ""] {
        assert!(rt; !file.has_name(SectionIndex(3), name.as_bytes()), "{name}");
    }
    assert!(rt; !file.has_name(SectionIndex(5), b""));
    assert!(rt; file.num_symbols() == 0);
    assert!(rt; matches!(file.symbol(SymbolIndex(0)), Err(ElfError::SymbolIndex)));
    for (index, header) in file.enumerate_sections() {
        assert!(rt; header.sh_addr() == 0, "{index:?}");
    }
    assert!(rt; file.section_iter().len() == 5);
}

// the error of the object with some bytes replaced at an offset, cut at a size
fn error_of(offset: usize, part: &[u8], size: usize) -> Option<ElfError> {
    let mut bytes = [0; 489];
    bytes.copy_from_slice(OBJECT);
    for (to, from) in bytes.iter_mut().skip(offset).zip(part) {
        *to = *from;
    }
    let cut = bytes.get(..size)?;
    File::<Class64>::parse_bytes(cut, false).err()
}

#[test]
fn malformed_objects(rt: HostRuntime) {
    for (offset, part, size, error) in [
        (0, b"\x7f".as_slice(), 489, None),
        (0, b"\x7f", 63, Some(ElfError::Header)),
        (0, b"\x7e", 489, Some(ElfError::Header)),
        (4, b"\x01", 489, Some(ElfError::Header)),
        (18, b"\x28", 489, Some(ElfError::Machine)),
        (0, b"\x7f", 488, Some(ElfError::SectionTable)),
        (58, b"\x3f", 489, Some(ElfError::SectionTable)),
        (62, b"\x05", 489, Some(ElfError::SectionTable)),
        (301, b"\x02", 489, Some(ElfError::SymbolTable)),
        (429, b"\xff\xff\xff\x6f", 489, Some(ElfError::VersionTable)),
    ] {
        assert!(rt; error_of(offset, part, size) == error, "{offset} {size}");
    }
}

#[test]
fn relocations_of_a_section(rt: HostRuntime) -> Result<(), Fail> {
    let file = File::<Class64>::parse_bytes(RELOCATED, false)?;
    let sections = file.parse_relocations(rt.alloc())?;
    for (index, holder) in [(0, None), (1, Some(SectionIndex(2))), (2, None), (10, None)] {
        assert!(rt; sections.get(index) == holder, "{index}");
    }
    let list = file.relocations(SectionIndex(1), &sections)?;
    assert!(rt; list.num_relocations() == 2);
    let sequence = list.to_sequence(rt.alloc())?;
    let mut offset = 8;
    for relocation in sequence.rel_iter() {
        assert!(rt; relocation.offset() == offset);
        offset = 20;
    }
    assert!(rt;
        file.relocations(SectionIndex(3), &sections)?
            .num_relocations()
            == 0
    );
    Ok(())
}

#[test]
fn sections_of_symbols(rt: HostRuntime) -> Result<(), Fail> {
    let file = File::<Class64>::parse_bytes(RELOCATED, false)?;
    assert!(rt; file.num_symbols() == 3);
    for (index, section) in [
        (0, None),
        (1, Some(SectionIndex(3))),
        (2, Some(SectionIndex(4))),
    ] {
        let symbol = file.symbol(SymbolIndex(index))?;
        assert!(rt;
            file.symbol_section(&symbol, SymbolIndex(index)) == Ok(section),
            "{index}"
        );
    }
    Ok(())
}

#[test]
fn relocation_section_without_target(rt: HostRuntime) -> Result<(), Fail> {
    let mut bytes = [0; 1011];
    bytes.copy_from_slice(RELOCATED);
    bytes[543] = 10;
    let file = File::<Class64>::parse_bytes(&bytes, false)?;
    let answer = file.parse_relocations(rt.alloc());
    assert!(rt; matches!(answer, Err(RelocError::Elf(ElfError::RelocationTable))));
    Ok(())
}
