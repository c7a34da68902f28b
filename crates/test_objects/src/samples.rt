//! Objects that several tests read.

use crate::class::ObjectClass;
use crate::object_file::{object, object_of_class};
use crate::section::{Section, plain};
use elf_format::Architecture;
use elf_words::{
    ET_REL, SHF_ALLOC, SHF_EXECINSTR, SHT_GNU_VERSYM, SHT_RELA, SHT_STRTAB, SHT_SYMTAB,
};
use std::alloc::{AllocError, Global};

/// A compilation unit (CU) of twelve bytes (DWARF 5, 7.5.1).
pub const UNIT: [u8; 12] = [8, 0, 0, 0, 0, 0, 0, 0, 0, 0, 0, 0];

/// The set of the CU at offset 0 that publishes the function `main` (GDB manual, "Index Section Format").
pub const SET_OF_MAIN: [u8; 28] =
    *b"\x18\0\0\0\x02\0\0\0\0\0\x0c\0\0\0\x2a\0\0\0\x30main\0\0\0\0\0";

/// The flags of code.
const CODE: u64 = SHF_ALLOC | SHF_EXECINSTR;

/// Two CUs of twelve bytes.
const TWO_UNITS: &[u8] = &[
    8, 0, 0, 0, 0, 0, 0, 0, 0, 0, 0, 0, 8, 0, 0, 0, 0, 0, 0, 0, 0, 0, 0, 0,
];

/// The RELA records of these CUs, each to a symbol of its own (gABI, "Relocation").
const RELOCATIONS: &[u8] = b"\
    \x08\0\0\0\0\0\0\0\x01\0\0\0\x01\0\0\0\0\0\0\0\0\0\0\0\
    \x14\0\0\0\0\0\0\0\x01\0\0\0\x02\0\0\0\0\0\0\0\0\0\0\0";

/// The null symbol, and the section symbols of sections 3 and 4 (gABI, "Symbol Table").
const SYMBOLS: &[u8] = b"\
    \0\0\0\0\0\0\0\0\0\0\0\0\0\0\0\0\0\0\0\0\0\0\0\0\
    \0\0\0\0\x03\0\x03\0\0\0\0\0\0\0\0\0\0\0\0\0\0\0\0\0\
    \0\0\0\0\x03\0\x04\0\0\0\0\0\0\0\0\0\0\0\0\0\0\0\0\0";

/// The RELA records of these CUs in ELFCLASS32.
const RELOCATIONS_32: &[u8] = b"\
    \x08\0\0\0\x01\x01\0\0\0\0\0\0\
    \x14\0\0\0\x01\x02\0\0\0\0\0\0";

/// The null symbol, and the section symbols of sections 3 and 4, in ELFCLASS32.
const SYMBOLS_32: &[u8] = b"\
    \0\0\0\0\0\0\0\0\0\0\0\0\0\0\0\0\
    \0\0\0\0\0\0\0\0\0\0\0\0\x03\0\x03\0\
    \0\0\0\0\0\0\0\0\0\0\0\0\x03\0\x04\0";

/// A CIE, and an FDE of no code.
const FRAMES: &[u8] = b"\x04\0\0\0\0\0\0\0\x0c\0\0\0\x0c\0\0\0\0\0\0\0\0\0\0\0";

/// Returns an object of ELFCLASS64 for x86-64 with these bytes of `.debug_info` (section 1) and of
/// `.debug_gnu_pubnames` (section 2), and 16 bytes of code (section 3).
pub fn object_with_names(alloc: Global, info: &[u8], names: &[u8]) -> Result<Vec<u8>, AllocError> {
    object_with_names_of(alloc, ObjectClass::Elf64, info, names)
}

/// Returns such an object of a class.
pub fn object_with_names_of(
    alloc: Global,
    class: ObjectClass,
    info: &[u8],
    names: &[u8],
) -> Result<Vec<u8>, AllocError> {
    object_of_class(
        alloc,
        class,
        ET_REL,
        Architecture::X86_64.machine(),
        &[
            plain(b".debug_info", 0, info),
            plain(b".debug_gnu_pubnames", 0, names),
            plain(b".text", CODE, &[0; 16]),
        ],
    )
}

/// Returns an object of ELFCLASS64 for x86-64 with two CUs of twelve bytes (section 1) and relocations of them
/// (section 2): the first refers to the code of section 3, the second to that of section 4. No CU refers to section 5.
pub fn object_of_two_units(alloc: Global) -> Result<Vec<u8>, AllocError> {
    object_of_two_units_of(alloc, ObjectClass::Elf64)
}

/// Returns such an object of a class.
pub fn object_of_two_units_of(alloc: Global, class: ObjectClass) -> Result<Vec<u8>, AllocError> {
    object_of_class(
        alloc,
        class,
        ET_REL,
        Architecture::X86_64.machine(),
        &sections_of_two_units(class),
    )
}

/// Returns the sections 1 to 8 of such an object. The symbol table is section 7.
pub fn sections_of_two_units<'a>(class: ObjectClass) -> [Section<'a>; 8] {
    let (relocations, symbols) = match class {
        ObjectClass::Elf32 => (RELOCATIONS_32, SYMBOLS_32),
        ObjectClass::Elf64 => (RELOCATIONS, SYMBOLS),
    };
    [
        plain(b".debug_info", 0, TWO_UNITS),
        Section {
            section_type: SHT_RELA,
            link: 7,
            info: 1,
            entry_size: class.rela_size(),
            ..plain(b".rela.debug_info", 0, relocations)
        },
        plain(b".text.a", CODE, &[0; 16]),
        plain(b".text.b", CODE, &[0; 16]),
        plain(b".text.c", CODE, &[0; 16]),
        plain(b".eh_frame", SHF_ALLOC, FRAMES),
        Section {
            section_type: SHT_SYMTAB,
            link: 8,
            info: 3,
            entry_size: class.symbol_size(),
            ..plain(b".symtab", 0, symbols)
        },
        Section {
            section_type: SHT_STRTAB,
            ..plain(b".strtab", 0, &[0; 1])
        },
    ]
}

/// Returns an object of ELFCLASS64 for x86-64 with a CU, an empty `.debug_gnu_pubnames`, code, two symbols with their
/// strings and version indexes, and the section names.
pub fn sample(alloc: Global) -> Result<Vec<u8>, AllocError> {
    object(
        alloc,
        ET_REL,
        Architecture::X86_64.machine(),
        &[
            plain(b".debug_info", 0, &UNIT),
            plain(b".debug_gnu_pubnames", 0, &[]),
            plain(b".text", 0, &[0; 16]),
            Section {
                section_type: SHT_SYMTAB,
                link: 5,
                entry_size: 24,
                ..plain(b".symtab", 0, &[0; 48])
            },
            Section {
                section_type: SHT_STRTAB,
                ..plain(b".strtab", 0, &[0; 1])
            },
            Section {
                section_type: SHT_GNU_VERSYM,
                link: 4,
                ..plain(b".gnu.version", 0, &[0; 4])
            },
        ],
    )
}
