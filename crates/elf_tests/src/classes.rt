//! Files of either class, by the class that their bytes name (gABI, ELF Identification: EI_CLASS).

use elf_records32::Class32;
use elf_records64::Class64;
use elf_view::{AnyFile, Architecture, ElfError, File};
use elf_words::ET_REL;
use std::test::Fail;
use test_objects::{ObjectClass, SET_OF_MAIN, UNIT, object_with_names_of};

/// Returns the error of parsing bytes as a file of either class, of ELFCLASS64 and of ELFCLASS32.
fn refusals(bytes: &[u8]) -> [Option<ElfError>; 3] {
    [
        AnyFile::parse_bytes(bytes, false).err(),
        File::<Class64>::parse_bytes(bytes, false).err(),
        File::<Class32>::parse_bytes(bytes, false).err(),
    ]
}

#[test]
fn files_of_either_class(rt: HostRuntime) -> Result<(), Fail> {
    let alloc = rt.alloc();
    let header = Some(ElfError::Header);
    for (class, size, refused) in [
        (ObjectClass::Elf64, 489, [None, None, header]),
        (ObjectClass::Elf32, 357, [None, header, None]),
    ] {
        let mut bytes = object_with_names_of(alloc, class, &UNIT, &SET_OF_MAIN)?;
        assert_eq!(rt; refusals(&bytes), refused);
        let file = AnyFile::parse_bytes(&bytes, false).expect(&rt, "an object");
        assert_eq!(rt; file.bytes().len(), size);
        assert_eq!(rt; file.num_sections(), 5);
        assert_eq!(rt; file.file_type(), ET_REL);
        assert_eq!(rt; file.arch(), Architecture::X86_64);
        match &file {
            AnyFile::Class64(file) => file.well_formed(),
            AnyFile::Class32(file) => file.well_formed(),
        }
        assert_eq!(rt; refusals(bytes.get(..4).unwrap_or(&[])), [header; 3]);
        if let Some(byte) = bytes.get_mut(4) {
            *byte = 3;
        }
        assert_eq!(rt; refusals(&bytes), [header; 3]);
    }
    Ok(())
}
