//! Section groups (gABI, "Section Groups"): each refusal, in the order of the tests.

use elf_format::{ElfError, SectionIndex, SymbolIndex};
use elf_records32::Class32;
use elf_records64::Class64;
use elf_view::{File, GroupError};
use elf_words::{ET_REL, ElfClass, SHF_GROUP, SHT_GROUP};
use std::alloc::{AllocError, Global};
use std::test::Fail;
use test_objects::{ObjectClass, Section, object_of_class, plain, sections_of_two_units};

/// The index of the group's section.
const GROUP: SectionIndex = SectionIndex(9);

/// Returns an object with a section group of these bytes (section 9), linked to a section, with a symbol as its signature; the
/// flags are added to those of section 3.
fn object_with_group(
    alloc: Global,
    class: ObjectClass,
    flags: u64,
    link: u32,
    signature: u32,
    words: &[u8],
) -> Result<Vec<u8>, AllocError> {
    let [
        info,
        relocations,
        code,
        other,
        third,
        frames,
        symbols,
        strings,
    ] = sections_of_two_units(class);
    let sections = [
        info,
        relocations,
        Section {
            flags: code.flags | flags,
            ..code
        },
        other,
        third,
        frames,
        symbols,
        strings,
        Section {
            section_type: SHT_GROUP,
            link,
            info: signature,
            ..plain(b".group", 0, words)
        },
    ];
    object_of_class(alloc, class, ET_REL, 62, &sections)
}

/// Returns why the groups of an object are refused, or its groups, members and the first member.
fn found<C: ElfClass>(
    alloc: Global,
    bytes: &[u8],
) -> Result<(usize, bool, usize, Option<SectionIndex>), GroupError> {
    let file = File::<C>::parse_bytes(bytes, false).map_err(GroupError::Elf)?;
    let groups = file.section_groups(alloc)?;
    match groups.first() {
        Some(group) if group.index == GROUP && group.signature_symbol == SymbolIndex(1) => Ok((
            groups.len(),
            group.is_comdat,
            group.members.len(),
            group.members.get(0),
        )),
        _ => Ok((groups.len(), false, 0, None)),
    }
}

#[test]
fn groups_and_their_refusals(rt: HostRuntime) -> Result<(), Fail> {
    let alloc = rt.alloc();
    let member = SectionIndex(9);
    let group = GROUP;
    let code = SectionIndex(3);
    for (flags, link, signature, words, expected) in [
        (
            SHF_GROUP,
            8,
            1,
            b"".as_slice(),
            Err(GroupError::OtherSymbolTable { group }),
        ),
        (0, 7, 3, b"", Err(GroupError::BadSignature { group })),
        (
            0,
            7,
            1,
            b"\x01\0\0",
            Err(GroupError::Elf(ElfError::SectionData)),
        ),
        (0, 7, 1, b"", Err(GroupError::EmptyGroup { group })),
        (
            0,
            7,
            1,
            b"\x02\0\0\0",
            Err(GroupError::UnsupportedFlags { group, flags: 2 }),
        ),
        (
            0,
            7,
            1,
            b"\x01\0\0\0\x09\0\0\0",
            Err(GroupError::InvalidMember { group, member }),
        ),
        (
            0,
            7,
            1,
            b"\0\0\0\0\x0b\0\0\0",
            Err(GroupError::InvalidMember {
                group,
                member: SectionIndex(11),
            }),
        ),
        (
            0,
            7,
            1,
            b"\x01\0\0\0\0\0\0\0",
            Err(GroupError::InvalidMember {
                group,
                member: SectionIndex(0),
            }),
        ),
        (
            0,
            7,
            1,
            b"\x01\0\0\0\x03\0\0\0",
            Err(GroupError::MemberLacksFlag {
                group,
                member: code,
            }),
        ),
        (
            SHF_GROUP,
            7,
            1,
            b"\x01\0\0\0\x03\0\0\0",
            Ok((1, true, 1, Some(code))),
        ),
        (
            SHF_GROUP,
            7,
            1,
            b"\0\0\0\0\x03\0\0\0\x03\0\0\0",
            Ok((1, false, 2, Some(code))),
        ),
        (0, 7, 1, b"\x01\0\0\0", Ok((1, true, 0, None))),
    ] {
        let wide = object_with_group(alloc, ObjectClass::Elf64, flags, link, signature, words)?;
        assert_eq!(rt; found::<Class64>(alloc, &wide), expected);
        let narrow = object_with_group(alloc, ObjectClass::Elf32, flags, link, signature, words)?;
        assert_eq!(rt; found::<Class32>(alloc, &narrow), expected);
    }
    Ok(())
}
