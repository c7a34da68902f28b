//! Dynamic entries (gABI, "Dynamic Section"): all of them, the last with a tag, and the libraries that are needed.

use crate::shared::{ENTRIES, Parts, shared_object, well_formed};
use elf_format::ElfError;
use elf_records32::Class32;
use elf_records64::Class64;
use elf_view::{DynamicTagValues, File, Sonames, has_complete_deps};
use elf_words::{DynFields, ElfClass};
use std::alloc::{AllocError, Global};
use std::test::Fail;
use test_objects::{ObjectClass, object_with_names_of};

/// What is found of the dynamic entries: how many there are, the tag of the fifth, the number of version definitions, whether the
/// library is named `lib.so`, and whether `lib.so` is all that is needed.
type Found = (
    Result<usize, ElfError>,
    Option<i64>,
    Option<u64>,
    bool,
    bool,
);

/// Finds it in a dynamic file.
fn find<C: ElfClass>(alloc: Global, bytes: &[u8], is_dynamic: bool) -> Result<Found, AllocError> {
    let file = match File::<C>::parse_bytes(bytes, is_dynamic) {
        Ok(file) => file,
        Err(error) => return Ok((Err(error), None, None, false, false)),
    };
    let mut names = Vec::new(alloc);
    names.push(b"lib.so".as_slice())?;
    let names = Sonames::new(alloc, names)?;
    let complete = has_complete_deps(&file, &names);
    let values = file.dynamic_tag_values();
    let named = values
        .unwrap_or(DynamicTagValues::default())
        .lib_name(b"none")
        == b"lib.so".as_slice();
    let count = values.map(|values| values.verdefnum);
    match file.dynamic_tags() {
        Ok(entries) => Ok((
            Ok(entries.len()),
            entries.get(4).map(|entry| entry.d_tag()),
            count,
            named,
            complete,
        )),
        Err(error) => Ok((Err(error), None, count, named, complete)),
    }
}

#[test]
fn dynamic_entries_of_files(rt: HostRuntime) -> Result<(), Fail> {
    let alloc = rt.alloc();
    for (entries, expected) in [
        (ENTRIES, (Ok(6), Some(0), Some(2), true, true)),
        (&[(14, 13), (14, 99)], (Ok(2), None, Some(0), false, true)),
        (&[(1, 1)], (Ok(1), None, Some(0), false, false)),
        (&[(1, 13), (1, 99)], (Ok(2), None, Some(0), false, false)),
        (&[], (Ok(0), None, Some(0), false, true)),
    ] {
        let parts = Parts {
            entries,
            ..well_formed()
        };
        let wide = shared_object(alloc, ObjectClass::Elf64, parts)?;
        assert_eq!(rt; find::<Class64>(alloc, &wide, true)?, expected);
        let narrow = shared_object(alloc, ObjectClass::Elf32, parts)?;
        assert_eq!(rt; find::<Class32>(alloc, &narrow, true)?, expected);
    }
    let beyond = Parts {
        entries: &[(1, 0x1_0000_000d), (14, 0x1_0000_000d)],
        ..well_formed()
    };
    let wide = shared_object(alloc, ObjectClass::Elf64, beyond)?;
    assert_eq!(rt;
        find::<Class64>(alloc, &wide, true)?,
        (Ok(2), None, Some(0), true, false)
    );
    let object = object_with_names_of(alloc, ObjectClass::Elf64, &[], &[])?;
    assert_eq!(rt;
        find::<Class64>(alloc, &object, false)?,
        (Ok(0), None, None, false, true)
    );
    Ok(())
}
