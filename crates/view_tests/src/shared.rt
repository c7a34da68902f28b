//! A small shared object with symbols, versions and dynamic entries, of both classes.

use elf_words::{
    ET_DYN, SHT_DYNAMIC, SHT_DYNSYM, SHT_GNU_VERDEF, SHT_GNU_VERNEED, SHT_GNU_VERSYM, SHT_STRTAB,
};
use std::alloc::{AllocError, Global};
use test_objects::{
    ObjectClass, Section, SymbolRecord, dynamic_entries, object_of_class, plain, symbol_records,
};

/// The strings: `one` at offset 1, `ONE` at 5, `TWO` at 9, `lib.so` at 13, `BASE` at 20.
pub(crate) const STRINGS: &[u8] = b"\0one\0ONE\0TWO\0lib.so\0BASE\0";

/// Version definitions: BASE of index 1, TWO of index 2, whose second name is ONE.
pub(crate) const DEFINITIONS: &[u8] = b"\
    \x01\0\x01\0\x01\0\x01\0\0\0\0\0\x14\0\0\0\x1c\0\0\0\
    \x14\0\0\0\0\0\0\0\
    \x01\0\0\0\x02\0\x02\0\0\0\0\0\x14\0\0\0\0\0\0\0\
    \x09\0\0\0\x08\0\0\0\
    \x05\0\0\0\0\0\0\0";

/// A file from which two versions are needed: ONE of index 3, and BASE of index 4.
pub(crate) const NEEDS: &[u8] = b"\
    \x01\0\x02\0\x0d\0\0\0\x10\0\0\0\0\0\0\0\
    \0\0\0\0\0\0\x03\0\x05\0\0\0\x10\0\0\0\
    \0\0\0\0\0\0\x04\0\x14\0\0\0\0\0\0\0";

/// The version records of symbols 0 to 4: local, TWO, TWO hidden, ONE (needed), and an unknown index.
pub(crate) const VERSIONS: &[u8] = b"\0\0\x02\0\x02\x80\x03\0\x09\0";

/// What the parts of a shared object hold.
#[derive(Clone, Copy)]
pub(crate) struct Parts<'a> {
    /// The bytes of SHT_GNU_VERDEF.
    pub(crate) definitions: &'a [u8],
    /// How many definitions its header counts.
    pub(crate) definition_count: u32,
    /// The bytes of SHT_GNU_VERNEED, whose header counts one file.
    pub(crate) needs: &'a [u8],
    /// The bytes of SHT_GNU_VERSYM.
    pub(crate) versions: &'a [u8],
    /// The section with the strings of both: 2, or 0 for none.
    pub(crate) strings: u32,
    /// The dynamic entries.
    pub(crate) entries: &'a [(u64, u64)],
}

/// The dynamic entries: the needed library `lib.so`, two names of the library, of which the last is `lib.so`, the number of
/// definitions, the null entry, and one after it.
pub(crate) const ENTRIES: &[(u64, u64)] = &[
    (1, 13),
    (14, 1),
    (14, 13),
    (0x6ffffffd, 2),
    (0, 0),
    (5, 7),
];

/// Returns the parts as they are where nothing is malformed.
pub(crate) fn well_formed<'a>() -> Parts<'a> {
    Parts {
        definitions: DEFINITIONS,
        definition_count: 2,
        needs: NEEDS,
        versions: VERSIONS,
        strings: 2,
        entries: ENTRIES,
    }
}

/// A symbol named `one`.
const ONE: SymbolRecord = SymbolRecord {
    name: 1,
    info: 0x12,
    other: 0,
    section: 1,
    value: 16,
    size: 4,
};

/// The null symbol.
const NULL: SymbolRecord = SymbolRecord {
    name: 0,
    info: 0,
    other: 0,
    section: 0,
    value: 0,
    size: 0,
};

/// A symbol whose name is out of the strings' range.
const UNREADABLE: SymbolRecord = SymbolRecord { name: 99, ..ONE };

/// Returns a shared object with these parts: dynamic symbols (section 1), strings (2), version records (3), definitions (4), needs (5)
/// and dynamic entries (6). It has six symbols: the null symbol, four named `one`, and one whose name is unreadable.
pub(crate) fn shared_object(
    alloc: Global,
    class: ObjectClass,
    parts: Parts<'_>,
) -> Result<Vec<u8>, AllocError> {
    let symbols = symbol_records(alloc, class, &[NULL, ONE, ONE, ONE, ONE, UNREADABLE])?;
    let entries = dynamic_entries(alloc, class, parts.entries)?;
    let linked = |section_type, name, link, info, bytes| Section {
        section_type,
        link,
        info,
        ..plain(name, 2, bytes)
    };
    object_of_class(
        alloc,
        class,
        ET_DYN,
        62,
        &[
            linked(SHT_DYNSYM, b".dynsym".as_slice(), 2, 1, symbols.as_slice()),
            linked(SHT_STRTAB, b".dynstr", 0, 0, STRINGS),
            linked(SHT_GNU_VERSYM, b".gnu.version", 1, 0, parts.versions),
            linked(
                SHT_GNU_VERDEF,
                b".gnu.version_d",
                parts.strings,
                parts.definition_count,
                parts.definitions,
            ),
            linked(
                SHT_GNU_VERNEED,
                b".gnu.version_r",
                parts.strings,
                1,
                parts.needs,
            ),
            linked(SHT_DYNAMIC, b".dynamic", 2, 0, entries.as_slice()),
        ],
    )
}
