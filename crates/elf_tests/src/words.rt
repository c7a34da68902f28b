//! Numbers, alignments, cursors and flags, with values that were worked out by hand.

use elf_words::{
    Alignment, ByteCursor, CursorError, ElfWord, Field, FieldError, NoteHeader, Record, SHF_ALLOC,
    SHF_TLS, SHF_WRITE, SectionFlags, SectionType, extract_bit_range, push_sleb128, push_uleb128,
    u32_from_slice, u64_from_slice, uleb128_size,
};

#[test]
fn alignments(rt: HostRuntime) {
    for (value, expected) in [(0, Some(1)), (1, Some(1)), (8, Some(8)), (12, None)] {
        assert!(rt;
            Alignment::new(value).ok().map(Alignment::value) == expected,
            "{value}"
        );
    }
    if let (Ok(eight), Ok(sixteen)) = (Alignment::new(8), Alignment::new(16)) {
        assert!(rt; eight.align_up(13) == 16);
        assert!(rt; sixteen.align_modulo(5, 17) == 21);
    }
}

#[test]
fn numbers_in_leb128(rt: HostRuntime) {
    let mut out = Vec::new(rt.alloc());
    assert!(rt; push_uleb128(&mut out, 300).is_ok());
    assert!(rt; push_sleb128(&mut out, -1).is_ok());
    assert!(rt; out.as_slice() == [0xac, 0x02, 0x7f].as_slice());
    let mut cursor = ByteCursor::new(&out);
    assert!(rt; cursor.read_uleb128() == Ok(300));
    assert!(rt; cursor.read_sleb128() == Ok(-1));
    assert!(rt; cursor.read_uleb128() == Err(CursorError::Short));
    for (value, size) in [(0, 1), (127, 1), (128, 2), (u64::MAX, 10)] {
        assert!(rt; uleb128_size(value) == size, "{value}");
    }
    let above = [0xff, 0xff, 0xff, 0xff, 0xff, 0xff, 0xff, 0xff, 0xff, 2];
    assert!(rt; ByteCursor::new(&above).read_uleb128() == Err(CursorError::TooLong));
}

#[test]
fn strings_and_numbers_of_a_cursor(rt: HostRuntime) {
    let mut cursor = ByteCursor::new(b"\x01\x02\0\0main\0\xff\0ab");
    assert!(rt; cursor.read_u32() == Ok(0x201));
    assert!(rt; cursor.read_string() == Ok("main"));
    assert!(rt; cursor.read_string() == Err(CursorError::NotUtf8));
    assert!(rt; cursor.rest() == b"\xff\0ab".as_slice());
    assert!(rt; ByteCursor::new(b"ab").read_string() == Err(CursorError::Short));
    assert!(rt; ByteCursor::new(b"abc").read_u32() == Err(CursorError::Short));
}

#[test]
fn numbers_and_bits(rt: HostRuntime) {
    assert!(rt; u32_from_slice(&[1, 2, 0, 0, 9]) == 0x201);
    assert!(rt; u64_from_slice(&[1, 0, 0, 0, 0, 0, 0, 1]) == 0x0100_0000_0000_0001);
    for (from, to, expected) in [(0, 64, 0xf0), (4, 6, 3), (4, 8, 15), (64, 64, 0), (3, 3, 0)] {
        assert!(rt;
            extract_bit_range(0xf0, from, to) == expected,
            "{from} {to}"
        );
    }
    let word: Result<u32, FieldError> = ElfWord::from_u64(1 << 32);
    assert!(rt;
        word == Err(FieldError::DoesNotFit {
            field: Field::Word,
            value: 1 << 32
        })
    );
}

#[test]
fn flags_types_and_notes(rt: HostRuntime) {
    let flags = SectionFlags(SHF_ALLOC | SHF_WRITE);
    let found = [
        flags.is_alloc(),
        flags.contains(SectionFlags(SHF_WRITE)),
        flags.contains(SectionFlags(SHF_WRITE | SHF_TLS)),
        SectionType(4).is_rela(),
        SectionType(9).is_rel(),
        SectionType(2).is_symtab(),
        SectionType(3).is_strtab(),
    ];
    assert!(rt; found == [true, true, false, true, true, true, true]);
    assert!(rt; flags.without(SectionFlags(SHF_WRITE | SHF_TLS)) == SectionFlags(SHF_ALLOC));
    let note = NoteHeader::read(&[4, 0, 0, 0, 16, 0, 0, 0, 5, 0, 0, 0]).unwrap_or_default();
    assert!(rt; [note.n_namesz(), note.n_descsz(), note.n_type()] == [4, 16, 5]);
}
