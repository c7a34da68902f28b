//! Records that are read from bytes that count up: each getter returns the number at the offset of its field.

use elf_records32::{
    CompressionHeader32, Dyn32, FileHeader32, ProgramHeader32, Rela32, Relr32, SectionHeader32,
    Sym32,
};
use elf_records64::{
    Class64, CompressionHeader64, Dyn64, FileHeader64, ProgramHeader64, Rela64, Relr64,
    SectionHeader64, Sym64,
};
use elf_tables::{
    AArch64PAuthProperty, EhFrameEntryPrefix, EhFrameHdr, EhFrameHdrEntry, GnuHashHeader,
    NoteProperty, Verdaux, Verdef, Vernaux, Verneed, Versym,
};
use elf_words::{
    CompressionFields, DynFields, ElfClass, ElfSymbol, FileHeaderFields, ProgramHeaderFields,
    Record, RelaFields, RelrFields, SectionHeaderFields, SymFields,
};

/// Returns the bytes 0, 1, 2 and so on.
fn counting() -> [u8; 64] {
    let mut bytes = [0; 64];
    for (n, byte) in (0..64u8).zip(&mut bytes) {
        *byte = n;
    }
    bytes
}

/// Returns the record of the first bytes.
fn first<R: Record>(bytes: &[u8]) -> R {
    R::read(bytes).unwrap_or(R::zeroed())
}

#[test]
fn headers_of_elfclass64(rt: HostRuntime) {
    let bytes = counting();
    let file = FileHeader64::read(&bytes).unwrap_or_default();
    let found = [
        u64::from(file.e_machine()),
        file.e_shoff(),
        u64::from(file.e_shstrndx()),
    ];
    assert!(rt; found == [0x1312, 0x2f2e_2d2c_2b2a_2928, 0x3f3e]);
    let section = SectionHeader64::read(&bytes).unwrap_or_default();
    assert!(rt;
        [u64::from(section.sh_type()), section.sh_size()] == [0x0706_0504, 0x2726_2524_2322_2120]
    );
    let segment = ProgramHeader64::read(&bytes).unwrap_or_default();
    assert!(rt;
        [u64::from(segment.p_flags()), segment.p_align()] == [0x0706_0504, 0x3736_3534_3332_3130]
    );
    let compressed = CompressionHeader64::read(&bytes).unwrap_or_default();
    assert!(rt; compressed.ch_size() == 0x0f0e_0d0c_0b0a_0908);
}

#[test]
fn symbols_and_entries_of_elfclass64(rt: HostRuntime) {
    let bytes = counting();
    let symbol = Sym64::read(&bytes).unwrap_or_default();
    assert!(rt; [u16::from(symbol.st_info()), symbol.st_shndx()] == [4, 0x0706]);
    let rela = Rela64::read(&bytes).unwrap_or_default();
    assert!(rt; [rela.r_sym(), rela.r_type()] == [0x0f0e_0d0c, 0x0b0a_0908]);
    assert!(rt; rela.r_addend() == 0x1716_1514_1312_1110);
    let entry = Dyn64::read(&[0xff; 16]).unwrap_or_default();
    assert!(rt; entry.d_tag() == -1);
    let word = Relr64::read(&bytes).unwrap_or_default();
    assert!(rt; word.r_value() == 0x0706_0504_0302_0100);
    assert!(rt; Rela64::read(&[0; 23]).is_none());
}

/// Returns the result of each test of a section header.
fn section_tests<H: SectionHeaderFields>(header: &H) -> [bool; 14] {
    [
        header.is_writable(),
        header.is_alloc(),
        header.is_executable(),
        header.is_merge_section(),
        header.is_strings(),
        header.is_group(),
        header.is_tls(),
        header.should_retain(),
        header.should_exclude(),
        header.is_null(),
        header.is_prog_bits(),
        header.is_note(),
        header.is_no_bits(),
        header.is_group_header(),
    ]
}

#[test]
fn tests_of_section_headers(rt: HostRuntime) {
    for (index, (flags, section_type)) in [
        (0x1u64, 0x100u32),
        (0x2, 0x100),
        (0x4, 0x100),
        (0x10, 0x100),
        (0x20, 0x100),
        (0x200, 0x100),
        (0x400, 0x100),
        (0x20_0000, 0x100),
        (0x8000_0000, 0x100),
        (0, 0),
        (0, 1),
        (0, 7),
        (0, 8),
        (0, 17),
    ]
    .into_iter()
    .enumerate()
    {
        let mut header = SectionHeader64::zeroed();
        header.bytes[4..8].copy_from_slice(&section_type.to_le_bytes());
        header.bytes[8..16].copy_from_slice(&flags.to_le_bytes());
        let found = section_tests(&header);
        for (test, passes) in found.iter().enumerate() {
            assert!(rt; *passes == (test == index), "{test} {index}");
        }
    }
}

#[test]
fn headers_of_elfclass32(rt: HostRuntime) {
    let bytes = counting();
    let file = FileHeader32::read(&bytes).unwrap_or_default();
    let found = [
        u64::from(file.e_machine()),
        file.e_shoff(),
        u64::from(file.e_shstrndx()),
    ];
    assert!(rt; found == [0x1312, 0x2322_2120, 0x3332]);
    let section = SectionHeader32::read(&bytes).unwrap_or_default();
    assert!(rt; [u64::from(section.sh_info()), section.sh_size()] == [0x1f1e_1d1c, 0x1716_1514]);
    let segment = ProgramHeader32::read(&bytes).unwrap_or_default();
    assert!(rt; [u64::from(segment.p_flags()), segment.p_align()] == [0x1b1a_1918, 0x1f1e_1d1c]);
    let compressed = CompressionHeader32::read(&bytes).unwrap_or_default();
    assert!(rt; compressed.ch_size() == 0x0706_0504);
}

#[test]
fn symbols_and_entries_of_elfclass32(rt: HostRuntime) {
    let bytes = counting();
    let symbol = Sym32::read(&bytes).unwrap_or_default();
    assert!(rt; [u16::from(symbol.st_info()), symbol.st_shndx()] == [12, 0x0f0e]);
    assert!(rt; [symbol.st_value(), symbol.st_size()] == [0x0706_0504, 0x0b0a_0908]);
    let rela = Rela32::read(&bytes).unwrap_or_default();
    assert!(rt; [rela.r_sym(), rela.r_type()] == [0x07_0605, 4]);
    assert!(rt; rela.r_addend() == 0x0b0a_0908);
    let entry = Dyn32::read(&[0xff; 8]).unwrap_or_default();
    assert!(rt; entry.d_tag() == -1);
    let word = Relr32::read(&bytes).unwrap_or_default();
    assert!(rt; word.r_value() == 0x0302_0100);
    assert!(rt; Rela32::read(&[0; 11]).is_none());
}

/// Returns sizes of the class of a symbol.
fn sizes<S: ElfSymbol>(_symbol: &S) -> [u64; 4] {
    [
        S::Class::SYMTAB_ENTRY_SIZE,
        S::Class::RELA_ENTRY_SIZE,
        S::Class::DYNAMIC_ENTRY_SIZE,
        S::Class::GNU_PROPERTY_ALIGNMENT,
    ]
}

#[test]
fn sizes_of_the_classes(rt: HostRuntime) {
    assert!(rt; sizes(&Sym32::zeroed()) == [16, 12, 8, 4]);
    assert!(rt; sizes(&Sym64::zeroed()) == [24, 24, 16, 8]);
    assert!(rt; [Class64::ADDRESS_SIZE, Class64::NOTE_HEADER_SIZE] == [8, 12]);
}

#[test]
fn fields_of_versions(rt: HostRuntime) {
    let bytes = counting();
    let verdef: Verdef = first(&bytes);
    assert!(rt;
        [
            verdef.vd_version(),
            verdef.vd_flags(),
            verdef.vd_ndx(),
            verdef.vd_cnt()
        ] == [0x100, 0x302, 0x504, 0x706]
    );
    assert!(rt;
        [verdef.vd_hash(), verdef.vd_aux(), verdef.vd_next()]
            == [0x0b0a_0908, 0x0f0e_0d0c, 0x1312_1110]
    );
    let verdaux: Verdaux = first(&bytes);
    assert!(rt; [verdaux.vda_name(), verdaux.vda_next()] == [0x0302_0100, 0x0706_0504]);
    let verneed: Verneed = first(&bytes);
    assert!(rt; [verneed.vn_file(), verneed.vn_next()] == [0x0706_0504, 0x0f0e_0d0c]);
    let vernaux: Vernaux = first(&bytes);
    assert!(rt; [vernaux.vna_flags(), vernaux.vna_other()] == [0x504, 0x706]);
    let hidden: Versym = first(&[5, 0x80]);
    let shown: Versym = first(&[0xff, 0x7f]);
    assert!(rt; [hidden.index(), shown.index()] == [5, 0x7fff]);
    assert!(rt; [hidden.is_hidden(), shown.is_hidden()] == [true, false]);
}

#[test]
fn fields_of_other_tables(rt: HostRuntime) {
    let bytes = counting();
    let table: GnuHashHeader = first(&bytes);
    assert!(rt; [table.symbol_base(), table.bloom_shift()] == [0x0706_0504, 0x0f0e_0d0c]);
    let header: EhFrameHdr = first(&[1, 0x1b, 3, 0x3b, 0xfc, 0xff, 0xff, 0xff, 2, 0, 0, 0]);
    assert!(rt;
        [
            header.version(),
            header.frame_pointer_encoding(),
            header.count_encoding(),
            header.table_encoding()
        ] == [1, 0x1b, 3, 0x3b]
    );
    assert!(rt; header.frame_pointer() == -4);
    assert!(rt; header.entry_count() == 2);
    let entry: EhFrameHdrEntry = first(&[0xff, 0xff, 0xff, 0xff, 8, 0, 0, 0]);
    assert!(rt; [entry.frame_ptr(), entry.frame_info_ptr()] == [-1, 8]);
    let prefix: EhFrameEntryPrefix = first(&bytes);
    assert!(rt; [prefix.length(), prefix.cie_id()] == [0x0302_0100, 0x0706_0504]);
    let property: NoteProperty = first(&bytes);
    assert!(rt; [property.pr_datasz(), property.pr_data()] == [0x0706_0504, 0x0b0a_0908]);
    let pauth: AArch64PAuthProperty = first(&bytes);
    assert!(rt;
        [pauth.platform(), pauth.version()] == [0x0f0e_0d0c_0b0a_0908, 0x1716_1514_1312_1110]
    );
}
