//! Every setter once in both classes, and the errors of ELFCLASS32 at their limits.

use elf_records32::{
    CompressionHeader32, Dyn32, FileHeader32, ProgramHeader32, Rela32, Relr32, SectionHeader32,
    Sym32,
};
use elf_records64::{
    CompressionHeader64, Dyn64, FileHeader64, ProgramHeader64, Rela64, Relr64, SectionHeader64,
    Sym64,
};
use elf_setters::{
    WritableCompressionHeader, WritableDynamicEntry, WritableFileHeader, WritableNoteHeader,
    WritableProgramHeader, WritableRela, WritableRelr, WritableSectionHeader, WritableSymbol,
};
use elf_words::{
    CompressionFields, DynFields, Field, FieldError, FileHeaderFields, NoteHeader,
    ProgramHeaderFields, Record, RelaFields, RelrFields, SectionFlags, SectionHeaderFields,
    SectionType, SymFields,
};

fn file_header<H: WritableFileHeader>() -> Result<[u64; 7], FieldError> {
    let mut header = H::zeroed();
    header.set_ident(&[3; 16]);
    header.set_type(1);
    header.set_machine(62);
    header.set_version(2);
    header.set_entry(0x1000)?;
    header.set_program_header_offset(0x40)?;
    header.set_section_header_offset(0x9000)?;
    header.set_flags(5);
    header.set_header_size(64);
    header.set_program_header_entry_size(56);
    header.set_program_header_count(6);
    header.set_section_header_entry_size(40);
    header.set_section_header_count(7);
    header.set_section_name_table_index(8);
    Ok([
        u64::from(header.e_ident()[15]),
        u64::from(header.e_machine()),
        header.e_entry(),
        header.e_phoff(),
        header.e_shoff(),
        u64::from(header.e_phnum()),
        u64::from(header.e_shstrndx()),
    ])
}

fn program_header<H: WritableProgramHeader>() -> Result<[u64; 8], FieldError> {
    let mut header = H::zeroed();
    header.set_type(1);
    header.set_flags(5);
    header.set_offset(2)?;
    header.set_virtual_address(3)?;
    header.set_physical_address(4)?;
    header.set_file_size(6)?;
    header.set_memory_size(7)?;
    header.set_alignment(8)?;
    Ok([
        u64::from(header.p_type()),
        header.p_offset(),
        header.p_vaddr(),
        header.p_paddr(),
        u64::from(header.p_flags()),
        header.p_filesz(),
        header.p_memsz(),
        header.p_align(),
    ])
}

fn section_header<H: WritableSectionHeader>() -> Result<[u64; 10], FieldError> {
    let mut header = H::zeroed();
    header.set_name(1);
    header.set_type(SectionType(2));
    header.set_flags(SectionFlags(3))?;
    header.set_address(4)?;
    header.set_offset(5)?;
    header.set_size(6)?;
    header.set_link(7);
    header.set_info(8);
    header.set_alignment(9)?;
    header.set_entry_size(10)?;
    Ok([
        u64::from(header.sh_name()),
        u64::from(header.sh_type()),
        header.sh_flags(),
        header.sh_addr(),
        header.sh_offset(),
        header.sh_size(),
        u64::from(header.sh_link()),
        u64::from(header.sh_info()),
        header.sh_addralign(),
        header.sh_entsize(),
    ])
}

fn symbol<S: WritableSymbol>() -> Result<[u64; 6], FieldError> {
    let mut symbol = S::zeroed();
    symbol.set_name(9);
    symbol.set_info(0xff);
    symbol.set_binding_and_type(0x21, 0x12);
    symbol.set_other(0xf3);
    symbol.set_visibility(6);
    symbol.set_section(0xfff1);
    symbol.set_value(0x8000_0000)?;
    symbol.set_size(0xffff_ffff)?;
    Ok([
        u64::from(symbol.st_name()),
        u64::from(symbol.st_info()),
        u64::from(symbol.st_other()),
        u64::from(symbol.st_shndx()),
        symbol.st_value(),
        symbol.st_size(),
    ])
}

fn relocation<R: WritableRela>() -> Result<(u64, i64, [u32; 2]), FieldError> {
    let mut rela = R::zeroed();
    rela.set_offset(0x10)?;
    rela.set_addend(-0x8000_0000)?;
    rela.set_info(0xff_ffff, 0xff)?;
    Ok((
        rela.r_offset(),
        rela.r_addend(),
        [rela.r_sym(), rela.r_type()],
    ))
}

fn dynamic_entry<D: WritableDynamicEntry>() -> Result<(i64, u64), FieldError> {
    let mut entry = D::zeroed();
    entry.set_tag(-2)?;
    entry.set_value(0xffff_ffff)?;
    Ok((entry.d_tag(), entry.d_value()))
}

fn compression_header<H: WritableCompressionHeader>() -> Result<[u64; 3], FieldError> {
    let mut header = H::zeroed();
    header.set_type(1);
    header.set_size(2)?;
    header.set_alignment(3)?;
    Ok([
        u64::from(header.ch_type()),
        header.ch_size(),
        header.ch_addralign(),
    ])
}

fn relative_relocation<R: WritableRelr>() -> Result<u64, FieldError> {
    let mut word = R::zeroed();
    word.set_value(0x2001)?;
    Ok(word.r_value())
}

#[test]
fn setters_of_headers(rt: HostRuntime) {
    let file = Ok([3, 62, 0x1000, 0x40, 0x9000, 6, 8]);
    assert!(rt; file_header::<FileHeader32>() == file);
    assert!(rt; file_header::<FileHeader64>() == file);
    assert!(rt; [FileHeader32::CLASS, FileHeader64::CLASS] == [1, 2]);
    let segment = Ok([1, 2, 3, 4, 5, 6, 7, 8]);
    assert!(rt; program_header::<ProgramHeader32>() == segment);
    assert!(rt; program_header::<ProgramHeader64>() == segment);
    let section = Ok([1, 2, 3, 4, 5, 6, 7, 8, 9, 10]);
    assert!(rt; section_header::<SectionHeader32>() == section);
    assert!(rt; section_header::<SectionHeader64>() == section);
    assert!(rt; compression_header::<CompressionHeader32>() == Ok([1, 2, 3]));
    assert!(rt; compression_header::<CompressionHeader64>() == Ok([1, 2, 3]));
    let mut note = NoteHeader::zeroed();
    note.set_name_size(4);
    note.set_descriptor_size(16);
    note.set_type(5);
    assert!(rt; note.bytes == [4, 0, 0, 0, 16, 0, 0, 0, 5, 0, 0, 0]);
}

#[test]
fn setters_of_symbols_and_entries(rt: HostRuntime) {
    let expected = Ok([9, 0x12, 0xf2, 0xfff1, 0x8000_0000, 0xffff_ffff]);
    assert!(rt; symbol::<Sym32>() == expected);
    assert!(rt; symbol::<Sym64>() == expected);
    let rela = Ok((0x10, -0x8000_0000, [0xff_ffff, 0xff]));
    assert!(rt; relocation::<Rela32>() == rela);
    assert!(rt; relocation::<Rela64>() == rela);
    let entry = Ok((-2, 0xffff_ffff));
    assert!(rt; dynamic_entry::<Dyn32>() == entry);
    assert!(rt; dynamic_entry::<Dyn64>() == entry);
    assert!(rt; relative_relocation::<Relr32>() == Ok(0x2001));
    assert!(rt; relative_relocation::<Relr64>() == Ok(0x2001));
}

#[test]
fn errors_of_elfclass32(rt: HostRuntime) {
    let mut symbol = Sym32 { bytes: [7; 16] };
    let found = symbol.set_value(0x1_0000_0000);
    let value = 0x1_0000_0000;
    assert!(rt;
        found
            == Err(FieldError::DoesNotFit {
                field: Field::StValue,
                value
            })
    );
    assert!(rt; symbol.bytes == [7; 16]);
    let mut entry = Dyn32::zeroed();
    let value = -0x8000_0001;
    assert!(rt;
        entry.set_tag(value)
            == Err(FieldError::Negative {
                field: Field::DTag,
                value
            })
    );
    let value = 0x8000_0000;
    let found = entry.set_tag(0x8000_0000);
    assert!(rt;
        found
            == Err(FieldError::DoesNotFit {
                field: Field::DTag,
                value
            })
    );
    assert!(rt; entry.bytes == [0; 8]);
    let mut rela = Rela32::zeroed();
    let value = 0x100_0000;
    let found = rela.set_info(0x100_0000, 1);
    assert!(rt;
        found
            == Err(FieldError::DoesNotFit {
                field: Field::RInfoSymbol,
                value
            })
    );
    let found = rela.set_info(0x100_0000, 0x100);
    assert!(rt;
        found
            == Err(FieldError::DoesNotFit {
                field: Field::RInfoSymbol,
                value
            })
    );
    let value = 0x100;
    let found = rela.set_info(0xff_ffff, 0x100);
    assert!(rt;
        found
            == Err(FieldError::DoesNotFit {
                field: Field::RInfoType,
                value
            })
    );
    assert!(rt; rela.bytes == [0; 12]);
    assert!(rt; rela.set_info(5, 7) == Ok(()));
    assert!(rt; rela.bytes == [0, 0, 0, 0, 7, 5, 0, 0, 0, 0, 0, 0]);
}
