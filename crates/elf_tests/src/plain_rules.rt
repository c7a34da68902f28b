//! The rules of an ELFCLASS64 file (System V gABI, ELF Header, Sections, Symbol Table), read slowly and one by one:
//! each rule goes over the whole section header table, and each number is read byte by byte.

use elf_format::ElfError;

/// Returns the little-endian number of `width` bytes at an offset. A byte past the end is 0.
fn number(bytes: &[u8], at: u128, width: u8) -> u64 {
    let mut total = 0u64;
    for i in 0..width {
        let offset = at.saturating_add(u128::from(width - 1 - i));
        let byte = match usize::try_from(offset) {
            Ok(offset) => bytes.get(offset).copied().unwrap_or(0),
            Err(_) => 0,
        };
        total = total.wrapping_mul(256).wrapping_add(u64::from(byte));
    }
    total
}

/// Returns the offset of a section header.
fn header_at(bytes: &[u8], index: u64) -> u128 {
    u128::from(number(bytes, 40, 8)).saturating_add(u128::from(index).saturating_mul(64))
}

/// Returns a field of a section header.
fn field(bytes: &[u8], index: u64, at: u128, width: u8) -> u64 {
    number(bytes, header_at(bytes, index).saturating_add(at), width)
}

/// Reports whether `size` bytes at an offset are in the file.
fn lies_in(bytes: &[u8], at: u128, size: u128) -> bool {
    at.saturating_add(size) <= bytes.len() as u128
}

/// Returns the number of sections, where the header of section 0 can be read.
fn count(bytes: &[u8]) -> u64 {
    if number(bytes, 40, 8) == 0 {
        return 0;
    }
    match number(bytes, 60, 2) {
        0 => field(bytes, 0, 32, 8),
        count => count,
    }
}

/// Reports whether the bytes of a section are in the file.
fn has_bytes(bytes: &[u8], index: u64) -> bool {
    let size = field(bytes, index, 32, 8);
    field(bytes, index, 4, 4) == 8
        || size == 0
        || lies_in(
            bytes,
            u128::from(field(bytes, index, 24, 8)),
            u128::from(size),
        )
}

/// Reports whether there is a section of an index and a type.
fn has_type(bytes: &[u8], index: u64, section_type: u64) -> bool {
    index < count(bytes) && field(bytes, index, 4, 4) == section_type
}

/// Reports whether the bytes of a section are in the file and are whole records.
fn has_whole(bytes: &[u8], index: u64, size: u64) -> bool {
    has_bytes(bytes, index) && field(bytes, index, 32, 8).checked_rem(size) == Some(0)
}

/// Checks the rule on section headers and section names.
fn has_sections(bytes: &[u8]) -> bool {
    let table = u128::from(number(bytes, 40, 8));
    if table == 0 {
        return true;
    }
    if number(bytes, 58, 2) != 64 || number(bytes, 60, 2) == 0 && !lies_in(bytes, table, 64) {
        return false;
    }
    let size = u128::from(count(bytes)).saturating_mul(64);
    if !lies_in(bytes, table, size) {
        return false;
    }
    let names = match number(bytes, 62, 2) {
        0xffff => field(bytes, 0, 40, 4),
        names => names,
    };
    count(bytes) == 0 || names == 0 || names < count(bytes) && has_bytes(bytes, names)
}

/// Checks the rule on a symbol table or a table of section indexes.
fn has_symbols(bytes: &[u8], index: u64) -> bool {
    let link = field(bytes, index, 40, 4);
    if has_type(bytes, index, 2) {
        return has_whole(bytes, index, 24)
            && (link == 0 || has_type(bytes, link, 3) && has_bytes(bytes, link));
    }
    !has_type(bytes, index, 18) || !has_type(bytes, link, 2) || has_whole(bytes, index, 4)
}

/// Checks the rule on a section of versions.
fn has_versions(bytes: &[u8], index: u64) -> bool {
    match field(bytes, index, 4, 4) {
        0x6fff_ffff => has_whole(bytes, index, 2),
        0x6fff_fffd | 0x6fff_fffe => has_bytes(bytes, index),
        _ => true,
    }
}

/// Returns the first rule that the bytes break.
pub fn first_broken(bytes: &[u8]) -> Option<ElfError> {
    let front = [0x7f, b'E', b'L', b'F', 2, 1, 1];
    if bytes.len() < 64 || !bytes.starts_with(&front) {
        return Some(ElfError::Header);
    }
    if ![62, 183, 243, 258, 21].contains(&number(bytes, 18, 2)) {
        return Some(ElfError::Machine);
    }
    if !has_sections(bytes) {
        return Some(ElfError::SectionTable);
    }
    for index in 0..count(bytes) {
        if !has_symbols(bytes, index) {
            return Some(ElfError::SymbolTable);
        }
    }
    for index in 0..count(bytes) {
        if !has_versions(bytes, index) {
            return Some(ElfError::VersionTable);
        }
    }
    None
}
