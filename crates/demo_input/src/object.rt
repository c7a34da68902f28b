//! The objects: ELFCLASS64, relocatable, for x86-64 (System V gABI). Each has a compilation unit (DWARF 5, 7.5.1), a set
//! of two names (GDB manual, "Index Section Format"), 16 bytes of code, and the section names.

ghost use Rattle.std.specs.Prelude.{◌≡◌, ◌++◌, ◌<◌, OnOk};
ghost use Rattle.elf_format.specs.Example.{section_of};
ghost use Rattle.demo_input.specs.Object.{common_flag, last_digit, numbered_object, numbered_set, section_headers};

use elf_words::{SHF_ALLOC, SHF_EXECINSTR, SHT_PROGBITS, SHT_STRTAB};
use std::alloc::AllocError;

/// The file header (gABI, "ELF Header"): the section header table has five headers, at offset 181, and the last section
/// holds the section names.
const FILE_HEADER: [u8; 64] = *b"\
    \x7fELF\x02\x01\x01\0\0\0\0\0\0\0\0\0\x01\0\x3e\0\x01\0\0\0\0\0\0\0\0\0\0\0\
    \0\0\0\0\0\0\0\0\xb5\0\0\0\0\0\0\0\0\0\0\0\x40\0\0\0\0\0\x40\0\x05\0\x04\0";

/// A compilation unit of twelve bytes (DWARF 5, 7.5.1).
const UNIT: [u8; 12] = *b"\x08\0\0\0\0\0\0\0\0\0\0\0";

/// The set of the unit at offset 0: `n000`, a global function, and `common`, likewise.
const SET: [u8; 40] = *b"\
    \x24\0\0\0\x02\0\0\0\0\0\x0c\0\0\0\
    \x2a\0\0\0\x30n000\0\
    \x2a\0\0\0\x30common\0\
    \0\0\0\0";

/// The section names (gABI, "String Table").
const SECTION_NAMES: [u8; 49] = *b"\0.debug_info\0.debug_gnu_pubnames\0.text\0.shstrtab\0";

/// The flag byte of a function that other units see (GDB manual, "Index Section Format": symbol kind 3).
const GLOBAL_FUNCTION: u8 = 0x30;

/// The flag byte of a function of one unit: the same with the static bit.
const STATIC_FUNCTION: u8 = 0xb0;

/// Returns the character of the last decimal digit.
fn last_digit(number: usize) -> u8
    ensures { result ≡ last_digit number }
{
    b'0' + (number % 10) as u8
}

/// Returns the flag byte of `common`: a global function in an object with an even number, and a static one in the others.
fn common_flag(number: usize) -> u8
    ensures { result ≡ common_flag number }
{
    if number % 2 == 0 {
        GLOBAL_FUNCTION
    } else {
        STATIC_FUNCTION
    }
}

/// Returns the set of the object with a number.
fn name_set(number: usize) -> [u8; 40]
    ensures { result ≡ numbered_set number }
{
    let mut set = SET;
    set[20] = last_digit(number / 100);
    set[21] = last_digit(number / 10);
    set[22] = last_digit(number);
    set[28] = common_flag(number);
    set
}

/// Returns a section header (gABI, "Section Header"). `sh_addralign` is 1, and the other fields are 0.
fn section_header(name: u32, section_type: u32, flags: u64, offset: u64, size: u64) -> [u8; 64]
    ensures { result ≡ section_of name section_type flags offset size }
{
    let mut header = [0; 64];
    header[0..4].copy_from_slice(&name.to_le_bytes());
    header[4..8].copy_from_slice(&section_type.to_le_bytes());
    header[8..16].copy_from_slice(&flags.to_le_bytes());
    header[24..32].copy_from_slice(&offset.to_le_bytes());
    header[32..40].copy_from_slice(&size.to_le_bytes());
    header[48] = 1;
    header
}

/// Appends the section header table.
fn push_section_headers(buffer: &mut Vec<u8>) -> Result<(), AllocError>
    ensures { OnOk result (buffer.new.items ≡ buffer.old.items ++ section_headers) }
{
    let code = SHF_ALLOC | SHF_EXECINSTR;
    buffer.extend_from_slice(&[0; 64])?;
    buffer.extend_from_slice(&section_header(1, SHT_PROGBITS, 0, 64, 12))?;
    buffer.extend_from_slice(&section_header(13, SHT_PROGBITS, 0, 76, 40))?;
    buffer.extend_from_slice(&section_header(33, SHT_PROGBITS, code, 116, 16))?;
    buffer.extend_from_slice(&section_header(39, SHT_STRTAB, 0, 132, 49))?;
    Ok(())
}

/// Appends the object with a number.
pub(crate) fn push_object(buffer: &mut Vec<u8>, number: usize) -> Result<(), AllocError>
    ensures { OnOk result (buffer.new.items ≡ buffer.old.items ++ numbered_object number) }
{
    buffer.extend_from_slice(&FILE_HEADER)?;
    buffer.extend_from_slice(&UNIT)?;
    buffer.extend_from_slice(&name_set(number))?;
    buffer.extend_from_slice(&[0; 16])?;
    buffer.extend_from_slice(&SECTION_NAMES)?;
    push_section_headers(buffer)?;
    Ok(())
}
