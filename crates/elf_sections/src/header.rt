//! The rule on a file's header (gABI, ELF Header and ELF Identification): a whole header of the class that
//! begins with the ELF magic, the class, little-endian data and version 1.

ghost use Rattle.std.specs.Prelude.{◌≡◌, true, false, MatchOption};
ghost use Rattle.elf_format.specs.Section.{file_header};
ghost use Rattle.elf_format.specs.Fault.{has_header, identification};

use elf_words::{ElfClass, FileHeaderFields, Record};

/// Returns the file header, or None where the bytes are shorter than one or its identification is another.
#[tactic(auto, unfolding(elf_format::specs::Fault::has_header))]
pub fn read_header<C: ElfClass>(bytes: &[u8]) -> Option<C::FileHeader>
    ensures { MatchOption result (has_header C.class bytes.now ≡ false) (λ header. (has_header C.class bytes.now ≡ true) × (C.FileHeader.contents header ≡ file_header C.class bytes.now)) }
{
    let header = C::FileHeader::read(bytes)?;
    if bytes.len() < 7 || bytes[..7] != [0x7f, b'E', b'L', b'F', C::CLASS_BYTE, 1, 1] {
        return None;
    }
    Some(header)
}
