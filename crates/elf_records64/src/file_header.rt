//! The file header of ELFCLASS64 (gABI, ELF Header).

ghost use Rattle.std.proofs.Common.{lit<};
ghost use Rattle.std.specs.Prelude.{◌≡◌, replicate};
ghost use Rattle.elf_format.specs.Class.{class64};

use elf_words::{FileHeaderFields, Record, read_u16, read_u32, read_u64};

/// The file header of ELFCLASS64.
#[derive(Clone, Copy)]
pub struct FileHeader64 {
    /// The bytes of the record, as a file holds them.
    pub bytes: [u8; 64],
}

impl Record for FileHeader64 {
    ghost SIZE = { 64 };

    ghost has_bytes = { lit< tt };

    ghost contents = { λ r. r.bytes };

    const SIZE: usize = 64;

    fn zeroed() -> Self {
        FileHeader64 { bytes: [0; 64] }
    }

    fn read(bytes: &[u8]) -> Option<Self> {
        let bytes = bytes.first_chunk::<64>()?;
        Some(FileHeader64 { bytes: *bytes })
    }

    fn as_bytes(&self) -> &[u8] {
        &self.bytes
    }
}

impl Default for FileHeader64 {
    ghost is_default = { λ r. r.bytes ≡ replicate 64 0 };

    /// Returns the record of zero bytes.
    fn default() -> Self {
        FileHeader64::zeroed()
    }
}

impl FileHeaderFields for FileHeader64 {
    ghost class = { class64 };

    fn e_ident(&self) -> [u8; 16] {
        *self.bytes.first_chunk::<16>().unwrap()
    }

    fn e_type(&self) -> u16 {
        read_u16(&self.bytes, 16)
    }

    fn e_machine(&self) -> u16 {
        read_u16(&self.bytes, 18)
    }

    fn e_version(&self) -> u32 {
        read_u32(&self.bytes, 20)
    }

    fn e_entry(&self) -> u64 {
        read_u64(&self.bytes, 24)
    }

    fn e_phoff(&self) -> u64 {
        read_u64(&self.bytes, 32)
    }

    fn e_shoff(&self) -> u64 {
        read_u64(&self.bytes, 40)
    }

    fn e_flags(&self) -> u32 {
        read_u32(&self.bytes, 48)
    }

    fn e_ehsize(&self) -> u16 {
        read_u16(&self.bytes, 52)
    }

    fn e_phentsize(&self) -> u16 {
        read_u16(&self.bytes, 54)
    }

    fn e_phnum(&self) -> u16 {
        read_u16(&self.bytes, 56)
    }

    fn e_shentsize(&self) -> u16 {
        read_u16(&self.bytes, 58)
    }

    fn e_shnum(&self) -> u16 {
        read_u16(&self.bytes, 60)
    }

    fn e_shstrndx(&self) -> u16 {
        read_u16(&self.bytes, 62)
    }
}
