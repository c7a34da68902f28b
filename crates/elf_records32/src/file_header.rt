//! The file header of ELFCLASS32 (gABI, ELF Header).

ghost use Rattle.std.proofs.Common.{lit<};
ghost use Rattle.std.specs.Prelude.{◌≡◌, replicate};
ghost use Rattle.elf_format.specs.Class.{class32};

use elf_words::{FileHeaderFields, Record, read_u16, read_u32};

/// The file header of ELFCLASS32.
#[derive(Clone, Copy)]
pub struct FileHeader32 {
    /// The bytes of the record, as a file holds them.
    pub bytes: [u8; 52],
}

impl Record for FileHeader32 {
    ghost SIZE = { 52 };

    ghost has_bytes = { lit< tt };

    ghost contents = { λ r. r.bytes };

    const SIZE: usize = 52;

    fn zeroed() -> Self {
        FileHeader32 { bytes: [0; 52] }
    }

    fn read(bytes: &[u8]) -> Option<Self> {
        let bytes = bytes.first_chunk::<52>()?;
        Some(FileHeader32 { bytes: *bytes })
    }

    fn as_bytes(&self) -> &[u8] {
        &self.bytes
    }
}

impl Default for FileHeader32 {
    ghost is_default = { λ r. r.bytes ≡ replicate 52 0 };

    /// Returns the record of zero bytes.
    fn default() -> Self {
        FileHeader32::zeroed()
    }
}

impl FileHeaderFields for FileHeader32 {
    ghost class = { class32 };

    fn e_ident(&self) -> [u8; 16] {
        *self.bytes.first_chunk::<16>().unwrap()
    }

    fn e_type(&self) -> u16 {
        read_u16(&self.bytes, 16)
    }

    fn e_machine(&self) -> u16 {
        read_u16(&self.bytes, 18)
    }

    fn e_version(&self) -> u32 {
        read_u32(&self.bytes, 20)
    }

    fn e_entry(&self) -> u64 {
        u64::from(read_u32(&self.bytes, 24))
    }

    fn e_phoff(&self) -> u64 {
        u64::from(read_u32(&self.bytes, 28))
    }

    fn e_shoff(&self) -> u64 {
        u64::from(read_u32(&self.bytes, 32))
    }

    fn e_flags(&self) -> u32 {
        read_u32(&self.bytes, 36)
    }

    fn e_ehsize(&self) -> u16 {
        read_u16(&self.bytes, 40)
    }

    fn e_phentsize(&self) -> u16 {
        read_u16(&self.bytes, 42)
    }

    fn e_phnum(&self) -> u16 {
        read_u16(&self.bytes, 44)
    }

    fn e_shentsize(&self) -> u16 {
        read_u16(&self.bytes, 46)
    }

    fn e_shnum(&self) -> u16 {
        read_u16(&self.bytes, 48)
    }

    fn e_shstrndx(&self) -> u16 {
        read_u16(&self.bytes, 50)
    }
}
