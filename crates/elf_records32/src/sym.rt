//! The symbol table entry of ELFCLASS32 (gABI, Symbol Table).

ghost use Rattle.std.proofs.Common.{lit<};
ghost use Rattle.std.specs.Prelude.{◌≡◌, replicate};
ghost use Rattle.elf_format.specs.Class.{class32};

use elf_words::{Record, SymFields, read_u8, read_u16, read_u32};

/// The symbol table entry of ELFCLASS32.
#[derive(Clone, Copy)]
pub struct Sym32 {
    /// The bytes of the record, as a file holds them.
    pub bytes: [u8; 16],
}

impl Record for Sym32 {
    ghost SIZE = { 16 };

    ghost has_bytes = { lit< tt };

    ghost contents = { λ r. r.bytes };

    const SIZE: usize = 16;

    fn zeroed() -> Self {
        Sym32 { bytes: [0; 16] }
    }

    fn read(bytes: &[u8]) -> Option<Self> {
        let bytes = bytes.first_chunk::<16>()?;
        Some(Sym32 { bytes: *bytes })
    }

    fn as_bytes(&self) -> &[u8] {
        &self.bytes
    }
}

impl Default for Sym32 {
    ghost is_default = { λ r. r.bytes ≡ replicate 16 0 };

    /// Returns the record of zero bytes.
    fn default() -> Self {
        Sym32::zeroed()
    }
}

impl SymFields for Sym32 {
    ghost class = { class32 };

    fn st_name(&self) -> u32 {
        read_u32(&self.bytes, 0)
    }

    fn st_info(&self) -> u8 {
        read_u8(&self.bytes, 12)
    }

    fn st_other(&self) -> u8 {
        read_u8(&self.bytes, 13)
    }

    fn st_shndx(&self) -> u16 {
        read_u16(&self.bytes, 14)
    }

    fn st_value(&self) -> u64 {
        u64::from(read_u32(&self.bytes, 4))
    }

    fn st_size(&self) -> u64 {
        u64::from(read_u32(&self.bytes, 8))
    }
}
