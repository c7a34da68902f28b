//! The symbol table entry of ELFCLASS64 (gABI, Symbol Table).

ghost use Rattle.std.proofs.Common.{lit<};
ghost use Rattle.std.specs.Prelude.{◌≡◌, replicate};
ghost use Rattle.elf_format.specs.Class.{class64};

use elf_words::{Record, SymFields, read_u8, read_u16, read_u32, read_u64};

/// The symbol table entry of ELFCLASS64.
#[derive(Clone, Copy)]
pub struct Sym64 {
    /// The bytes of the record, as a file holds them.
    pub bytes: [u8; 24],
}

impl Record for Sym64 {
    ghost SIZE = { 24 };

    ghost has_bytes = { lit< tt };

    ghost contents = { λ r. r.bytes };

    const SIZE: usize = 24;

    fn zeroed() -> Self {
        Sym64 { bytes: [0; 24] }
    }

    fn read(bytes: &[u8]) -> Option<Self> {
        let bytes = bytes.first_chunk::<24>()?;
        Some(Sym64 { bytes: *bytes })
    }

    fn as_bytes(&self) -> &[u8] {
        &self.bytes
    }
}

impl Default for Sym64 {
    ghost is_default = { λ r. r.bytes ≡ replicate 24 0 };

    /// Returns the record of zero bytes.
    fn default() -> Self {
        Sym64::zeroed()
    }
}

impl SymFields for Sym64 {
    ghost class = { class64 };

    fn st_name(&self) -> u32 {
        read_u32(&self.bytes, 0)
    }

    fn st_info(&self) -> u8 {
        read_u8(&self.bytes, 4)
    }

    fn st_other(&self) -> u8 {
        read_u8(&self.bytes, 5)
    }

    fn st_shndx(&self) -> u16 {
        read_u16(&self.bytes, 6)
    }

    fn st_value(&self) -> u64 {
        read_u64(&self.bytes, 8)
    }

    fn st_size(&self) -> u64 {
        read_u64(&self.bytes, 16)
    }
}
