//! The RELA record of ELFCLASS64 (gABI, Relocation).

ghost use Rattle.std.proofs.Common.{lit<};
ghost use Rattle.std.specs.Prelude.{◌≡◌, replicate};
ghost use Rattle.elf_format.specs.Class.{class64};

use elf_words::{Record, RelaFields, read_u64};

/// The RELA record of ELFCLASS64.
#[derive(Clone, Copy)]
pub struct Rela64 {
    /// The bytes of the record, as a file holds them.
    pub bytes: [u8; 24],
}

impl Record for Rela64 {
    ghost SIZE = { 24 };

    ghost has_bytes = { lit< tt };

    ghost contents = { λ r. r.bytes };

    const SIZE: usize = 24;

    fn zeroed() -> Self {
        Rela64 { bytes: [0; 24] }
    }

    fn read(bytes: &[u8]) -> Option<Self> {
        let bytes = bytes.first_chunk::<24>()?;
        Some(Rela64 { bytes: *bytes })
    }

    fn as_bytes(&self) -> &[u8] {
        &self.bytes
    }
}

impl Default for Rela64 {
    ghost is_default = { λ r. r.bytes ≡ replicate 24 0 };

    /// Returns the record of zero bytes.
    fn default() -> Self {
        Rela64::zeroed()
    }
}

impl RelaFields for Rela64 {
    ghost class = { class64 };

    fn r_offset(&self) -> u64 {
        read_u64(&self.bytes, 0)
    }

    fn r_info(&self) -> u64 {
        read_u64(&self.bytes, 8)
    }

    fn r_sym(&self) -> u32 {
        (self.r_info() / (1 << 32)) as u32
    }

    fn r_type(&self) -> u32 {
        (self.r_info() % (1 << 32)) as u32
    }

    fn r_addend(&self) -> i64 {
        read_u64(&self.bytes, 16).cast_signed()
    }
}
