//! The RELA record of ELFCLASS32 (gABI, Relocation).

ghost use Rattle.std.proofs.Common.{lit<};
ghost use Rattle.std.specs.Prelude.{◌≡◌, replicate};
ghost use Rattle.elf_format.specs.Class.{class32};

use elf_words::{Record, RelaFields, read_u32};

/// The RELA record of ELFCLASS32.
#[derive(Clone, Copy)]
pub struct Rela32 {
    /// The bytes of the record, as a file holds them.
    pub bytes: [u8; 12],
}

impl Record for Rela32 {
    ghost SIZE = { 12 };

    ghost has_bytes = { lit< tt };

    ghost contents = { λ r. r.bytes };

    const SIZE: usize = 12;

    fn zeroed() -> Self {
        Rela32 { bytes: [0; 12] }
    }

    fn read(bytes: &[u8]) -> Option<Self> {
        let bytes = bytes.first_chunk::<12>()?;
        Some(Rela32 { bytes: *bytes })
    }

    fn as_bytes(&self) -> &[u8] {
        &self.bytes
    }
}

impl Default for Rela32 {
    ghost is_default = { λ r. r.bytes ≡ replicate 12 0 };

    /// Returns the record of zero bytes.
    fn default() -> Self {
        Rela32::zeroed()
    }
}

impl RelaFields for Rela32 {
    ghost class = { class32 };

    fn r_offset(&self) -> u64 {
        u64::from(read_u32(&self.bytes, 0))
    }

    fn r_info(&self) -> u64 {
        u64::from(read_u32(&self.bytes, 4))
    }

    fn r_sym(&self) -> u32 {
        read_u32(&self.bytes, 4) / (1 << 8)
    }

    fn r_type(&self) -> u32 {
        read_u32(&self.bytes, 4) % (1 << 8)
    }

    fn r_addend(&self) -> i64 {
        i64::from(read_u32(&self.bytes, 8).cast_signed())
    }
}
