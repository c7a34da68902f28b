//! The compression header of ELFCLASS64 (gABI, Section Compression).

ghost use Rattle.std.proofs.Common.{lit<};
ghost use Rattle.std.specs.Prelude.{◌≡◌, replicate};
ghost use Rattle.elf_format.specs.Class.{class64};

use elf_words::{CompressionFields, Record, read_u32, read_u64};

/// The compression header of ELFCLASS64.
#[derive(Clone, Copy)]
pub struct CompressionHeader64 {
    /// The bytes of the record, as a file holds them.
    pub bytes: [u8; 24],
}

impl Record for CompressionHeader64 {
    ghost SIZE = { 24 };

    ghost has_bytes = { lit< tt };

    ghost contents = { λ r. r.bytes };

    const SIZE: usize = 24;

    fn zeroed() -> Self {
        CompressionHeader64 { bytes: [0; 24] }
    }

    fn read(bytes: &[u8]) -> Option<Self> {
        let bytes = bytes.first_chunk::<24>()?;
        Some(CompressionHeader64 { bytes: *bytes })
    }

    fn as_bytes(&self) -> &[u8] {
        &self.bytes
    }
}

impl Default for CompressionHeader64 {
    ghost is_default = { λ r. r.bytes ≡ replicate 24 0 };

    /// Returns the record of zero bytes.
    fn default() -> Self {
        CompressionHeader64::zeroed()
    }
}

impl CompressionFields for CompressionHeader64 {
    ghost class = { class64 };

    fn ch_type(&self) -> u32 {
        read_u32(&self.bytes, 0)
    }

    fn ch_size(&self) -> u64 {
        read_u64(&self.bytes, 8)
    }

    fn ch_addralign(&self) -> u64 {
        read_u64(&self.bytes, 16)
    }
}
