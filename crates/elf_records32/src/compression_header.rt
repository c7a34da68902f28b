//! The compression header of ELFCLASS32 (gABI, Section Compression).

ghost use Rattle.std.proofs.Common.{lit<};
ghost use Rattle.std.specs.Prelude.{◌≡◌, replicate};
ghost use Rattle.elf_format.specs.Class.{class32};

use elf_words::{CompressionFields, Record, read_u32};

/// The compression header of ELFCLASS32.
#[derive(Clone, Copy)]
pub struct CompressionHeader32 {
    /// The bytes of the record, as a file holds them.
    pub bytes: [u8; 12],
}

impl Record for CompressionHeader32 {
    ghost SIZE = { 12 };

    ghost has_bytes = { lit< tt };

    ghost contents = { λ r. r.bytes };

    const SIZE: usize = 12;

    fn zeroed() -> Self {
        CompressionHeader32 { bytes: [0; 12] }
    }

    fn read(bytes: &[u8]) -> Option<Self> {
        let bytes = bytes.first_chunk::<12>()?;
        Some(CompressionHeader32 { bytes: *bytes })
    }

    fn as_bytes(&self) -> &[u8] {
        &self.bytes
    }
}

impl Default for CompressionHeader32 {
    ghost is_default = { λ r. r.bytes ≡ replicate 12 0 };

    /// Returns the record of zero bytes.
    fn default() -> Self {
        CompressionHeader32::zeroed()
    }
}

impl CompressionFields for CompressionHeader32 {
    ghost class = { class32 };

    fn ch_type(&self) -> u32 {
        read_u32(&self.bytes, 0)
    }

    fn ch_size(&self) -> u64 {
        u64::from(read_u32(&self.bytes, 4))
    }

    fn ch_addralign(&self) -> u64 {
        u64::from(read_u32(&self.bytes, 8))
    }
}
