//! The entry of the dynamic section of ELFCLASS64 (gABI, Dynamic Section).

ghost use Rattle.std.proofs.Common.{lit<};
ghost use Rattle.std.specs.Prelude.{◌≡◌, replicate};
ghost use Rattle.elf_format.specs.Class.{class64};

use elf_words::{DynFields, Record, read_u64};

/// The entry of the dynamic section of ELFCLASS64.
#[derive(Clone, Copy)]
pub struct Dyn64 {
    /// The bytes of the record, as a file holds them.
    pub bytes: [u8; 16],
}

impl Record for Dyn64 {
    ghost SIZE = { 16 };

    ghost has_bytes = { lit< tt };

    ghost contents = { λ r. r.bytes };

    const SIZE: usize = 16;

    fn zeroed() -> Self {
        Dyn64 { bytes: [0; 16] }
    }

    fn read(bytes: &[u8]) -> Option<Self> {
        let bytes = bytes.first_chunk::<16>()?;
        Some(Dyn64 { bytes: *bytes })
    }

    fn as_bytes(&self) -> &[u8] {
        &self.bytes
    }
}

impl Default for Dyn64 {
    ghost is_default = { λ r. r.bytes ≡ replicate 16 0 };

    /// Returns the record of zero bytes.
    fn default() -> Self {
        Dyn64::zeroed()
    }
}

impl DynFields for Dyn64 {
    ghost class = { class64 };

    fn d_tag(&self) -> i64 {
        read_u64(&self.bytes, 0).cast_signed()
    }

    fn d_value(&self) -> u64 {
        read_u64(&self.bytes, 8)
    }
}
