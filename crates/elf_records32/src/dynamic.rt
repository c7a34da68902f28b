//! The entry of the dynamic section of ELFCLASS32 (gABI, Dynamic Section).

ghost use Rattle.std.proofs.Common.{lit<};
ghost use Rattle.std.specs.Prelude.{◌≡◌, replicate};
ghost use Rattle.elf_format.specs.Class.{class32};

use elf_words::{DynFields, Record, read_u32};

/// The entry of the dynamic section of ELFCLASS32.
#[derive(Clone, Copy)]
pub struct Dyn32 {
    /// The bytes of the record, as a file holds them.
    pub bytes: [u8; 8],
}

impl Record for Dyn32 {
    ghost SIZE = { 8 };

    ghost has_bytes = { lit< tt };

    ghost contents = { λ r. r.bytes };

    const SIZE: usize = 8;

    fn zeroed() -> Self {
        Dyn32 { bytes: [0; 8] }
    }

    fn read(bytes: &[u8]) -> Option<Self> {
        let bytes = bytes.first_chunk::<8>()?;
        Some(Dyn32 { bytes: *bytes })
    }

    fn as_bytes(&self) -> &[u8] {
        &self.bytes
    }
}

impl Default for Dyn32 {
    ghost is_default = { λ r. r.bytes ≡ replicate 8 0 };

    /// Returns the record of zero bytes.
    fn default() -> Self {
        Dyn32::zeroed()
    }
}

impl DynFields for Dyn32 {
    ghost class = { class32 };

    fn d_tag(&self) -> i64 {
        i64::from(read_u32(&self.bytes, 0).cast_signed())
    }

    fn d_value(&self) -> u64 {
        u64::from(read_u32(&self.bytes, 4))
    }
}
