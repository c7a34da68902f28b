//! The entry of a table of relative relocations of ELFCLASS64 (gABI, Relocation, RELR).

ghost use Rattle.std.proofs.Common.{lit<};
ghost use Rattle.std.specs.Prelude.{◌≡◌, replicate};
ghost use Rattle.elf_format.specs.Class.{class64};

use elf_words::{Record, RelrFields, read_u64};

/// The entry of a table of relative relocations of ELFCLASS64.
#[derive(Clone, Copy)]
pub struct Relr64 {
    /// The bytes of the record, as a file holds them.
    pub bytes: [u8; 8],
}

impl Record for Relr64 {
    ghost SIZE = { 8 };

    ghost has_bytes = { lit< tt };

    ghost contents = { λ r. r.bytes };

    const SIZE: usize = 8;

    fn zeroed() -> Self {
        Relr64 { bytes: [0; 8] }
    }

    fn read(bytes: &[u8]) -> Option<Self> {
        let bytes = bytes.first_chunk::<8>()?;
        Some(Relr64 { bytes: *bytes })
    }

    fn as_bytes(&self) -> &[u8] {
        &self.bytes
    }
}

impl Default for Relr64 {
    ghost is_default = { λ r. r.bytes ≡ replicate 8 0 };

    /// Returns the record of zero bytes.
    fn default() -> Self {
        Relr64::zeroed()
    }
}

impl RelrFields for Relr64 {
    ghost class = { class64 };

    fn r_value(&self) -> u64 {
        read_u64(&self.bytes, 0)
    }
}
