//! The entry of a table of relative relocations of ELFCLASS32 (gABI, Relocation, RELR).

ghost use Rattle.std.proofs.Common.{lit<};
ghost use Rattle.std.specs.Prelude.{◌≡◌, replicate};
ghost use Rattle.elf_format.specs.Class.{class32};

use elf_words::{Record, RelrFields, read_u32};

/// The entry of a table of relative relocations of ELFCLASS32.
#[derive(Clone, Copy)]
pub struct Relr32 {
    /// The bytes of the record, as a file holds them.
    pub bytes: [u8; 4],
}

impl Record for Relr32 {
    ghost SIZE = { 4 };

    ghost has_bytes = { lit< tt };

    ghost contents = { λ r. r.bytes };

    const SIZE: usize = 4;

    fn zeroed() -> Self {
        Relr32 { bytes: [0; 4] }
    }

    fn read(bytes: &[u8]) -> Option<Self> {
        let bytes = bytes.first_chunk::<4>()?;
        Some(Relr32 { bytes: *bytes })
    }

    fn as_bytes(&self) -> &[u8] {
        &self.bytes
    }
}

impl Default for Relr32 {
    ghost is_default = { λ r. r.bytes ≡ replicate 4 0 };

    /// Returns the record of zero bytes.
    fn default() -> Self {
        Relr32::zeroed()
    }
}

impl RelrFields for Relr32 {
    ghost class = { class32 };

    fn r_value(&self) -> u64 {
        u64::from(read_u32(&self.bytes, 0))
    }
}
