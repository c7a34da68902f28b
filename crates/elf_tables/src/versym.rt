//! The version index of a symbol (GNU symbol versioning, Symbol Version Table).

ghost use Rattle.std.proofs.Common.{lit<};
ghost use Rattle.std.specs.Prelude.{◌≡◌, replicate, ◌%◌, ◌^◌, ◌≤◌, ◌↔◌, IsTrue};
ghost use Rattle.elf_format.specs.Bytes.{get};
ghost use Rattle.elf_format.specs.Table as fields;

use elf_words::{Record, read_u16};

/// The version index of a symbol.
#[derive(Clone, Copy)]
pub struct Versym {
    /// The bytes of the record, as a file holds them.
    pub bytes: [u8; 2],
}

impl Record for Versym {
    ghost SIZE = { fields.versym_size };

    ghost has_bytes = { lit< tt };

    ghost contents = { λ r. r.bytes };

    const SIZE: usize = 2;

    fn zeroed() -> Self {
        Versym { bytes: [0; 2] }
    }

    fn read(bytes: &[u8]) -> Option<Self> {
        let bytes = bytes.first_chunk::<2>()?;
        Some(Versym { bytes: *bytes })
    }

    fn as_bytes(&self) -> &[u8] {
        &self.bytes
    }
}

impl Default for Versym {
    ghost is_default = { λ r. r.bytes ≡ replicate 2 0 };

    /// Returns the record of zero bytes.
    fn default() -> Self {
        Versym::zeroed()
    }
}

impl Versym {
    /// Returns all 16 bits: the version index in the low 15 bits, the hidden bit in bit 15.
    pub fn vs_value(&self) -> u16
        ensures { result ≡ get fields.vs_value self.now.bytes }
    {
        read_u16(&self.bytes, 0)
    }

    /// Returns the low 15 bits: the version index. 0 is local, 1 is global.
    pub fn index(&self) -> u16
        ensures { result ≡ get fields.vs_value self.now.bytes % 2 ^ 15 }
    {
        self.vs_value() % 0x8000
    }

    /// Reports whether bit 15 is set: the version is hidden from references without a version.
    pub fn is_hidden(&self) -> bool
        ensures { IsTrue result ↔ (2 ^ 15 ≤ get fields.vs_value self.now.bytes) }
    {
        self.vs_value() >= 0x8000
    }
}
