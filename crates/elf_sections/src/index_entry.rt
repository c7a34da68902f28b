//! Words of sections that hold section indexes: those of type SHT_SYMTAB_SHNDX, which have the section index of a
//! symbol whose `st_shndx` is SHN_XINDEX, and those of type SHT_GROUP, which begin with flags (gABI, Symbol Table and
//! Section Groups).

ghost use Rattle.std.specs.Prelude.{◌≡◌};
ghost use Rattle.std.proofs.Common.{lit<};
ghost use Rattle.elf_format.specs.Bytes.{le};

use elf_words::{Record, read_u32};

/// A section index, or the flags of a group, in four bytes.
#[derive(Clone, Copy)]
pub struct IndexEntry {
    pub bytes: [u8; 4],
}

impl Record for IndexEntry {
    ghost SIZE = { 4 };

    ghost has_bytes = { lit< tt };

    ghost contents = { λ r. r.bytes };

    const SIZE: usize = 4;

    fn zeroed() -> Self {
        IndexEntry { bytes: [0; 4] }
    }

    fn read(bytes: &[u8]) -> Option<Self> {
        let bytes = bytes.first_chunk::<4>()?;
        Some(IndexEntry { bytes: *bytes })
    }

    fn as_bytes(&self) -> &[u8] {
        &self.bytes
    }
}

impl IndexEntry {
    /// Returns the number in the four bytes.
    pub fn word(&self) -> u32
        ensures { result ≡ le self.now.bytes 0 4 }
    {
        read_u32(&self.bytes, 0)
    }

    /// Returns the section index, 0 for none.
    pub fn index(&self) -> usize
        ensures { result ≡ le self.now.bytes 0 4 }
    {
        self.word() as usize
    }
}
