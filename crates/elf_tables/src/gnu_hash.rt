//! The header of a GNU hash table of symbols (the section `.gnu.hash` of the GNU tools).

ghost use Rattle.std.proofs.Common.{lit<};
ghost use Rattle.std.specs.Prelude.{◌≡◌, replicate};
ghost use Rattle.elf_format.specs.Bytes.{get};
ghost use Rattle.elf_format.specs.Table as fields;

use elf_words::{Record, read_u32};

/// The header of a GNU hash table.
#[derive(Clone, Copy)]
pub struct GnuHashHeader {
    /// The bytes of the record, as a file holds them.
    pub bytes: [u8; 16],
}

impl Record for GnuHashHeader {
    ghost SIZE = { fields.gnu_hash_header_size };

    ghost has_bytes = { lit< tt };

    ghost contents = { λ r. r.bytes };

    const SIZE: usize = 16;

    fn zeroed() -> Self {
        GnuHashHeader { bytes: [0; 16] }
    }

    fn read(bytes: &[u8]) -> Option<Self> {
        let bytes = bytes.first_chunk::<16>()?;
        Some(GnuHashHeader { bytes: *bytes })
    }

    fn as_bytes(&self) -> &[u8] {
        &self.bytes
    }
}

impl Default for GnuHashHeader {
    ghost is_default = { λ r. r.bytes ≡ replicate 16 0 };

    /// Returns the record of zero bytes.
    fn default() -> Self {
        GnuHashHeader::zeroed()
    }
}

impl GnuHashHeader {
    /// Returns the number of buckets.
    pub fn bucket_count(&self) -> u32
        ensures { result ≡ get fields.gh_bucket_count self.now.bytes }
    {
        read_u32(&self.bytes, 0)
    }

    /// Returns the index of the first symbol in the table.
    pub fn symbol_base(&self) -> u32
        ensures { result ≡ get fields.gh_symbol_base self.now.bytes }
    {
        read_u32(&self.bytes, 4)
    }

    /// Returns the number of words of the Bloom filter.
    pub fn bloom_count(&self) -> u32
        ensures { result ≡ get fields.gh_bloom_count self.now.bytes }
    {
        read_u32(&self.bytes, 8)
    }

    /// Returns the shift of a hash for its second bit in the Bloom filter.
    pub fn bloom_shift(&self) -> u32
        ensures { result ≡ get fields.gh_bloom_shift self.now.bytes }
    {
        read_u32(&self.bytes, 12)
    }
}
