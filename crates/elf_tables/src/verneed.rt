//! Needed versions, by the files that define them (GNU symbol versioning, Version Requirements). An offset of
//! another record is in bytes from the start of the record that holds it.

ghost use Rattle.std.proofs.Common.{lit<};
ghost use Rattle.std.specs.Prelude.{◌≡◌, replicate};
ghost use Rattle.elf_format.specs.Bytes.{get};
ghost use Rattle.elf_format.specs.Table as fields;

use elf_words::{Record, read_u16, read_u32};

/// A file of which versions are needed (Verneed).
#[derive(Clone, Copy)]
pub struct Verneed {
    /// The bytes of the record, as a file holds them.
    pub bytes: [u8; 16],
}

impl Record for Verneed {
    ghost SIZE = { fields.verneed_size };

    ghost has_bytes = { lit< tt };

    ghost contents = { λ r. r.bytes };

    const SIZE: usize = 16;

    fn zeroed() -> Self {
        Verneed { bytes: [0; 16] }
    }

    fn read(bytes: &[u8]) -> Option<Self> {
        let bytes = bytes.first_chunk::<16>()?;
        Some(Verneed { bytes: *bytes })
    }

    fn as_bytes(&self) -> &[u8] {
        &self.bytes
    }
}

impl Default for Verneed {
    ghost is_default = { λ r. r.bytes ≡ replicate 16 0 };

    /// Returns the record of zero bytes.
    fn default() -> Self {
        Verneed::zeroed()
    }
}

impl Verneed {
    /// Returns the version of the format: 1.
    pub fn vn_version(&self) -> u16
        ensures { result ≡ get fields.vn_version self.now.bytes }
    {
        read_u16(&self.bytes, 0)
    }

    /// Returns `vn_cnt`, the number of needed versions of the file.
    pub fn vn_cnt(&self) -> u16
        ensures { result ≡ get fields.vn_cnt self.now.bytes }
    {
        read_u16(&self.bytes, 2)
    }

    /// Returns `vn_file`, the offset of the file name in the string table.
    pub fn vn_file(&self) -> u32
        ensures { result ≡ get fields.vn_file self.now.bytes }
    {
        read_u32(&self.bytes, 4)
    }

    /// Returns `vn_aux`, the offset of the first Vernaux from the start of this record.
    pub fn vn_aux(&self) -> u32
        ensures { result ≡ get fields.vn_aux self.now.bytes }
    {
        read_u32(&self.bytes, 8)
    }

    /// Returns `vn_next`, the offset of the next Verneed from the start of this record, 0 for none.
    pub fn vn_next(&self) -> u32
        ensures { result ≡ get fields.vn_next self.now.bytes }
    {
        read_u32(&self.bytes, 12)
    }
}

/// A needed version (Vernaux).
#[derive(Clone, Copy)]
pub struct Vernaux {
    /// The bytes of the record, as a file holds them.
    pub bytes: [u8; 16],
}

impl Record for Vernaux {
    ghost SIZE = { fields.vernaux_size };

    ghost has_bytes = { lit< tt };

    ghost contents = { λ r. r.bytes };

    const SIZE: usize = 16;

    fn zeroed() -> Self {
        Vernaux { bytes: [0; 16] }
    }

    fn read(bytes: &[u8]) -> Option<Self> {
        let bytes = bytes.first_chunk::<16>()?;
        Some(Vernaux { bytes: *bytes })
    }

    fn as_bytes(&self) -> &[u8] {
        &self.bytes
    }
}

impl Default for Vernaux {
    ghost is_default = { λ r. r.bytes ≡ replicate 16 0 };

    /// Returns the record of zero bytes.
    fn default() -> Self {
        Vernaux::zeroed()
    }
}

impl Vernaux {
    /// Returns the hash of the name.
    pub fn vna_hash(&self) -> u32
        ensures { result ≡ get fields.vna_hash self.now.bytes }
    {
        read_u32(&self.bytes, 0)
    }

    /// Returns `vna_flags`: 2 is weak.
    pub fn vna_flags(&self) -> u16
        ensures { result ≡ get fields.vna_flags self.now.bytes }
    {
        read_u16(&self.bytes, 4)
    }

    /// Returns the version index that symbols refer to.
    pub fn vna_other(&self) -> u16
        ensures { result ≡ get fields.vna_other self.now.bytes }
    {
        read_u16(&self.bytes, 6)
    }

    /// Returns the offset of the name in the string table.
    pub fn vna_name(&self) -> u32
        ensures { result ≡ get fields.vna_name self.now.bytes }
    {
        read_u32(&self.bytes, 8)
    }

    /// Returns `vna_next`, the offset of the next Vernaux from the start of this record, 0 for none.
    pub fn vna_next(&self) -> u32
        ensures { result ≡ get fields.vna_next self.now.bytes }
    {
        read_u32(&self.bytes, 12)
    }
}
