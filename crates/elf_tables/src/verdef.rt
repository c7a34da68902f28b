//! Version definitions and their names (GNU symbol versioning, Version Definitions). An offset of another record
//! is in bytes from the start of the record that holds it.

ghost use Rattle.std.proofs.Common.{lit<};
ghost use Rattle.std.specs.Prelude.{◌≡◌, replicate};
ghost use Rattle.elf_format.specs.Bytes.{get};
ghost use Rattle.elf_format.specs.Table as fields;

use elf_words::{Record, read_u16, read_u32};

/// A version definition (Verdef).
#[derive(Clone, Copy)]
pub struct Verdef {
    /// The bytes of the record, as a file holds them.
    pub bytes: [u8; 20],
}

impl Record for Verdef {
    ghost SIZE = { fields.verdef_size };

    ghost has_bytes = { lit< tt };

    ghost contents = { λ r. r.bytes };

    const SIZE: usize = 20;

    fn zeroed() -> Self {
        Verdef { bytes: [0; 20] }
    }

    fn read(bytes: &[u8]) -> Option<Self> {
        let bytes = bytes.first_chunk::<20>()?;
        Some(Verdef { bytes: *bytes })
    }

    fn as_bytes(&self) -> &[u8] {
        &self.bytes
    }
}

impl Default for Verdef {
    ghost is_default = { λ r. r.bytes ≡ replicate 20 0 };

    /// Returns the record of zero bytes.
    fn default() -> Self {
        Verdef::zeroed()
    }
}

impl Verdef {
    /// Returns the version of the format: 1.
    pub fn vd_version(&self) -> u16
        ensures { result ≡ get fields.vd_version self.now.bytes }
    {
        read_u16(&self.bytes, 0)
    }

    /// Returns `vd_flags`: 1 is the version of the file itself, 2 is weak.
    pub fn vd_flags(&self) -> u16
        ensures { result ≡ get fields.vd_flags self.now.bytes }
    {
        read_u16(&self.bytes, 2)
    }

    /// Returns the version index that symbols refer to.
    pub fn vd_ndx(&self) -> u16
        ensures { result ≡ get fields.vd_ndx self.now.bytes }
    {
        read_u16(&self.bytes, 4)
    }

    /// Returns `vd_cnt`, the number of names: its own first, then those of its predecessors.
    pub fn vd_cnt(&self) -> u16
        ensures { result ≡ get fields.vd_cnt self.now.bytes }
    {
        read_u16(&self.bytes, 6)
    }

    /// Returns the hash of the name.
    pub fn vd_hash(&self) -> u32
        ensures { result ≡ get fields.vd_hash self.now.bytes }
    {
        read_u32(&self.bytes, 8)
    }

    /// Returns `vd_aux`, the offset of the first Verdaux from the start of this record.
    pub fn vd_aux(&self) -> u32
        ensures { result ≡ get fields.vd_aux self.now.bytes }
    {
        read_u32(&self.bytes, 12)
    }

    /// Returns `vd_next`, the offset of the next Verdef from the start of this record, 0 for none.
    pub fn vd_next(&self) -> u32
        ensures { result ≡ get fields.vd_next self.now.bytes }
    {
        read_u32(&self.bytes, 16)
    }
}

/// A name of a version definition (Verdaux).
#[derive(Clone, Copy)]
pub struct Verdaux {
    /// The bytes of the record, as a file holds them.
    pub bytes: [u8; 8],
}

impl Record for Verdaux {
    ghost SIZE = { fields.verdaux_size };

    ghost has_bytes = { lit< tt };

    ghost contents = { λ r. r.bytes };

    const SIZE: usize = 8;

    fn zeroed() -> Self {
        Verdaux { bytes: [0; 8] }
    }

    fn read(bytes: &[u8]) -> Option<Self> {
        let bytes = bytes.first_chunk::<8>()?;
        Some(Verdaux { bytes: *bytes })
    }

    fn as_bytes(&self) -> &[u8] {
        &self.bytes
    }
}

impl Default for Verdaux {
    ghost is_default = { λ r. r.bytes ≡ replicate 8 0 };

    /// Returns the record of zero bytes.
    fn default() -> Self {
        Verdaux::zeroed()
    }
}

impl Verdaux {
    /// Returns the offset of the name in the string table.
    pub fn vda_name(&self) -> u32
        ensures { result ≡ get fields.vda_name self.now.bytes }
    {
        read_u32(&self.bytes, 0)
    }

    /// Returns `vda_next`, the offset of the next Verdaux from the start of this record, 0 for none.
    pub fn vda_next(&self) -> u32
        ensures { result ≡ get fields.vda_next self.now.bytes }
    {
        read_u32(&self.bytes, 4)
    }
}
