//! Program properties as a linker writes them (System V ABI, Linux Extensions, Program Property; AArch64
//! ELF, PAuth ABI).

ghost use Rattle.std.proofs.Common.{lit<};
ghost use Rattle.std.specs.Prelude.{◌≡◌, replicate};
ghost use Rattle.elf_format.specs.Bytes.{get};
ghost use Rattle.elf_format.specs.Table as fields;

use elf_words::{Record, read_u32, read_u64};

/// A program property of four bytes of data.
#[derive(Clone, Copy)]
pub struct NoteProperty {
    /// The bytes of the record, as a file holds them.
    pub bytes: [u8; 12],
}

impl Record for NoteProperty {
    ghost SIZE = { fields.note_property_size };

    ghost has_bytes = { lit< tt };

    ghost contents = { λ r. r.bytes };

    const SIZE: usize = 12;

    fn zeroed() -> Self {
        NoteProperty { bytes: [0; 12] }
    }

    fn read(bytes: &[u8]) -> Option<Self> {
        let bytes = bytes.first_chunk::<12>()?;
        Some(NoteProperty { bytes: *bytes })
    }

    fn as_bytes(&self) -> &[u8] {
        &self.bytes
    }
}

impl Default for NoteProperty {
    ghost is_default = { λ r. r.bytes ≡ replicate 12 0 };

    /// Returns the record of zero bytes.
    fn default() -> Self {
        NoteProperty::zeroed()
    }
}

impl NoteProperty {
    /// Returns `pr_type`, the type of the property.
    pub fn pr_type(&self) -> u32
        ensures { result ≡ get fields.pr_type self.now.bytes }
    {
        read_u32(&self.bytes, 0)
    }

    /// Returns `pr_datasz`, the size of the data in bytes.
    pub fn pr_datasz(&self) -> u32
        ensures { result ≡ get fields.pr_datasz self.now.bytes }
    {
        read_u32(&self.bytes, 4)
    }

    /// Returns the data.
    pub fn pr_data(&self) -> u32
        ensures { result ≡ get fields.pr_data self.now.bytes }
    {
        read_u32(&self.bytes, 8)
    }
}

/// The program property of AArch64 pointer authentication.
#[derive(Clone, Copy)]
pub struct AArch64PAuthProperty {
    /// The bytes of the record, as a file holds them.
    pub bytes: [u8; 24],
}

impl Record for AArch64PAuthProperty {
    ghost SIZE = { fields.pauth_property_size };

    ghost has_bytes = { lit< tt };

    ghost contents = { λ r. r.bytes };

    const SIZE: usize = 24;

    fn zeroed() -> Self {
        AArch64PAuthProperty { bytes: [0; 24] }
    }

    fn read(bytes: &[u8]) -> Option<Self> {
        let bytes = bytes.first_chunk::<24>()?;
        Some(AArch64PAuthProperty { bytes: *bytes })
    }

    fn as_bytes(&self) -> &[u8] {
        &self.bytes
    }
}

impl Default for AArch64PAuthProperty {
    ghost is_default = { λ r. r.bytes ≡ replicate 24 0 };

    /// Returns the record of zero bytes.
    fn default() -> Self {
        AArch64PAuthProperty::zeroed()
    }
}

impl AArch64PAuthProperty {
    /// Returns `pr_type`, the type of the property.
    pub fn pr_type(&self) -> u32
        ensures { result ≡ get fields.pr_type self.now.bytes }
    {
        read_u32(&self.bytes, 0)
    }

    /// Returns `pr_datasz`, the size of the data in bytes.
    pub fn pr_datasz(&self) -> u32
        ensures { result ≡ get fields.pr_datasz self.now.bytes }
    {
        read_u32(&self.bytes, 4)
    }

    /// Returns the platform.
    pub fn platform(&self) -> u64
        ensures { result ≡ get fields.pauth_platform self.now.bytes }
    {
        read_u64(&self.bytes, 8)
    }

    /// Returns the version of the ABI of the platform.
    pub fn version(&self) -> u64
        ensures { result ≡ get fields.pauth_version self.now.bytes }
    {
        read_u64(&self.bytes, 16)
    }
}
