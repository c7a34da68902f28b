//! The first two fields of an entry of `.eh_frame` (Linux Standard Base, The .eh_frame Section).

ghost use Rattle.std.proofs.Common.{lit<};
ghost use Rattle.std.specs.Prelude.{◌≡◌, replicate};
ghost use Rattle.elf_format.specs.Bytes.{get};
ghost use Rattle.elf_format.specs.Table as fields;

use elf_words::{Record, read_u32};

/// The first two fields of an entry of `.eh_frame`: a CIE or an FDE.
#[derive(Clone, Copy)]
pub struct EhFrameEntryPrefix {
    /// The bytes of the record, as a file holds them.
    pub bytes: [u8; 8],
}

impl Record for EhFrameEntryPrefix {
    ghost SIZE = { fields.eh_frame_entry_prefix_size };

    ghost has_bytes = { lit< tt };

    ghost contents = { λ r. r.bytes };

    const SIZE: usize = 8;

    fn zeroed() -> Self {
        EhFrameEntryPrefix { bytes: [0; 8] }
    }

    fn read(bytes: &[u8]) -> Option<Self> {
        let bytes = bytes.first_chunk::<8>()?;
        Some(EhFrameEntryPrefix { bytes: *bytes })
    }

    fn as_bytes(&self) -> &[u8] {
        &self.bytes
    }
}

impl Default for EhFrameEntryPrefix {
    ghost is_default = { λ r. r.bytes ≡ replicate 8 0 };

    /// Returns the record of zero bytes.
    fn default() -> Self {
        EhFrameEntryPrefix::zeroed()
    }
}

impl EhFrameEntryPrefix {
    /// Returns the number of bytes of the entry after this field. 0 ends the list.
    pub fn length(&self) -> u32
        ensures { result ≡ get fields.ehp_length self.now.bytes }
    {
        read_u32(&self.bytes, 0)
    }

    /// Returns 0 for a CIE; else the distance in bytes from the CIE to this field.
    pub fn cie_id(&self) -> u32
        ensures { result ≡ get fields.ehp_cie_id self.now.bytes }
    {
        read_u32(&self.bytes, 4)
    }
}
