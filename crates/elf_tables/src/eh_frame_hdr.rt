//! The header and the search table of `.eh_frame_hdr` (Linux Standard Base, The .eh_frame_hdr Section), in the
//! encodings that linkers write: four bytes each, signed where they are distances.

ghost use Rattle.std.proofs.Common.{lit<};
ghost use Rattle.std.specs.Prelude.{◌≡◌, replicate};
ghost use Rattle.std.specs.Int.{w32, cast_signed};
ghost use Rattle.elf_format.specs.Bytes.{get};
ghost use Rattle.elf_format.specs.Table as fields;

use elf_words::{Record, read_u8, read_u32};

/// The header of `.eh_frame_hdr`.
#[derive(Clone, Copy)]
pub struct EhFrameHdr {
    /// The bytes of the record, as a file holds them.
    pub bytes: [u8; 12],
}

impl Record for EhFrameHdr {
    ghost SIZE = { fields.eh_frame_hdr_size };

    ghost has_bytes = { lit< tt };

    ghost contents = { λ r. r.bytes };

    const SIZE: usize = 12;

    fn zeroed() -> Self {
        EhFrameHdr { bytes: [0; 12] }
    }

    fn read(bytes: &[u8]) -> Option<Self> {
        let bytes = bytes.first_chunk::<12>()?;
        Some(EhFrameHdr { bytes: *bytes })
    }

    fn as_bytes(&self) -> &[u8] {
        &self.bytes
    }
}

impl Default for EhFrameHdr {
    ghost is_default = { λ r. r.bytes ≡ replicate 12 0 };

    /// Returns the record of zero bytes.
    fn default() -> Self {
        EhFrameHdr::zeroed()
    }
}

impl EhFrameHdr {
    /// Returns the version of the format: 1.
    pub fn version(&self) -> u8
        ensures { result ≡ get fields.eh_version self.now.bytes }
    {
        read_u8(&self.bytes, 0)
    }

    /// Returns the encoding of the pointer to `.eh_frame`.
    pub fn frame_pointer_encoding(&self) -> u8
        ensures { result ≡ get fields.eh_frame_pointer_encoding self.now.bytes }
    {
        read_u8(&self.bytes, 1)
    }

    /// Returns the encoding of the number of entries.
    pub fn count_encoding(&self) -> u8
        ensures { result ≡ get fields.eh_count_encoding self.now.bytes }
    {
        read_u8(&self.bytes, 2)
    }

    /// Returns the encoding of the entries.
    pub fn table_encoding(&self) -> u8
        ensures { result ≡ get fields.eh_table_encoding self.now.bytes }
    {
        read_u8(&self.bytes, 3)
    }

    /// Returns the address of `.eh_frame`, as a signed distance in bytes from this field.
    pub fn frame_pointer(&self) -> i32
        ensures { result ≡ cast_signed w32 (get fields.eh_frame_pointer self.now.bytes) }
    {
        read_u32(&self.bytes, 4).cast_signed()
    }

    /// Returns the number of entries.
    pub fn entry_count(&self) -> u32
        ensures { result ≡ get fields.eh_entry_count self.now.bytes }
    {
        read_u32(&self.bytes, 8)
    }
}

/// An entry of the search table of `.eh_frame_hdr`.
#[derive(Clone, Copy)]
pub struct EhFrameHdrEntry {
    /// The bytes of the record, as a file holds them.
    pub bytes: [u8; 8],
}

impl Record for EhFrameHdrEntry {
    ghost SIZE = { fields.eh_frame_hdr_entry_size };

    ghost has_bytes = { lit< tt };

    ghost contents = { λ r. r.bytes };

    const SIZE: usize = 8;

    fn zeroed() -> Self {
        EhFrameHdrEntry { bytes: [0; 8] }
    }

    fn read(bytes: &[u8]) -> Option<Self> {
        let bytes = bytes.first_chunk::<8>()?;
        Some(EhFrameHdrEntry { bytes: *bytes })
    }

    fn as_bytes(&self) -> &[u8] {
        &self.bytes
    }
}

impl Default for EhFrameHdrEntry {
    ghost is_default = { λ r. r.bytes ≡ replicate 8 0 };

    /// Returns the record of zero bytes.
    fn default() -> Self {
        EhFrameHdrEntry::zeroed()
    }
}

impl EhFrameHdrEntry {
    /// Returns the address of the code, as a signed distance in bytes from the start of `.eh_frame_hdr`.
    pub fn frame_ptr(&self) -> i32
        ensures { result ≡ cast_signed w32 (get fields.ehe_frame_ptr self.now.bytes) }
    {
        read_u32(&self.bytes, 0).cast_signed()
    }

    /// Returns the address of the FDE, as a signed distance in bytes from the start of `.eh_frame_hdr`.
    pub fn frame_info_ptr(&self) -> i32
        ensures { result ≡ cast_signed w32 (get fields.ehe_frame_info_ptr self.now.bytes) }
    {
        read_u32(&self.bytes, 4).cast_signed()
    }
}
