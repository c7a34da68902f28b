//! The header of a note (gABI, Note Section), which has the same form in both classes.

ghost use Rattle.std.proofs.Common.{lit<};
ghost use Rattle.std.specs.Prelude.{◌≡◌, replicate};
ghost use Rattle.elf_format.specs.Bytes.{get};
ghost use Rattle.elf_format.specs.Table as fields;

use crate::little_endian::read_u32;
use crate::record::Record;

/// The header of a note (gABI, Note Section).
#[derive(Clone, Copy)]
pub struct NoteHeader {
    pub bytes: [u8; 12],
}

impl Record for NoteHeader {
    ghost SIZE = { 12 };

    ghost has_bytes = { lit< tt };

    ghost contents = { λ r. r.bytes };

    const SIZE: usize = 12;

    fn zeroed() -> Self {
        NoteHeader { bytes: [0; 12] }
    }

    fn read(bytes: &[u8]) -> Option<Self> {
        let bytes = bytes.first_chunk::<12>()?;
        Some(NoteHeader { bytes: *bytes })
    }

    fn as_bytes(&self) -> &[u8] {
        &self.bytes
    }
}

impl Default for NoteHeader {
    ghost is_default = { λ r. r.bytes ≡ replicate 12 0 };

    /// Returns the header of zero bytes.
    fn default() -> Self {
        NoteHeader::zeroed()
    }
}

impl NoteHeader {
    /// Returns `n_namesz`, the size of the name in bytes.
    pub fn n_namesz(&self) -> u32
        ensures { result ≡ get fields.n_namesz self.now.bytes }
    {
        read_u32(&self.bytes, 0)
    }

    /// Returns `n_descsz`, the size of the descriptor in bytes.
    pub fn n_descsz(&self) -> u32
        ensures { result ≡ get fields.n_descsz self.now.bytes }
    {
        read_u32(&self.bytes, 4)
    }

    /// Returns `n_type`, the type of the descriptor. Its meaning depends on the name.
    pub fn n_type(&self) -> u32
        ensures { result ≡ get fields.n_type self.now.bytes }
    {
        read_u32(&self.bytes, 8)
    }
}
