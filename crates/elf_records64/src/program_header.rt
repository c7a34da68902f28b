//! The program header of ELFCLASS64 (gABI, Program Header).

ghost use Rattle.std.proofs.Common.{lit<};
ghost use Rattle.std.specs.Prelude.{◌≡◌, replicate};
ghost use Rattle.elf_format.specs.Class.{class64};

use elf_words::{ProgramHeaderFields, Record, read_u32, read_u64};

/// The program header of ELFCLASS64.
#[derive(Clone, Copy)]
pub struct ProgramHeader64 {
    /// The bytes of the record, as a file holds them.
    pub bytes: [u8; 56],
}

impl Record for ProgramHeader64 {
    ghost SIZE = { 56 };

    ghost has_bytes = { lit< tt };

    ghost contents = { λ r. r.bytes };

    const SIZE: usize = 56;

    fn zeroed() -> Self {
        ProgramHeader64 { bytes: [0; 56] }
    }

    fn read(bytes: &[u8]) -> Option<Self> {
        let bytes = bytes.first_chunk::<56>()?;
        Some(ProgramHeader64 { bytes: *bytes })
    }

    fn as_bytes(&self) -> &[u8] {
        &self.bytes
    }
}

impl Default for ProgramHeader64 {
    ghost is_default = { λ r. r.bytes ≡ replicate 56 0 };

    /// Returns the record of zero bytes.
    fn default() -> Self {
        ProgramHeader64::zeroed()
    }
}

impl ProgramHeaderFields for ProgramHeader64 {
    ghost class = { class64 };

    fn p_type(&self) -> u32 {
        read_u32(&self.bytes, 0)
    }

    fn p_flags(&self) -> u32 {
        read_u32(&self.bytes, 4)
    }

    fn p_offset(&self) -> u64 {
        read_u64(&self.bytes, 8)
    }

    fn p_vaddr(&self) -> u64 {
        read_u64(&self.bytes, 16)
    }

    fn p_paddr(&self) -> u64 {
        read_u64(&self.bytes, 24)
    }

    fn p_filesz(&self) -> u64 {
        read_u64(&self.bytes, 32)
    }

    fn p_memsz(&self) -> u64 {
        read_u64(&self.bytes, 40)
    }

    fn p_align(&self) -> u64 {
        read_u64(&self.bytes, 48)
    }
}
