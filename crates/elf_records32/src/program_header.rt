//! The program header of ELFCLASS32 (gABI, Program Header).

ghost use Rattle.std.proofs.Common.{lit<};
ghost use Rattle.std.specs.Prelude.{◌≡◌, replicate};
ghost use Rattle.elf_format.specs.Class.{class32};

use elf_words::{ProgramHeaderFields, Record, read_u32};

/// The program header of ELFCLASS32.
#[derive(Clone, Copy)]
pub struct ProgramHeader32 {
    /// The bytes of the record, as a file holds them.
    pub bytes: [u8; 32],
}

impl Record for ProgramHeader32 {
    ghost SIZE = { 32 };

    ghost has_bytes = { lit< tt };

    ghost contents = { λ r. r.bytes };

    const SIZE: usize = 32;

    fn zeroed() -> Self {
        ProgramHeader32 { bytes: [0; 32] }
    }

    fn read(bytes: &[u8]) -> Option<Self> {
        let bytes = bytes.first_chunk::<32>()?;
        Some(ProgramHeader32 { bytes: *bytes })
    }

    fn as_bytes(&self) -> &[u8] {
        &self.bytes
    }
}

impl Default for ProgramHeader32 {
    ghost is_default = { λ r. r.bytes ≡ replicate 32 0 };

    /// Returns the record of zero bytes.
    fn default() -> Self {
        ProgramHeader32::zeroed()
    }
}

impl ProgramHeaderFields for ProgramHeader32 {
    ghost class = { class32 };

    fn p_type(&self) -> u32 {
        read_u32(&self.bytes, 0)
    }

    fn p_flags(&self) -> u32 {
        read_u32(&self.bytes, 24)
    }

    fn p_offset(&self) -> u64 {
        u64::from(read_u32(&self.bytes, 4))
    }

    fn p_vaddr(&self) -> u64 {
        u64::from(read_u32(&self.bytes, 8))
    }

    fn p_paddr(&self) -> u64 {
        u64::from(read_u32(&self.bytes, 12))
    }

    fn p_filesz(&self) -> u64 {
        u64::from(read_u32(&self.bytes, 16))
    }

    fn p_memsz(&self) -> u64 {
        u64::from(read_u32(&self.bytes, 20))
    }

    fn p_align(&self) -> u64 {
        u64::from(read_u32(&self.bytes, 28))
    }
}
