//! The section header of ELFCLASS64 (gABI, Sections).

ghost use Rattle.std.proofs.Common.{lit<};
ghost use Rattle.std.specs.Prelude.{◌≡◌, replicate};
ghost use Rattle.elf_format.specs.Class.{class64};

use elf_words::{Record, SectionHeaderFields, read_u32, read_u64};

/// The section header of ELFCLASS64.
#[derive(Clone, Copy)]
pub struct SectionHeader64 {
    /// The bytes of the record, as a file holds them.
    pub bytes: [u8; 64],
}

impl Record for SectionHeader64 {
    ghost SIZE = { 64 };

    ghost has_bytes = { lit< tt };

    ghost contents = { λ r. r.bytes };

    const SIZE: usize = 64;

    fn zeroed() -> Self {
        SectionHeader64 { bytes: [0; 64] }
    }

    fn read(bytes: &[u8]) -> Option<Self> {
        let bytes = bytes.first_chunk::<64>()?;
        Some(SectionHeader64 { bytes: *bytes })
    }

    fn as_bytes(&self) -> &[u8] {
        &self.bytes
    }
}

impl Default for SectionHeader64 {
    ghost is_default = { λ r. r.bytes ≡ replicate 64 0 };

    /// Returns the record of zero bytes.
    fn default() -> Self {
        SectionHeader64::zeroed()
    }
}

impl SectionHeaderFields for SectionHeader64 {
    ghost class = { class64 };

    fn sh_name(&self) -> u32 {
        read_u32(&self.bytes, 0)
    }

    fn sh_type(&self) -> u32 {
        read_u32(&self.bytes, 4)
    }

    fn sh_flags(&self) -> u64 {
        read_u64(&self.bytes, 8)
    }

    fn sh_addr(&self) -> u64 {
        read_u64(&self.bytes, 16)
    }

    fn sh_offset(&self) -> u64 {
        read_u64(&self.bytes, 24)
    }

    fn sh_size(&self) -> u64 {
        read_u64(&self.bytes, 32)
    }

    fn sh_link(&self) -> u32 {
        read_u32(&self.bytes, 40)
    }

    fn sh_info(&self) -> u32 {
        read_u32(&self.bytes, 44)
    }

    fn sh_addralign(&self) -> u64 {
        read_u64(&self.bytes, 48)
    }

    fn sh_entsize(&self) -> u64 {
        read_u64(&self.bytes, 56)
    }
}
