//! The section header of ELFCLASS32 (gABI, Sections).

ghost use Rattle.std.proofs.Common.{lit<};
ghost use Rattle.std.specs.Prelude.{◌≡◌, replicate};
ghost use Rattle.elf_format.specs.Class.{class32};

use elf_words::{Record, SectionHeaderFields, read_u32};

/// The section header of ELFCLASS32.
#[derive(Clone, Copy)]
pub struct SectionHeader32 {
    /// The bytes of the record, as a file holds them.
    pub bytes: [u8; 40],
}

impl Record for SectionHeader32 {
    ghost SIZE = { 40 };

    ghost has_bytes = { lit< tt };

    ghost contents = { λ r. r.bytes };

    const SIZE: usize = 40;

    fn zeroed() -> Self {
        SectionHeader32 { bytes: [0; 40] }
    }

    fn read(bytes: &[u8]) -> Option<Self> {
        let bytes = bytes.first_chunk::<40>()?;
        Some(SectionHeader32 { bytes: *bytes })
    }

    fn as_bytes(&self) -> &[u8] {
        &self.bytes
    }
}

impl Default for SectionHeader32 {
    ghost is_default = { λ r. r.bytes ≡ replicate 40 0 };

    /// Returns the record of zero bytes.
    fn default() -> Self {
        SectionHeader32::zeroed()
    }
}

impl SectionHeaderFields for SectionHeader32 {
    ghost class = { class32 };

    fn sh_name(&self) -> u32 {
        read_u32(&self.bytes, 0)
    }

    fn sh_type(&self) -> u32 {
        read_u32(&self.bytes, 4)
    }

    fn sh_flags(&self) -> u64 {
        u64::from(read_u32(&self.bytes, 8))
    }

    fn sh_addr(&self) -> u64 {
        u64::from(read_u32(&self.bytes, 12))
    }

    fn sh_offset(&self) -> u64 {
        u64::from(read_u32(&self.bytes, 16))
    }

    fn sh_size(&self) -> u64 {
        u64::from(read_u32(&self.bytes, 20))
    }

    fn sh_link(&self) -> u32 {
        read_u32(&self.bytes, 24)
    }

    fn sh_info(&self) -> u32 {
        read_u32(&self.bytes, 28)
    }

    fn sh_addralign(&self) -> u64 {
        u64::from(read_u32(&self.bytes, 32))
    }

    fn sh_entsize(&self) -> u64 {
        u64::from(read_u32(&self.bytes, 36))
    }
}
