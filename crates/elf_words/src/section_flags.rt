//! The section flags (gABI, Section Attribute Flags; `SHF_GNU_RETAIN` of the GNU tools), each one bit.

ghost use Rattle.std.specs.Prelude.{◌≡◌, ◌==◌};
ghost use Rattle.std.specs.Int.{w64, bit_not};
ghost use Rattle.std.specs.Int.Bits.{bit_and};
ghost use Rattle.elf_format.specs.Flags as spec;

/// The section is writable.
pub const SHF_WRITE: u64 = 0x1;
/// The section occupies memory.
pub const SHF_ALLOC: u64 = 0x2;
/// The section holds code.
pub const SHF_EXECINSTR: u64 = 0x4;
/// Equal entries may be merged.
pub const SHF_MERGE: u64 = 0x10;
/// The entries are strings, each with a zero byte at its end.
pub const SHF_STRINGS: u64 = 0x20;
/// The section is a member of a group.
pub const SHF_GROUP: u64 = 0x200;
/// Each thread has its own copy.
pub const SHF_TLS: u64 = 0x400;
/// The bytes are compressed.
pub const SHF_COMPRESSED: u64 = 0x800;
/// The section stays even if nothing refers to it.
pub const SHF_GNU_RETAIN: u64 = 0x20_0000;
/// The section is left out of a program.
pub const SHF_EXCLUDE: u64 = 0x8000_0000;

/// The flags of a section.
#[derive(Debug, Clone, Copy, Default, PartialEq, Eq)]
pub struct SectionFlags(pub u64);

impl SectionFlags {
    /// Reports whether all of `flags` are set.
    pub fn contains(self, flags: SectionFlags) -> bool
        ensures { result ≡ (bit_and self.0 flags.0 == flags.0) }
    {
        self.0 & flags.0 == flags.0
    }

    /// Returns these flags with `flags` cleared.
    pub fn without(self, flags: SectionFlags) -> SectionFlags
        ensures { result.0 ≡ bit_and self.0 (bit_not w64 flags.0) }
    {
        SectionFlags(self.0 & !flags.0)
    }

    /// Reports whether `SHF_ALLOC` is set.
    pub fn is_alloc(self) -> bool
        ensures { result ≡ spec.has_flag self.0 spec.shf_alloc }
    {
        has_flag(self.0, SHF_ALLOC)
    }
}

/// Reports whether a bit of `flag` is set.
pub(crate) fn has_flag(flags: u64, flag: u64) -> bool
    ensures { result ≡ spec.has_flag flags flag }
{
    flags & flag != 0
}
