//! A program header (gABI, Program Header), by the names of its fields. Numbers as wide as an address are
//! returned as 64 bits. Offsets and sizes are in bytes, offsets from the start of the file.

ghost use Rattle.std.specs.Prelude.{◌≡◌};
ghost use Rattle.elf_format.specs.Bytes.{get};
ghost use Rattle.elf_format.specs.Class.{Class};
ghost use Rattle.elf_format.specs.Class as fields;

use crate::record::Record;

/// A program header, by its fields (gABI, Program Header).
pub trait ProgramHeaderFields: Record {
    ghost class: { Class };

    /// Returns `p_type`, the type of the segment.
    fn p_type(&self) -> u32
        ensures { result ≡ get (fields.p_type class) (Self.contents self.now) };

    /// Returns `p_flags`, the flags of the segment.
    fn p_flags(&self) -> u32
        ensures { result ≡ get (fields.p_flags class) (Self.contents self.now) };

    /// Returns `p_offset`, the offset of the segment in the file.
    fn p_offset(&self) -> u64
        ensures { result ≡ get (fields.p_offset class) (Self.contents self.now) };

    /// Returns `p_vaddr`, the address of the segment in memory.
    fn p_vaddr(&self) -> u64
        ensures { result ≡ get (fields.p_vaddr class) (Self.contents self.now) };

    /// Returns `p_paddr`, the physical address of the segment, where that is relevant.
    fn p_paddr(&self) -> u64
        ensures { result ≡ get (fields.p_paddr class) (Self.contents self.now) };

    /// Returns `p_filesz`, the size of the segment in the file.
    fn p_filesz(&self) -> u64
        ensures { result ≡ get (fields.p_filesz class) (Self.contents self.now) };

    /// Returns `p_memsz`, the size of the segment in memory.
    fn p_memsz(&self) -> u64
        ensures { result ≡ get (fields.p_memsz class) (Self.contents self.now) };

    /// Returns `p_align`, the alignment of the segment. 0 and 1 mean none.
    fn p_align(&self) -> u64
        ensures { result ≡ get (fields.p_align class) (Self.contents self.now) };
}
