//! The compression header, with which the bytes of a compressed section begin (gABI, Section Compression), by
//! the names of its fields. Numbers as wide as an address are returned as 64 bits.

ghost use Rattle.std.specs.Prelude.{◌≡◌};
ghost use Rattle.elf_format.specs.Bytes.{get};
ghost use Rattle.elf_format.specs.Class.{Class};
ghost use Rattle.elf_format.specs.Class as fields;

use crate::record::Record;

/// A compression header, by its fields (gABI, Section Compression).
pub trait CompressionFields: Record {
    ghost class: { Class };

    /// Returns `ch_type`, the compression algorithm.
    fn ch_type(&self) -> u32
        ensures { result ≡ get (fields.ch_type class) (Self.contents self.now) };

    /// Returns `ch_size`, the size of the uncompressed bytes.
    fn ch_size(&self) -> u64
        ensures { result ≡ get (fields.ch_size class) (Self.contents self.now) };

    /// Returns `ch_addralign`, the alignment of the uncompressed bytes.
    fn ch_addralign(&self) -> u64
        ensures { result ≡ get (fields.ch_addralign class) (Self.contents self.now) };
}
