//! The name of a section as it is shown, a copy of its bytes, and the size and the alignment of its data (gABI,
//! Sections and Section Compression).

ghost use Rattle.std.specs.Prelude.{◌≡◌, ℕ, List, length, slice_get, None, Some, Ok, Err, MatchResult, IfOk, IfErr, IfSome, option_and_then};
ghost use Rattle.std.specs.Result.{result_err};
ghost use Rattle.elf_format.specs.Class.{ch_size, ch_addralign};
ghost use Rattle.elf_format.specs.Compression.{compressed_field, data_size, data_alignment};
ghost use Rattle.elf_format.specs.Section.{sections, section_bytes, section_name};
ghost use Rattle.elf_view.specs.SectionData.{plain_bytes, data_fault, display_name};
ghost use Rattle.elf_view.specs.steps.Compression.{compression_header};

use crate::file::File;
use elf_format::ElfError;
use elf_sections::bytes_of_section;
use elf_words::{
    CompressionFields, ElfClass, Record, SHF_COMPRESSED, SectionHeaderFields, SectionIndex,
};
use itoa::Buffer;
use std::alloc::{AllocError, Global};

/// Returns `<index N>`, with the index in decimal.
fn text_of_index(alloc: Global, index: usize) -> Result<Vec<u8>, AllocError>
    ensures { IfOk result (λ text. text.items ≡ display_name index None) }
{
    let mut buffer = Buffer::new();
    let mut text = Vec::from_slice(alloc, b"<index ")?;
    text.extend_from_slice(buffer.format(index).as_bytes())?;
    text.extend_from_slice(b">")?;
    Ok(text)
}

/// Returns the compression header that begins a section's bytes. The error is `SectionData` where the bytes are out
/// of the file's range, else `Compressed` where they are fewer than a header.
fn read_compression_header<C: ElfClass>(
    bytes: &[u8],
    section: &C::SectionHeader,
) -> Result<C::CompressionHeader, ElfError>
    ensures { MatchResult result (λ header. compression_header C.class (section_bytes C.class bytes.now (C.SectionHeader.contents section.now)) ≡ Ok (C.CompressionHeader.contents header)) (λ e. compression_header C.class (section_bytes C.class bytes.now (C.SectionHeader.contents section.now)) ≡ Err e) }
{
    let Some(found) = bytes_of_section(bytes, section) else {
        return Err(ElfError::SectionData);
    };
    C::CompressionHeader::read(found).ok_or(ElfError::Compressed)
}

/// Returns `ch_size` of the compression header that begins a section's bytes, or why there is none.
#[tactic(auto, using(crate::proofs::CompressionLemmas::read_size, crate::proofs::CompressionLemmas::no_size))]
fn compressed_size<C: ElfClass>(bytes: &[u8], section: &C::SectionHeader) -> Result<u64, ElfError>
    ensures { result ≡ compressed_field C.class (ch_size C.class) (section_bytes C.class bytes.now (C.SectionHeader.contents section.now)) }
{
    match read_compression_header::<C>(bytes, section) {
        Ok(header) => Ok(header.ch_size()),
        Err(error) => Err(error),
    }
}

/// Returns `ch_addralign` of the compression header that begins a section's bytes, or why there is none.
#[tactic(auto, using(crate::proofs::CompressionLemmas::read_alignment, crate::proofs::CompressionLemmas::no_alignment))]
fn compressed_alignment<C: ElfClass>(
    bytes: &[u8],
    section: &C::SectionHeader,
) -> Result<u64, ElfError>
    ensures { result ≡ compressed_field C.class (ch_addralign C.class) (section_bytes C.class bytes.now (C.SectionHeader.contents section.now)) }
{
    match read_compression_header::<C>(bytes, section) {
        Ok(header) => Ok(header.ch_addralign()),
        Err(error) => Err(error),
    }
}

impl<'a, C: ElfClass> File<'a, C> {
    /// Returns the name of the section at an index, or `<index N>` with the index in decimal where there is no such
    /// section or its name is unreadable. The error is an allocation failure.
    pub fn section_display_name(
        &self,
        alloc: Global,
        index: SectionIndex,
    ) -> Result<Vec<u8>, AllocError>
        ensures { IfOk result (λ name. name.items ≡ display_name index.0 (option_and_then (section_name C.class self.now.bytes) (slice_get (sections C.class self.now.bytes) index.0))) }
    {
        match self.section_name(index) {
            Ok(name) => Vec::from_slice(alloc, name),
            Err(_) => text_of_index(alloc, index.0),
        }
    }

    /// Copies a section's bytes to `out`. The error is that of `section_data`, and leaves `out` as it was. Requires
    /// that `out` has the length of the section's bytes, where these are in the file.
    pub fn copy_section_data(
        &self,
        section: &C::SectionHeader,
        out: &mut [u8],
    ) -> Result<(), ElfError>
        requires { IfSome (section_bytes C.class self.now.bytes (C.SectionHeader.contents section.now)) (λ found. length found ≡ length out.old) }
        ensures fault { result_err result ≡ data_fault C.class self.now.bytes (C.SectionHeader.contents section.now) }
        ensures copied { IfOk result (λ _. plain_bytes C.class self.now.bytes (C.SectionHeader.contents section.now) ≡ Some out.new) }
        ensures kept { IfErr result (λ _. out.new ≡ out.old) }
    {
        let data = self.section_data(section)?;
        out.copy_from_slice(data);
        Ok(())
    }

    /// Returns the size in bytes of a section's data: `ch_size` of a compressed section, else `sh_size`. The error is
    /// `SectionData` where the bytes of a compressed section are out of the file's range, else `Compressed` where
    /// they are fewer than a compression header.
    pub fn section_size(&self, section: &C::SectionHeader) -> Result<u64, ElfError>
        ensures { result ≡ data_size C.class self.now.bytes (C.SectionHeader.contents section.now) }
    {
        if section.sh_flags() & SHF_COMPRESSED == 0 {
            return Ok(section.sh_size());
        }
        compressed_size::<C>(self.bytes, section)
    }

    /// Returns the alignment of a section's data: `ch_addralign` of a compressed section, else `sh_addralign`. 0 and 1
    /// mean none. The errors are those of `section_size`.
    pub fn section_alignment(&self, section: &C::SectionHeader) -> Result<u64, ElfError>
        ensures { result ≡ data_alignment C.class self.now.bytes (C.SectionHeader.contents section.now) }
    {
        if section.sh_flags() & SHF_COMPRESSED == 0 {
            return Ok(section.sh_addralign());
        }
        compressed_alignment::<C>(self.bytes, section)
    }
}
