//! Bytes of a section, and strings of a string table (gABI, Sections and String Table).

ghost use Rattle.std.specs.Prelude.{◌≡◌, ◌==◌, ◌<◌, position, length, take, IfSome, option_copied};
ghost use Rattle.elf_format.specs.Bytes;
ghost use Rattle.elf_format.specs.Section.{sections, section_bytes, is_name};
ghost use Rattle.elf_format.specs.Symbol.{linked_strings};

use elf_versions::string_at;
use elf_words::{Record, Records, SHT_NOBITS, SectionHeaderFields};

/// Returns a section's bytes, or None where they are out of the file's range. A section of type NOBITS or of
/// size 0 has no bytes, whatever its offset.
#[tactic(auto, unfolding(elf_format::specs::Section::section_bytes))]
pub fn bytes_of_section<'a, H: SectionHeaderFields>(bytes: &'a [u8], header: &H) -> Option<&'a [u8]>
    ensures { option_copied result ≡ section_bytes H.class bytes.now (H.contents header.now) }
{
    if header.sh_type() == SHT_NOBITS || header.sh_size() == 0 {
        return Some(&[]);
    }
    let start = header.sh_offset() as usize;
    let stop = start.checked_add(header.sh_size() as usize)?;
    bytes.get(start..stop)
}

/// Returns the first `count` bytes, or all where there are fewer.
fn prefix_of(bytes: &[u8], count: usize) -> &[u8]
    ensures { result.now ≡ take count bytes.now }
{
    &bytes[..bytes.len().min(count)]
}

/// Returns whether a string was found and equals `wanted`.
fn is_found(found: Option<&[u8]>, wanted: &[u8]) -> bool
    ensures { result ≡ is_name wanted.now (option_copied found.entry) }
{
    match found {
        Some(name) => name == wanted,
        None => false,
    }
}

/// Returns whether the string at an offset equals `wanted`. At most `wanted.len() + 1` bytes are read, so a long
/// string costs no more.
#[tactic(auto, using(crate::proofs::NameLemmas::prefix_decides), unfolding(elf_format::specs::Bytes::string_at))]
pub fn is_string_at(strings: &[u8], offset: usize, wanted: &[u8]) -> bool
    ensures { result ≡ is_name wanted.now (Bytes.string_at strings.now offset) }
{
    match strings.get(offset..) {
        Some(tail) => is_found(string_at(prefix_of(tail, wanted.len() + 1), 0), wanted),
        None => false,
    }
}

/// Returns the strings in the section that a link (`sh_link`) names: none where it is 0, names no section, or the
/// section's bytes are out of the file's range.
#[tactic(auto, unfolding(elf_format::specs::Symbol::linked_strings))]
pub fn strings_of_link<'a, H: SectionHeaderFields>(
    bytes: &'a [u8],
    headers: &Records<'a, H>,
    link: u32,
) -> &'a [u8]
    requires { headers.now ≡ sections H.class bytes.now }
    ensures { result.now ≡ linked_strings H.class bytes.now link }
{
    if link == 0 {
        return &[];
    }
    match headers.get(link as usize) {
        Some(header) => bytes_of_section(bytes, &header).unwrap_or(&[]),
        None => &[],
    }
}
