//! The dynamic section of a file (gABI, Dynamic Section): its entries, and what they say of a library.

ghost use Rattle.std.specs.Prelude.{◌≡◌, ◌==◌, IfErr, option_copied, option_map, unwrap_or};
ghost use Rattle.std.specs.List.{find};
ghost use Rattle.std.specs.Result.{result_ok};
ghost use Rattle.elf_format.specs.Bytes.{get};
ghost use Rattle.elf_format.specs.Class.{sh_type, d_tag};
ghost use Rattle.elf_format.specs.Dynamic.{dynamic_entries, dynamic_entries_in};
ghost use Rattle.elf_format.specs.Dynamic as spec;
ghost use Rattle.elf_format.specs.Section.{section_bytes};
ghost use Rattle.elf_format.specs.declared.error.ElfError.TheVariants.{SectionData};
ghost use Rattle.elf_view.specs.TagValues.{shown_values, values_in, tag_values};

use crate::file::File;
use elf_format::ElfError;
use elf_sections::bytes_of_section;
use elf_versions::string_at;
use elf_words::{DynFields, ElfClass, ElfWord, Record, Records, SHT_DYNAMIC, SectionHeaderFields};

/// The tag of an entry that names a needed library.
pub(crate) const DT_NEEDED: u64 = 1;
/// The tag of the entry that names the library itself.
const DT_SONAME: u64 = 14;
/// The tag of the entry that has the number of version definitions.
const DT_VERDEFNUM: u64 = 0x6fff_fffd;

/// The entries of a file's dynamic section, in order.
pub type DynView<'a, C> = Records<'a, <C as ElfClass>::Dyn>;

/// What the dynamic section says of a library (gABI, Dynamic Section; GNU symbol versioning).
#[derive(Clone, Copy, Debug, Default)]
pub struct DynamicTagValues<'a> {
    /// The number of version definitions (DT_VERDEFNUM), 0 without such an entry.
    pub verdefnum: u64,
    /// The library's own name (DT_SONAME), None without such an entry or where the name is unreadable.
    pub soname: Option<&'a [u8]>,
}

impl<'a> DynamicTagValues<'a> {
    /// Returns the library's own name, or `fallback` where it has none.
    pub fn lib_name(&self, fallback: &'a [u8]) -> &'a [u8]
        ensures { result.now ≡ unwrap_or (option_copied self.now.soname) fallback.now }
    {
        match self.soname {
            Some(name) => name,
            None => fallback,
        }
    }
}

/// Returns the tag of an entry (`d_tag`), by its bits.
#[tactic(auto, using(crate::proofs::DynamicLemmas::tag_in_front))]
pub(crate) fn tag_of<C: ElfClass>(entry: &C::Dyn) -> u64
    ensures { result ≡ get (d_tag C.class) (C.Dyn.contents entry.now) }
{
    C::Word::from_le_bytes(&entry.as_bytes()[..C::Word::BYTES]).to_u64()
}

/// Returns the value of the last entry with a tag.
#[tactic(auto, using(crate::proofs::DynamicLemmas::last_after, crate::proofs::DynamicLemmas::nothing_after))]
fn last_value<C: ElfClass>(entries: &DynView<'_, C>, tag: u64) -> Option<u64>
    ensures { result ≡ spec.last_value C.class tag entries.now }
{
    let mut last = None;
    for entry in entries.iter() {
        if tag_of::<C>(&entry) == tag {
            last = Some(entry.d_value());
        }
    }
    last
}

/// Returns the library's own name: the string at the low 32 bits of the last entry with the tag DT_SONAME.
#[tactic(auto, unfolding(elf_format::specs::Dynamic::own_name))]
fn own_name<'a, C: ElfClass>(strings: &'a [u8], entries: &DynView<'_, C>) -> Option<&'a [u8]>
    ensures { option_copied result ≡ spec.own_name C.class strings.now entries.now }
{
    let value = last_value::<C>(entries, DT_SONAME)?;
    string_at(strings, (value % (1 << 32)) as usize)
}

/// Returns what entries say of a library.
fn values_of<'a, C: ElfClass>(strings: &'a [u8], entries: &DynView<'_, C>) -> DynamicTagValues<'a>
    ensures { shown_values result ≡ values_in C.class strings.now entries.now }
{
    DynamicTagValues {
        verdefnum: last_value::<C>(entries, DT_VERDEFNUM).unwrap_or(0),
        soname: own_name::<C>(strings, entries),
    }
}

/// Returns the first section of a type.
fn first_of_type<H: SectionHeaderFields>(headers: &Records<'_, H>, section_type: u32) -> Option<H>
    ensures { option_map H.contents result ≡ find (λ header. get (sh_type H.class) header == section_type) headers.now }
{
    for header in headers.iter() {
        if header.sh_type() == section_type {
            return Some(header);
        }
    }
    None
}

/// Returns the entries in a section, or None where its bytes are out of the file's range or are no whole entries.
fn read_entries<'a, C: ElfClass>(
    bytes: &'a [u8],
    header: &C::SectionHeader,
) -> Option<DynView<'a, C>>
    ensures { result ≡ dynamic_entries_in C.class (section_bytes C.class bytes.now (C.SectionHeader.contents header.now)) }
{
    let found = bytes_of_section(bytes, header)?;
    if found.len() % C::Dyn::SIZE != 0 {
        return None;
    }
    Some(Records::whole(found))
}

impl<'a, C: ElfClass> File<'a, C> {
    /// Returns all entries of the first section of type SHT_DYNAMIC, also those after a null tag; none without such a
    /// section. The error is `SectionData`, exactly where the section's bytes are out of the file's range or are no
    /// whole entries.
    #[tactic(auto, unfolding(elf_format::specs::Dynamic::dynamic_entries))]
    pub fn dynamic_tags(&self) -> Result<DynView<'a, C>, ElfError>
        ensures found { result_ok result ≡ dynamic_entries C.class self.now.bytes }
        ensures error { IfErr result (λ e. e ≡ SectionData) }
    {
        match first_of_type(&self.headers, SHT_DYNAMIC) {
            Some(header) => { read_entries::<C>(self.bytes, &header).ok_or(ElfError::SectionData) }
            None => Ok(Records::new(&[], 0)),
        }
    }

    /// Returns what the dynamic section says of the library, or None for a file that was not parsed as a dynamic one. Its
    /// own name is in the strings that the symbol table is linked to. Where `dynamic_tags` has an error, the number is 0
    /// and there is no name.
    pub fn dynamic_tag_values(&self) -> Option<DynamicTagValues<'a>>
        ensures { option_map shown_values result ≡ tag_values C.class self.now.is_dynamic self.now.bytes }
    {
        if !self.is_dynamic {
            return None;
        }
        match self.dynamic_tags() {
            Ok(entries) => Some(values_of::<C>(self.symbol_strings(), &entries)),
            Err(_) => Some(DynamicTagValues {
                verdefnum: 0,
                soname: None,
            }),
        }
    }
}
