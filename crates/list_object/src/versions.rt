//! Lists the version definitions of a file, the versions that it needs, and its dynamic entries.

use crate::error::ListError;
use crate::symbols::plain_name;
use elf_format::SectionIndex;
use elf_tables::{Verdef, Verneed};
use elf_versions::string_at;
use elf_view::{File, RawSymbolName, VerdauxIter, VernauxIter};
use elf_words::{DynFields, ElfClass};

/// Returns the strings of a section, none where its bytes are not read.
fn strings_of<'a, C: ElfClass>(file: &File<'a, C>, section: SectionIndex) -> &'a [u8] {
    match file.section(section) {
        Ok(header) => file.raw_section_data(&header).unwrap_or(&[]),
        Err(_) => &[],
    }
}

/// Returns the string at an offset as a name, the empty name where it is unreadable.
fn name_at(strings: &[u8], offset: u32) -> RawSymbolName<'_> {
    plain_name(string_at(strings, offset as usize).unwrap_or(b""))
}

/// Prints a version definition, `definition INDEX FLAGS`, and each of its names, `version [NAME]`.
fn print_definition<R: Print>(
    rt: &R,
    strings: &[u8],
    definition: Verdef,
    names: VerdauxIter<'_>,
) -> Result<(), ListError> {
    println!(rt;
        "definition {} {}",
        definition.vd_ndx(),
        definition.vd_flags()
    )?;
    for name in names {
        let name = name_at(strings, name?.vda_name());
        println!(rt; "version [{name}]")?;
    }
    Ok(())
}

/// Prints a file from which versions are needed, `file [NAME]`, and each version, `needed INDEX FLAGS [NAME]`.
fn print_need<R: Print>(
    rt: &R,
    strings: &[u8],
    need: Verneed,
    versions: VernauxIter<'_>,
) -> Result<(), ListError> {
    let name = name_at(strings, need.vn_file());
    println!(rt; "file [{name}]")?;
    for version in versions {
        let version = version?;
        let name = name_at(strings, version.vna_name());
        println!(rt;
            "needed {} {} [{name}]",
            version.vna_other(),
            version.vna_flags()
        )?;
    }
    Ok(())
}

/// Prints the version records of a file.
pub(crate) fn list_versions<C: ElfClass, R: Print>(
    rt: &R,
    file: &File<'_, C>,
) -> Result<(), ListError> {
    if let Some((definitions, link)) = file.verdef() {
        let strings = strings_of(file, link);
        for item in definitions {
            let (definition, names) = item?;
            print_definition(rt, strings, definition, names)?;
        }
    }
    if let Some((needs, link)) = file.verneed() {
        let strings = strings_of(file, link);
        for item in needs {
            let (need, versions) = item?;
            print_need(rt, strings, need, versions)?;
        }
    }
    Ok(())
}

/// Prints each dynamic entry, `tag TAG VALUE`, and the name of the library, `soname [NAME]`.
pub(crate) fn list_tags<C: ElfClass, R: Print>(
    rt: &R,
    file: &File<'_, C>,
) -> Result<(), ListError> {
    let entries = file.dynamic_tags()?;
    for entry in entries.iter() {
        println!(rt; "tag {} {}", entry.d_tag(), entry.d_value())?;
    }
    if let Some(values) = file.dynamic_tag_values() {
        let name = plain_name(values.lib_name(b""));
        println!(rt; "soname [{name}] {}", values.verdefnum)?;
    }
    Ok(())
}
