//! Lists the section groups of a file.

use crate::error::ListError;
use crate::symbols::plain_name;
use elf_view::{File, SectionGroup};
use elf_words::ElfClass;
use std::alloc::Global;

/// Prints a line for a group, `group INDEX comdat|plain [SIGNATURE]`, and one for each member, `member GROUP INDEX`.
fn print_group<C: ElfClass, R: Print>(
    rt: &R,
    file: &File<'_, C>,
    group: &SectionGroup<'_>,
) -> Result<(), ListError> {
    let symbol = file.symbol(group.signature_symbol)?;
    let signature = plain_name(file.symbol_name(&symbol)?);
    let kind = if group.is_comdat { "comdat" } else { "plain" };
    println!(rt; "group {} {kind} [{signature}]", group.index.0)?;
    for position in 0..group.members.len() {
        if let Some(member) = group.members.get(position) {
            println!(rt; "member {} {}", group.index.0, member.0)?;
        }
    }
    Ok(())
}

/// Prints the groups of a file.
pub(crate) fn list_groups<C: ElfClass, R: Print>(
    rt: &R,
    alloc: Global,
    file: &File<'_, C>,
) -> Result<(), ListError> {
    for group in &file.section_groups(alloc)? {
        print_group(rt, file, group)?;
    }
    Ok(())
}
