//! The entries of a set of `.debug_gnu_pubnames` or `.debug_gnu_pubtypes`, one after another: an offset in the set's
//! compilation unit (CU), a flag byte (GDB manual, "Index Section Format"), and the name with the zero byte that ends
//! it. A zero offset closes the list (DWARF 4, 6.1.1).

ghost use Rattle.std.specs.Prelude.{◌≡◌, ℕ, ◌+◌, ◌<◌, ◌≤◌, ◌==◌, List, length, IfOk};
ghost use Rattle.std.specs.List.{position};
ghost use Rattle.gdb_index_format.specs.Names.{Entry, IsEntries};
ghost use Rattle.dwarf_sections.specs.Entries.{entries_in, IsBad};
ghost use Rattle.dwarf_sections.specs.steps.EntryParts.{FoundEntry, NoEntry, NumberAt, SplitsName};

use crate::set_error::SetError;
use elf_words::first_zero;
use gdb_index_format::DwarfFormat;
use std::alloc::Global;

/// An entry, and the bytes after it.
#[derive(Clone, Copy, Debug)]
pub(crate) struct NameEntry<'a> {
    name: &'a [u8],
    flag: u8,
    rest: &'a [u8],
}

/// Returns the number at the front, as wide as the DWARF format has offsets, and the bytes after it.
pub(crate) fn number_of(format: DwarfFormat, bytes: &[u8]) -> Option<(u64, &[u8])>
    ensures { NumberAt format bytes.now result }
{
    match format {
        DwarfFormat::Dwarf32 => {
            let (front, rest) = bytes.split_first_chunk::<4>()?;
            Some((u64::from(u32::from_le_bytes(*front)), rest))
        }
        DwarfFormat::Dwarf64 => {
            let (front, rest) = bytes.split_first_chunk::<8>()?;
            Some((u64::from_le_bytes(*front), rest))
        }
    }
}

/// Returns the bytes before the first zero byte, and those after it.
fn split_name(bytes: &[u8]) -> Option<(&[u8], &[u8])>
    ensures { SplitsName bytes.now result }
{
    match first_zero(bytes) {
        None => None,
        Some(len) => Some((&bytes[..len], &bytes[len + 1..])),
    }
}

/// Returns the entry at the front, none where the list of entries is closed there.
fn entry_of(format: DwarfFormat, bytes: &[u8]) -> Result<Option<NameEntry<'_>>, SetError>
    ensures found { IfOk result (FoundEntry format bytes.now) }
    ensures bad { IsBad result (NoEntry format bytes.now) }
{
    if bytes.is_empty() {
        return Ok(None);
    }
    let Some((offset, rest)) = number_of(format, bytes) else {
        return Err(SetError::BadSet);
    };
    if offset == 0 {
        return Ok(None);
    }
    let Some((flag, rest)) = rest.split_first() else {
        return Err(SetError::BadSet);
    };
    let Some((name, rest)) = split_name(rest) else {
        return Err(SetError::BadSet);
    };
    Ok(Some(NameEntry {
        name,
        flag: *flag,
        rest,
    }))
}

/// Returns the entries that the last part of a set holds, each a name and its flag byte.
pub(crate) fn entries_of<'a>(
    alloc: Global,
    format: DwarfFormat,
    bytes: &'a [u8],
) -> Result<Vec<(&'a [u8], u8)>, SetError>
    ensures ok { IfOk result (λ entries. IsEntries format bytes.now (entries_in entries.items)) }
    ensures bad { IsBad result ((es : List Entry) → IsEntries format bytes.now es → ⊥) }
{
    let mut entries = Vec::new(alloc);
    let mut rest = bytes;
    while let Some(entry) = entry_of(format, rest)? {
        entries.push((entry.name, entry.flag))?;
        rest = entry.rest;
    }
    Ok(entries)
}
