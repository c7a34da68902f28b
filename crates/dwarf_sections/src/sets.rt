//! The sets of `.debug_gnu_pubnames` and `.debug_gnu_pubtypes`, one after another (the layout of DWARF 4, 6.1.1, in
//! the two formats of DWARF 5, 7.4): an initial length, version 2, the offset and the length of a compilation unit
//! (CU), and the entries.

ghost use Rattle.std.specs.Prelude.{◌≡◌, ℕ, ◌+◌, ◌<◌, ◌≤◌, List, length, IfOk};
ghost use Rattle.std.specs.List.{All};
ghost use Rattle.gdb_index_format.specs.Names.{NameSet, IsSetList};
ghost use Rattle.dwarf_sections.specs.Entries.{IsBad};
ghost use Rattle.dwarf_sections.specs.Clean.{IsClean};
ghost use Rattle.dwarf_sections.specs.Sets.{sets_in};
ghost use Rattle.dwarf_sections.specs.steps.SetParts.{LengthAt, BodyAt, HeadAt, FoundSet, NoSet};

use crate::entries::{entries_of, number_of};
use crate::set_error::SetError;
use gdb_index_format::DwarfFormat;
use std::alloc::Global;

/// A set: the names that one unit publishes.
#[derive(Debug, Drop)]
pub struct PubnamesSet<'a> {
    /// The unit's offset, in bytes from the start of `.debug_info`.
    pub debug_info_offset: u64,
    /// Each name, without the zero byte that ends it, with its flag byte.
    pub entries: Vec<(&'a [u8], u8)>,
}

/// An initial length, and the bytes after it.
#[derive(Clone, Copy, Debug)]
struct Length<'a> {
    format: DwarfFormat,
    len: u64,
    rest: &'a [u8],
}

/// The fields before the entries of a set, the bytes of the entries, and the bytes after the set.
#[derive(Clone, Copy, Debug)]
struct SetHead<'a> {
    format: DwarfFormat,
    unit: u64,
    last: &'a [u8],
    rest: &'a [u8],
}

/// A set, and the bytes after it.
#[derive(Debug, Drop)]
struct SetAndRest<'a> {
    set: PubnamesSet<'a>,
    rest: &'a [u8],
}

/// Returns the initial length at the front. The values 0xfffffff0 to 0xfffffffe are reserved (DWARF 5, 7.4), and none.
fn length_of(bytes: &[u8]) -> Option<Length<'_>>
    ensures { LengthAt bytes.now result }
{
    let (first, rest) = number_of(DwarfFormat::Dwarf32, bytes)?;
    if first < 0xffff_fff0 {
        return Some(Length {
            format: DwarfFormat::Dwarf32,
            len: first,
            rest,
        });
    }
    if first < 0xffff_ffff {
        return None;
    }
    let (len, rest) = number_of(DwarfFormat::Dwarf64, rest)?;
    Some(Length {
        format: DwarfFormat::Dwarf64,
        len,
        rest,
    })
}

/// Returns the unit's offset and the entries' bytes, of the bytes after the initial length of a set.
fn body_of(format: DwarfFormat, bytes: &[u8]) -> Option<(u64, &[u8])>
    ensures { BodyAt format bytes.now result }
{
    let (version, rest) = bytes.split_first_chunk::<2>()?;
    if u16::from_le_bytes(*version) != 2 {
        return None;
    }
    let (unit, rest) = number_of(format, rest)?;
    let (_unit_length, last) = number_of(format, rest)?;
    Some((unit, last))
}

/// Returns the fields before the entries of the set at the front.
fn head_of(bytes: &[u8]) -> Option<SetHead<'_>>
    ensures { HeadAt bytes.now result }
{
    let length = length_of(bytes)?;
    if length.len > length.rest.len() as u64 {
        return None;
    }
    let (body, rest) = length.rest.split_at(length.len as usize);
    let (unit, last) = body_of(length.format, body)?;
    Some(SetHead {
        format: length.format,
        unit,
        last,
        rest,
    })
}

/// Returns the set at the front, and the bytes after it.
fn set_of<'a>(alloc: Global, bytes: &'a [u8]) -> Result<SetAndRest<'a>, SetError>
    ensures found { IfOk result (FoundSet bytes.now) }
    ensures bad { IsBad result (NoSet bytes.now) }
{
    let Some(head) = head_of(bytes) else {
        return Err(SetError::BadSet);
    };
    let entries = entries_of(alloc, head.format, head.last)?;
    Ok(SetAndRest {
        set: PubnamesSet {
            debug_info_offset: head.unit,
            entries,
        },
        rest: head.rest,
    })
}

/// Returns the sets of `.debug_gnu_pubnames` or `.debug_gnu_pubtypes`, in order (the layout of DWARF 4, 6.1.1). A zero
/// offset, or the set's end, closes the entries of a set; bytes between a zero offset and the set's end are skipped.
/// No name has a zero byte.
///
/// `BadSet` comes exactly where the bytes are no list of sets. `NoMemory` may come at any bytes.
pub fn parse_pubnames_sets<'a>(
    alloc: Global,
    bytes: &'a [u8],
) -> Result<Vec<PubnamesSet<'a>>, SetError>
    ensures ok { IfOk result (λ sets. IsSetList bytes.now (sets_in sets.items)) }
    ensures clean { IfOk result (λ sets. All IsClean (sets_in sets.items)) }
    ensures bad { IsBad result ((sets : List NameSet) → IsSetList bytes.now sets → ⊥) }
{
    let mut sets = Vec::new(alloc);
    let mut rest = bytes;
    while !rest.is_empty() {
        let next = set_of(alloc, rest)?;
        sets.push(next.set)?;
        rest = next.rest;
    }
    Ok(sets)
}
