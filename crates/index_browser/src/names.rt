//! Lists the names of an index in byte order.

ghost use Rattle.std.specs.Prelude.{◌≡◌, ◌<◌, ◌≤◌, ◌^◌, length, option_map, IfOk};
ghost use Rattle.gdb_index.specs.Parts.{ArePartsOf};
ghost use Rattle.index_browser.specs.steps.Listing.{slot_named, all_slots_named, listed_from_slot, listed_slots};
ghost use Rattle.index_browser.specs.NameList.{all_listed, IsNameListOf, IsNameListWith};
ghost use Rattle.index_browser.specs.Checked.{PassesTests};

use crate::check::CheckedIndex;
use crate::slots::taken_at;
use gdb_index::{ByName, CuVector, Parts, name_from, sort_by_name, vector_from};
use std::alloc::{AllocError, Global};

/// A name of an index, and its CU vector.
#[derive(Debug, Drop)]
pub struct NameEntry<'a> {
    /// The name's bytes, without the zero byte that ends it in the index.
    pub name: &'a [u8],
    /// The elements of the CU vector.
    pub vector: CuVector<'a>,
}

/// Returns the name of a slot with the CU vector that stands there; None where the slot is free, or its name does not begin
/// with the prefix.
fn named_at<'a>(
    index: &'a [u8],
    parts: &Parts,
    prefix: &[u8],
    slot: usize,
) -> Option<ByName<'a, CuVector<'a>>>
    requires parts { ArePartsOf index.now parts.now }
    requires passes { PassesTests index.now }
    requires within { slot < parts.now.slots }
    ensures { option_map slot_named result ≡ listed_from_slot index.now prefix.now slot }
{
    let Some(taken) = taken_at(index, parts, slot) else {
        return None;
    };
    let Some(name) = name_from(index, taken.name) else {
        return None;
    };
    if !name.starts_with(prefix) {
        return None;
    }
    match vector_from(index, taken.vector) {
        Ok(vector) => Some(ByName::new(name, vector)),
        Err(_) => unreachable!(),
    }
}

/// Returns the names that begin with a prefix, slot by slot.
fn names_by_slot<'a>(
    alloc: Global,
    index: &'a [u8],
    parts: &Parts,
    prefix: &[u8],
) -> Result<Vec<ByName<'a, CuVector<'a>>>, AllocError>
    requires parts { ArePartsOf index.now parts.now }
    requires passes { PassesTests index.now }
    ensures names { IfOk result (λ v. all_slots_named v.items ≡ listed_slots index.now prefix.now) }
    ensures few { IfOk result (λ v. length v.items ≤ parts.now.slots) }
{
    let mut names = Vec::new(alloc);
    for slot in 0..parts.slots {
        if let Some(named) = named_at(index, parts, prefix, slot) {
            names.push(named)?;
        }
    }
    Ok(names)
}

/// Returns the entries of names.
fn entries_of<'a>(
    alloc: Global,
    names: Vec<ByName<'a, CuVector<'a>>>,
) -> Result<Vec<NameEntry<'a>>, AllocError>
    ensures { IfOk result (λ v. all_listed v.items ≡ all_slots_named names.entry.items) }
{
    let mut entries = Vec::with_capacity(alloc, names.len())?;
    for named in names {
        entries.push(NameEntry {
            name: named.name,
            vector: named.item,
        })?;
    }
    Ok(entries)
}

impl<'a> CheckedIndex<'a> {
    /// Returns the names that the index holds, ascending by their bytes, each once and with its CU vector. No other byte
    /// string is found in the index. There are fewer than 2^29 of them, since the offsets of the symbol hash table have four
    /// bytes.
    pub fn names(&self, alloc: Global) -> Result<Vec<NameEntry<'a>>, AllocError>
        ensures names { IfOk result (λ v. IsNameListOf self.now (all_listed v.items)) }
        ensures few { IfOk result (λ v. length v.items < 2 ^ 29) }
    {
        let entries = self.names_with_prefix(alloc, &[])?;
        Ok(entries)
    }

    /// Returns the names that begin with a prefix, in the same order.
    pub fn names_with_prefix(
        &self,
        alloc: Global,
        prefix: &[u8],
    ) -> Result<Vec<NameEntry<'a>>, AllocError>
        ensures names { IfOk result (λ v. IsNameListWith self.now prefix.now (all_listed v.items)) }
        ensures few { IfOk result (λ v. length v.items < 2 ^ 29) }
    {
        let Some(parts) = self.parts() else {
            return Ok(Vec::new(alloc));
        };
        let mut names = names_by_slot(alloc, self.bytes(), &parts, prefix)?;
        sort_by_name(&mut names);
        let entries = entries_of(alloc, names)?;
        Ok(entries)
    }
}
