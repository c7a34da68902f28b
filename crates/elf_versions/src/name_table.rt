//! Names by version index. Contracts see the table as the list of its entries.

ghost use Rattle.std.specs.Prelude.{◌≡◌, ◌-◌, ◌≤◌, ◌++◌, replicate, length, slice_get, vec_len, option_copied, None, IfOk};
ghost use Rattle.std.specs.Option.{option_flatten};
ghost use Rattle.elf_versions.specs.steps.Names.{put_name};

use std::alloc::{AllocError, Global};
use std::marker::Model;

/// A name at each index from 0, or none.
#[derive(Drop)]
pub(crate) struct NameTable<'a> {
    names: Vec<Option<&'a [u8]>>,
}

impl<'a> Model for NameTable<'a> {
    ghost use Rattle.std.specs.Prelude.{ℕ, List, Option, map, option_copied};

    ghost Value = { List (Option (List ℕ)) };

    ghost view = { λ t. map option_copied t.names.items };
}

impl<'a> NameTable<'a> {
    /// Returns the table of `count` entries without a name.
    pub fn new(alloc: Global, count: usize) -> Result<Self, AllocError>
        ensures { IfOk result (λ table. table ≡ replicate count None) }
    {
        let names = no_names(alloc, count)?;
        Ok(NameTable { names })
    }

    /// Returns the number of entries.
    pub fn len(&self) -> usize
        ensures { result ≡ length self.now }
    {
        self.names.len()
    }

    /// Returns the name at an index, or None where there is none.
    pub fn get(&self, index: usize) -> Option<&'a [u8]>
        ensures { option_copied result ≡ option_flatten (slice_get self.now index) }
    {
        *self.names.get(index)?
    }

    /// Enters a name at an index, in place of one that is there. The table grows as needed.
    pub fn put(&mut self, index: u16, name: &'a [u8]) -> Result<(), AllocError>
        ensures { IfOk result (λ _. self.new ≡ put_name self.old index name.now) }
    {
        let index = index as usize;
        grow(&mut self.names, index + 1)?;
        self.names[index] = Some(name);
        Ok(())
    }
}

/// Makes `count` entries without a name.
fn no_names<'a>(alloc: Global, count: usize) -> Result<Vec<Option<&'a [u8]>>, AllocError>
    ensures { IfOk result (λ names. names.items ≡ replicate count None) }
{
    let names = vec![in alloc; None; count]?;
    Ok(names)
}

/// Adds entries without a name until there are at least `count`.
fn grow<'a>(names: &mut Vec<Option<&'a [u8]>>, count: usize) -> Result<(), AllocError>
    ensures items { IfOk result (λ _. names.new.items ≡ names.old.items ++ replicate (count - vec_len names.old) None) }
    ensures len { IfOk result (λ _. count ≤ vec_len names.new) }
{
    if count <= names.len() {
        return Ok(());
    }
    names.resize(count, None)?;
    Ok(())
}

/// A version index and a name.
#[derive(Clone, Copy)]
pub(crate) struct IndexedName<'a> {
    pub index: u16,
    pub name: &'a [u8],
}
