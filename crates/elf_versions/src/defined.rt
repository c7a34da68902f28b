//! The names of the version definitions by their indexes (GNU symbol versioning, Version Definitions). A name is that
//! of the first record (Verdaux) of a definition; the last definition of an index counts.

ghost use Rattle.std.specs.Prelude.{◌≡◌, ◌<◌, length, slice_get, option_copied, Ok, IfOk, MatchResult};
ghost use Rattle.std.specs.Option.{option_flatten};
ghost use Rattle.std.specs.Result.{result_err};
ghost use Rattle.elf_format.specs.Chain.{on_ok};
ghost use Rattle.elf_format.specs.VersionName.{version_names, version_index_count};
ghost use Rattle.elf_format.specs.VersionName as version;
ghost use Rattle.elf_versions.specs.Cause.{IsVersionFault};
ghost use Rattle.elf_versions.specs.Shown.{headed};

use crate::chain::VerdauxIter;
use crate::error::VersionError;
use crate::heads::VerdefIter;
use crate::name_table::{IndexedName, NameTable};
use crate::strings::string_at;
use elf_format::ElfError;
use elf_tables::Verdef;
use std::alloc::Global;
use std::marker::Model;

/// The names of the version definitions of a file, by version index from 0 to the number of definitions.
#[derive(Drop)]
pub struct VersionNames<'a> {
    names: NameTable<'a>,
}

impl<'a> Model for VersionNames<'a> {
    ghost use Rattle.std.specs.Prelude.{ℕ, List, Option};

    ghost Value = { List (Option (List ℕ)) };

    ghost view = { λ v. v.names };
}

impl<'a> VersionNames<'a> {
    /// Returns the names of the version definitions, of which `last` is the highest index (`sh_info` of their section).
    /// `Elf(VersionTable)` where a record is truncated, a definition has no name record, or its name is unreadable;
    /// `BadIndex` where an index is above `last`; whichever comes first in the chain. `NoMemory` where an allocation
    /// fails.
    pub fn new(
        alloc: Global,
        last: u32,
        strings: &'a [u8],
        definitions: VerdefIter<'a>,
    ) -> Result<VersionNames<'a>, VersionError>
        ensures { MatchResult result (λ names. version_names last strings.now definitions.entry ≡ Ok names) (IsVersionFault (result_err (version_names last strings.now definitions.entry))) }
    {
        let mut names = NameTable::new(alloc, index_count(last))?;
        for definition in definitions {
            let named = defined_version(last, strings, definition)?;
            names.put(named.index, named.name)?;
        }
        Ok(VersionNames { names })
    }

    /// Returns the number of indexes: one more than the number of definitions, at most 65536.
    pub fn len(&self) -> usize
        ensures { result ≡ length self.now }
    {
        self.names.len()
    }

    /// Returns the name of a version index, or None where no definition has it.
    pub fn get(&self, index: usize) -> Option<&'a [u8]>
        ensures { option_copied result ≡ option_flatten (slice_get self.now index) }
    {
        self.names.get(index)
    }
}

/// The greatest version index.
const GREATEST_INDEX: u32 = 0xffff;

/// Returns the number of version indexes from 0 to `last`, within 16 bits.
fn index_count(last: u32) -> usize
    ensures { result ≡ version_index_count last }
{
    last.min(GREATEST_INDEX) as usize + 1
}

/// Returns the index and the first name of a definition.
fn defined_version<'a>(
    last: u32,
    strings: &'a [u8],
    definition: Result<(Verdef, VerdauxIter<'a>), ElfError>,
) -> Result<IndexedName<'a>, VersionError>
    ensures bound { IfOk result (λ named. named.index < version_index_count last) }
    ensures value { MatchResult result (λ named. version.defined_version last strings.now (on_ok (λ item. headed item.0.bytes item.1) definition.entry) ≡ Ok (named.index, named.name.now)) (IsVersionFault (result_err (version.defined_version last strings.now (on_ok (λ item. headed item.0.bytes item.1) definition.entry)))) }
{
    let Ok((definition, names)) = definition else {
        return Err(VersionError::Elf(ElfError::VersionTable));
    };
    let Some(name) = first_name(strings, names) else {
        return Err(VersionError::Elf(ElfError::VersionTable));
    };
    let index = definition.vd_ndx();
    if u32::from(index) > last {
        return Err(VersionError::BadIndex(index));
    }
    Ok(IndexedName { index, name })
}

/// Returns the name in the first record, or None where there is no record, it is truncated, or its name is unreadable.
fn first_name<'a>(strings: &'a [u8], mut names: VerdauxIter<'a>) -> Option<&'a [u8]>
    ensures { option_copied result ≡ version.first_name strings.now names.entry }
{
    match names.next() {
        Some(Ok(name)) => string_at(strings, name.vda_name() as usize),
        _ => None,
    }
}
