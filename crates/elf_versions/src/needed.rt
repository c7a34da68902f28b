//! The names of the versions that symbols need (GNU symbol versioning, Version Requirements), found by their version
//! records (Versym). The last record (Vernaux) of an index counts.

ghost use Rattle.std.specs.Prelude.{◌≡◌, slice_get, option_copied, Ok, MatchResult};
ghost use Rattle.std.specs.Option.{option_flatten};
ghost use Rattle.std.specs.Result.{result_err};
ghost use Rattle.elf_format.specs.Chain.{on_ok, each_ok};
ghost use Rattle.elf_format.specs.VersionName.{needed_names};
ghost use Rattle.elf_format.specs.VersionName as named;
ghost use Rattle.elf_versions.specs.Cause.{IsVersionFault};
ghost use Rattle.elf_versions.specs.Shown.{headed};
ghost use Rattle.elf_versions.specs.steps.Names.{put_names};

use crate::chain::VernauxIter;
use crate::error::VersionError;
use crate::heads::VerneedIter;
use crate::name_table::{IndexedName, NameTable};
use crate::strings::string_at;
use elf_format::{ElfError, SymbolIndex};
use elf_tables::{Vernaux, Verneed, Versym};
use elf_words::Records;
use std::alloc::Global;
use std::marker::Model;

/// For each symbol the name of the version that it needs, if any.
#[derive(Drop)]
pub struct VerneedTable<'a> {
    versyms: Records<'a, Versym>,
    names: NameTable<'a>,
}

impl<'a> Model for VerneedTable<'a> {
    ghost use Rattle.std.specs.Prelude.{ℕ, List, Option, map, slice_get};
    ghost use Rattle.std.specs.Option.{option_flatten};
    ghost use Rattle.elf_format.specs.Version.{version_index};

    ghost Value = { List (Option (List ℕ)) };

    ghost view = { λ t. map (λ versym. option_flatten (slice_get t.names (version_index versym))) t.versyms };
}

impl<'a> VerneedTable<'a> {
    /// Returns the table for symbols with these version records, by the needed versions of a file.
    /// `Elf(VersionTable)` where a record is truncated or the name of a needed version is unreadable. `NoMemory` where
    /// an allocation fails.
    pub fn new(
        alloc: Global,
        versyms: Records<'a, Versym>,
        strings: &'a [u8],
        needs: VerneedIter<'a>,
    ) -> Result<VerneedTable<'a>, VersionError>
        ensures { MatchResult result (λ table. needed_names versyms.entry strings.now needs.entry ≡ Ok table) (IsVersionFault (result_err (needed_names versyms.entry strings.now needs.entry))) }
    {
        let mut names = NameTable::new(alloc, 0)?;
        for need in needs {
            put_needed(&mut names, strings, need)?;
        }
        Ok(VerneedTable { versyms, names })
    }

    /// Returns the name of the version that a symbol needs, or None where it has no version record, or its version is
    /// not a needed one.
    pub fn version_name(&self, symbol: SymbolIndex) -> Option<&'a [u8]>
        ensures { option_copied result ≡ option_flatten (slice_get self.now symbol.0) }
    {
        let versym = self.versyms.get(symbol.0)?;
        self.names.get(versym.index() as usize)
    }
}

/// Enters the versions that are needed from a file.
fn put_needed<'a>(
    names: &mut NameTable<'a>,
    strings: &'a [u8],
    need: Result<(Verneed, VernauxIter<'a>), ElfError>,
) -> Result<(), VersionError>
    ensures { MatchResult result (λ _. on_ok (put_names names.old) (named.needed_from strings.now (on_ok (λ item. headed item.0.bytes item.1) need.entry)) ≡ Ok names.new) (IsVersionFault (result_err (named.needed_from strings.now (on_ok (λ item. headed item.0.bytes item.1) need.entry)))) }
{
    let Ok((_, versions)) = need else {
        return Err(VersionError::Elf(ElfError::VersionTable));
    };
    put_versions(names, strings, versions)
}

/// Enters needed versions.
fn put_versions<'a>(
    names: &mut NameTable<'a>,
    strings: &'a [u8],
    versions: VernauxIter<'a>,
) -> Result<(), VersionError>
    ensures { MatchResult result (λ _. on_ok (put_names names.old) (each_ok (named.needed_version strings.now) versions.entry) ≡ Ok names.new) (IsVersionFault (result_err (each_ok (named.needed_version strings.now) versions.entry))) }
{
    for version in versions {
        let named = needed_version(strings, version)?;
        names.put(named.index, named.name)?;
    }
    Ok(())
}

/// Returns the index and the name of a needed version.
fn needed_version<'a>(
    strings: &'a [u8],
    version: Result<Vernaux, ElfError>,
) -> Result<IndexedName<'a>, VersionError>
    ensures { MatchResult result (λ found. named.needed_version strings.now (on_ok (λ item. item.bytes) version) ≡ Ok (found.index, found.name.now)) (IsVersionFault (result_err (named.needed_version strings.now (on_ok (λ item. item.bytes) version)))) }
{
    let Ok(version) = version else {
        return Err(VersionError::Elf(ElfError::VersionTable));
    };
    let Some(name) = string_at(strings, version.vna_name() as usize) else {
        return Err(VersionError::Elf(ElfError::VersionTable));
    };
    Ok(IndexedName {
        index: version.vna_other(),
        name,
    })
}
