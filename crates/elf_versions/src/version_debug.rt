//! The text of a symbol's version for a reader: `@` (hidden) or `@@`, and the name of its version index, looked for in
//! the version definitions and then in the needed versions.

ghost use Rattle.std.specs.Prelude.{◌≡◌, ◌++◌, ◌∷◌, [], Ok, None, option_copied, option_map, IfOk};
ghost use Rattle.elf_format.specs.Chain.{on_ok};
ghost use Rattle.elf_format.specs.VersionName as version;
ghost use Rattle.elf_format.specs.VersionName.{definition_name, needed_name, needed_name_or, name_in_either, version_mark};
ghost use Rattle.elf_format.specs.Bytes as bytes;
ghost use Rattle.elf_versions.specs.Shown.{headed};

use crate::chain::{VerdauxIter, VernauxIter};
use crate::heads::{VerdefIter, VerneedIter};
use crate::strings::string_at;
use elf_format::ElfError;
use elf_tables::{Verdef, Verneed, Versym};
use std::alloc::{AllocError, Global};

/// Returns the text of a symbol's version by its version record (Versym). None where the symbol has none, where neither
/// the definitions nor the needed versions have a name for its index, and where a record up to it or the name itself is
/// unreadable.
pub fn version_text<'a>(
    alloc: Global,
    versym: Option<Versym>,
    definitions: VerdefIter<'a>,
    definition_strings: &'a [u8],
    needs: VerneedIter<'a>,
    need_strings: &'a [u8],
) -> Result<Option<Vec<u8>>, AllocError>
    ensures { IfOk result (λ text. option_map (λ v. v.items) text ≡ version.version_text (λ index. name_in_either (definition_name definition_strings.now index definitions.entry) (needed_name need_strings.now index needs.entry)) (option_map (λ v. v.bytes) versym)) }
{
    let Some(versym) = versym else {
        return Ok(None);
    };
    let index = versym.index();
    match find_name(index, definitions, definition_strings, needs, need_strings) {
        Some(name) => {
            let text = marked(alloc, versym.is_hidden(), name)?;
            Ok(Some(text))
        }
        None => Ok(None),
    }
}

/// Returns a name after `@` or, where its version is not hidden, `@@`.
fn marked(alloc: Global, is_hidden: bool, name: &[u8]) -> Result<Vec<u8>, AllocError>
    ensures { IfOk result (λ v. v.items ≡ version_mark is_hidden ++ name.now) }
{
    let mark: &[u8] = if is_hidden { b"@" } else { b"@@" };
    let mut text = Vec::with_capacity(alloc, mark.len() + name.len())?;
    text.extend_from_slice(mark)?;
    text.extend_from_slice(name)?;
    Ok(text)
}

/// Returns the name of a version index, or None where it has none or is unreadable.
fn find_name<'a>(
    index: u16,
    definitions: VerdefIter<'a>,
    definition_strings: &'a [u8],
    needs: VerneedIter<'a>,
    need_strings: &'a [u8],
) -> Option<&'a [u8]>
    ensures { option_copied result ≡ name_in_either (definition_name definition_strings.now index definitions.entry) (needed_name need_strings.now index needs.entry) }
{
    match find_definition(definition_strings, index, definitions) {
        Ok(Some(name)) => Some(name),
        Ok(None) => find_needed(need_strings, index, needs).unwrap_or(None),
        Err(_) => None,
    }
}

/// Returns the name of the first definition of an index that has one.
#[tactic(auto, using(crate::proofs::TextLemmas::definition_step))]
fn find_definition<'a>(
    strings: &'a [u8],
    index: u16,
    definitions: VerdefIter<'a>,
) -> Result<Option<&'a [u8]>, ElfError>
    ensures { on_ok option_copied result ≡ definition_name strings.now index definitions.entry }
{
    for definition in definitions {
        match name_of_definition(strings, index, definition) {
            Ok(None) => {}
            Ok(Some(name)) => return Ok(Some(name)),
            Err(error) => return Err(error),
        }
    }
    Ok(None)
}

/// Returns the name of a definition, or None where it has another index or no name record.
fn name_of_definition<'a>(
    strings: &'a [u8],
    index: u16,
    definition: Result<(Verdef, VerdauxIter<'a>), ElfError>,
) -> Result<Option<&'a [u8]>, ElfError>
    ensures { on_ok option_copied result ≡ definition_name strings.now index (on_ok (λ item. headed item.0.bytes item.1) definition.entry ∷ []) }
{
    let (definition, mut names) = match definition {
        Ok(definition) => definition,
        Err(error) => return Err(error),
    };
    if definition.vd_ndx() != index {
        return Ok(None);
    }
    match names.next() {
        None => Ok(None),
        Some(Err(error)) => Err(error),
        Some(Ok(name)) => readable(strings, name.vda_name()),
    }
}

/// Returns the string at an offset; `VersionTable` where it is unreadable.
fn readable<'a>(strings: &'a [u8], offset: u32) -> Result<Option<&'a [u8]>, ElfError>
    ensures { on_ok option_copied result ≡ version.readable (bytes.string_at strings.now offset) }
{
    match string_at(strings, offset as usize) {
        Some(name) => Ok(Some(name)),
        None => Err(ElfError::VersionTable),
    }
}

/// Returns the name of the first needed version of an index.
#[tactic(auto, using(crate::proofs::TextLemmas::needed_step))]
fn find_needed<'a>(
    strings: &'a [u8],
    index: u16,
    needs: VerneedIter<'a>,
) -> Result<Option<&'a [u8]>, ElfError>
    ensures { on_ok option_copied result ≡ needed_name strings.now index needs.entry }
{
    for need in needs {
        match name_from(strings, index, need) {
            Ok(None) => {}
            Ok(Some(name)) => return Ok(Some(name)),
            Err(error) => return Err(error),
        }
    }
    Ok(None)
}

/// Returns the name of the first version of an index that is needed from a file.
fn name_from<'a>(
    strings: &'a [u8],
    index: u16,
    need: Result<(Verneed, VernauxIter<'a>), ElfError>,
) -> Result<Option<&'a [u8]>, ElfError>
    ensures { on_ok option_copied result ≡ needed_name strings.now index (on_ok (λ item. headed item.0.bytes item.1) need.entry ∷ []) }
{
    match need {
        Ok((_, versions)) => name_in_chain(strings, index, versions),
        Err(error) => Err(error),
    }
}

/// Returns the name of the first version of an index in a file's chain.
fn name_in_chain<'a>(
    strings: &'a [u8],
    index: u16,
    versions: VernauxIter<'a>,
) -> Result<Option<&'a [u8]>, ElfError>
    ensures { on_ok option_copied result ≡ needed_name_or strings.now index versions.entry (Ok None) }
{
    for version in versions {
        match version {
            Ok(version) => {
                if version.vna_other() == index {
                    return readable(strings, version.vna_name());
                }
            }
            Err(error) => return Err(error),
        }
    }
    Ok(None)
}
