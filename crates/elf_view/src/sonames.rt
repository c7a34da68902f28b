//! The libraries that a file needs (gABI, Shared Object Dependencies), and whether they are known by their names.

ghost use Rattle.std.specs.Prelude.{◌≡◌, ℕ, List, IfOk, map, not, ◌&&◌};
ghost use Rattle.std.specs.List.{list_all};
ghost use Rattle.elf_format.specs.Dynamic as spec;
ghost use Rattle.elf_format.specs.Dynamic.{dynamic_entries, are_met};
ghost use Rattle.elf_format.specs.Symbol.{symbol_strings};
ghost use Rattle.elf_view.specs.Sonames.{is_one_of};

use crate::dynamic::{DT_NEEDED, DynView, tag_of};
use crate::file::File;
use elf_versions::string_at;
use elf_words::{DynFields, ElfClass};
use indexmap::IndexSet;
use std::alloc::{AllocError, Global};
use std::marker::Model;

/// Names of libraries (DT_SONAME), found by their hashes. Contracts see them as a list whose order has no meaning.
#[derive(Drop)]
pub struct Sonames<'a> {
    names: IndexSet<&'a [u8]>,
}

impl<'a> Model for Sonames<'a> {
    ghost use Rattle.std.specs.Prelude.{ℕ, List, map};

    ghost Value = { List (List ℕ) };

    ghost view = { λ s. map (λ name. name.now) s.names.keys };
}

impl<'a> Sonames<'a> {
    /// Returns the set of some names. The error is an allocation failure.
    pub fn new(alloc: Global, names: Vec<&'a [u8]>) -> Result<Sonames<'a>, AllocError>
        ensures { IfOk result (λ known. (name : List ℕ) → is_one_of known name ≡ is_one_of (map (λ n. n.now) names.entry.items) name) }
    {
        let mut known = IndexSet::new(alloc);
        for name in names {
            known.insert(name)?;
        }
        Ok(Sonames { names: known })
    }

    /// Returns whether a name is one of the set.
    #[tactic(auto, using(crate::proofs::SonameLemmas::any_by_part))]
    pub fn contains(&self, name: &[u8]) -> bool
        ensures { result ≡ is_one_of self.now name.now }
    {
        self.names.contains(name)
    }
}

/// Returns whether an entry of the dynamic section names no needed library, or one of `names`.
fn is_met<C: ElfClass>(entry: &C::Dyn, strings: &[u8], names: &Sonames<'_>) -> bool
    ensures { result ≡ spec.is_met C.class strings.now (is_one_of names.now) (C.Dyn.contents entry.now) }
{
    if tag_of::<C>(entry) != DT_NEEDED {
        return true;
    }
    let Ok(offset) = u32::try_from(entry.d_value()) else {
        return false;
    };
    match string_at(strings, offset as usize) {
        Some(name) => names.contains(name),
        None => false,
    }
}

/// Returns whether each entry names no needed library, or one of `names`.
fn are_all_met<C: ElfClass>(entries: &DynView<'_, C>, strings: &[u8], names: &Sonames<'_>) -> bool
    ensures { result ≡ list_all (spec.is_met C.class strings.now (is_one_of names.now)) entries.now }
{
    for entry in entries.iter() {
        if !is_met::<C>(&entry, strings, names) {
            return false;
        }
    }
    true
}

/// Returns whether each library that a file needs (DT_NEEDED) is one of `names`: its entry has a value below 2^32, and
/// the name at that offset of the strings that the symbol table is linked to is readable and in `names`. It is true where
/// the file's dynamic entries are malformed.
pub fn has_complete_deps<'a, C: ElfClass>(file: &File<'a, C>, names: &Sonames<'a>) -> bool
    ensures { result ≡ are_met C.class (symbol_strings C.class file.now.is_dynamic file.now.bytes) (is_one_of names.now) (dynamic_entries C.class file.now.bytes) }
{
    match file.dynamic_tags() {
        Ok(entries) => are_all_met::<C>(&entries, file.symbol_strings(), names),
        Err(_) => true,
    }
}

/// Returns whether an undefined symbol is an error: undefined symbols are not allowed, the output is an executable, and
/// all needed libraries are known.
pub fn should_enforce_undefined(allow: bool, is_executable: bool, complete: bool) -> bool
    ensures { result ≡ (not allow && is_executable && complete) }
{
    !allow && is_executable && complete
}
