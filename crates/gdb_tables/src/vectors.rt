//! The names of one bucket, in the order of first publication, each with its CU vector.

ghost use Rattle.std.specs.Prelude.{◌≡◌, ◌^◌, ◌<◌, ◌++◌, length, OnOk, IfOk};
ghost use Rattle.std.specs.List.{All};
ghost use Rattle.std.specs.List.Sorted.{IsPermutation, IsNonDecreasing};
ghost use Rattle.gdb_index.specs.Hashed.{hashes_of};
ghost use Rattle.gdb_index_format.specs.Named.{all_named};
ghost use Rattle.gdb_index_format.specs.Published.{firsts};
ghost use Rattle.gdb_scan.specs.Groups.{names_of, groups};
ghost use Rattle.gdb_tables.specs.steps.Distributed.{elements_shown};
ghost use Rattle.gdb_tables.specs.steps.Vectors.{keys_shown, without_elements, AreIndexed, AreBelow, element_counts, with_elements, as_groups, AddsSorted};

use crate::element::{IndexedElement, NamedElement};
use crate::hashed_name::HashedName;
use gdb_index_format::NameWords;
use indexmap::IndexSet;
use std::alloc::{AllocError, Global};

/// Returns the names of some elements, each once and in the order of first publication, and the elements, each with the
/// index of its name.
fn indexed<'a>(
    alloc: Global,
    elements: &[NamedElement<'a>],
) -> Result<(IndexSet<HashedName<'a>>, Vec<IndexedElement>), AllocError>
    ensures names { IfOk result (λ r. keys_shown r.0.keys ≡ firsts (names_of (elements_shown elements.now))) }
    ensures indexed { IfOk result (λ r. AreIndexed (keys_shown r.0.keys) (elements_shown elements.now) r.1.items) }
{
    let mut names = IndexSet::new(alloc);
    let mut indexes = Vec::with_capacity(alloc, elements.len())?;
    for named in elements {
        let key = HashedName {
            name: named.name,
            hash: named.hash,
        };
        let (index, _) = names.insert_full(key)?;
        indexes.push(IndexedElement {
            index,
            element: named.element,
        })?;
    }
    Ok((names, indexes))
}

/// Returns how many elements each of so many names has.
fn count_elements(
    alloc: Global,
    names: usize,
    elements: &[IndexedElement],
) -> Result<Vec<usize>, AllocError>
    requires { AreBelow names elements.now }
    ensures { IfOk result (λ counts. counts.items ≡ element_counts names elements.now) }
{
    let mut counts = vec![in alloc; 0usize; names]?;
    for element in elements {
        counts[element.index] += 1;
    }
    Ok(counts)
}

/// Returns the names of a set in order, each with an empty CU vector that has room for so many elements as are counted.
/// Adds their hashes to a list.
fn empty_vectors<'a>(
    alloc: Global,
    hashes: &mut Vec<u32>,
    names: IndexSet<HashedName<'a>>,
    counts: &[usize],
) -> Result<Vec<NameWords<'a>>, AllocError>
    ensures names { IfOk result (λ list. all_named list.items ≡ without_elements names.entry.keys) }
    ensures hashes { OnOk result (hashes.new.items ≡ hashes.old.items ++ hashes_of (without_elements names.entry.keys)) }
{
    let mut list = Vec::with_capacity(alloc, counts.len())?;
    for key in names {
        let count = counts.get(list.len()).copied().unwrap_or(0);
        let words = Vec::with_capacity(alloc, count)?;
        hashes.push(key.hash)?;
        list.push(NameWords {
            name: key.name,
            words,
        })?;
    }
    Ok(list)
}

/// Adds each element to the CU vector of its name.
fn fill(names: &mut Vec<NameWords<'_>>, elements: &[IndexedElement]) -> Result<(), AllocError>
    requires { AreBelow (length names.old.items) elements.now }
    ensures { OnOk result (all_named names.new.items ≡ with_elements (all_named names.old.items) elements.now) }
{
    for element in elements {
        names[element.index].words.push(element.element)?;
    }
    Ok(())
}

/// Returns a name with its CU vector in ascending order.
fn sorted_name<'a>(name: &'a [u8], mut words: Vec<u32>) -> Result<NameWords<'a>, AllocError>
    ensures name { IfOk result (λ n. n.name.now ≡ name.now) }
    ensures same { IfOk result (λ n. IsPermutation words.items n.words.items) }
    ensures ascending { IfOk result (λ n. IsNonDecreasing n.words.items) }
    ensures fits { IfOk result (λ n. All (λ w. w < 2 ^ 32) n.words.items) }
{
    words.sort()?;
    Ok(NameWords { name, words })
}

/// Adds some names to a list, each with its CU vector in ascending order.
fn add_sorted<'a>(
    list: &mut Vec<NameWords<'a>>,
    names: Vec<NameWords<'a>>,
) -> Result<(), AllocError>
    ensures { OnOk result (AddsSorted (as_groups (all_named names.entry.items)) (all_named list.old.items) (all_named list.new.items)) }
{
    for named in names {
        let sorted = sorted_name(named.name, named.words)?;
        list.push(sorted)?;
    }
    Ok(())
}

/// Adds the names of a bucket to a list, in the order of first publication, each with its CU vector in ascending order,
/// and their hashes to another.
pub(crate) fn add_bucket<'a>(
    alloc: Global,
    list: &mut Vec<NameWords<'a>>,
    hashes: &mut Vec<u32>,
    elements: &[NamedElement<'a>],
) -> Result<(), AllocError>
    requires { hashes.old.items ≡ hashes_of (all_named list.old.items) }
    ensures names { OnOk result (AddsSorted (groups (elements_shown elements.now)) (all_named list.old.items) (all_named list.new.items)) }
    ensures hashes { OnOk result (hashes.new.items ≡ hashes_of (all_named list.new.items)) }
{
    let (keys, indexes) = indexed(alloc, elements)?;
    let counts = count_elements(alloc, keys.len(), &indexes)?;
    let mut names = empty_vectors(alloc, hashes, keys, &counts)?;
    fill(&mut names, &indexes)?;
    add_sorted(list, names)
}
