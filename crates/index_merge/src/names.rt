//! The names of two indexes, each once, with its joined CU vector (GDB manual, "Index Section Format": the symbol table).

ghost use Rattle.std.specs.Prelude.{◌≡◌, ◌+◌, ◌<◌, ◌≤◌, ◌^◌, ◌++◌, length, map, drop, OnOk, IfOk};
ghost use Rattle.std.specs.List.{All};
ghost use Rattle.gdb_index_format.specs.Named.{named as named_of, all_named};
ghost use Rattle.index_browser.specs.Areas.{unit_count};
ghost use Rattle.index_browser.specs.NameList.{listed_name, all_listed};
ghost use Rattle.index_merge.specs.Joined.{moved_element};
ghost use Rattle.index_merge.specs.Merged.{units_in_all};
ghost use Rattle.index_merge.specs.steps.Merging.{HasElementRoom, moved_name, joined_name as joined_named, merged_lists, IsOrderedName, AreOrdered, IsNameTaken, AreMergedNames};

use gdb_index::CuVector;
use gdb_index_format::NameWords;
use index_browser::{CheckedIndex, NameEntry, checked_is_well_formed};
use std::alloc::{AllocError, Global};
use std::cmp::Ordering;

/// Pushes the elements of a CU vector, where so many units stand before those that it counts from.
fn push_elements(words: &mut Vec<u32>, vector: &CuVector<'_>, units: u32) -> Result<(), AllocError>
    requires { All (HasElementRoom units) vector.now }
    ensures { OnOk result (words.new.items ≡ words.old.items ++ map (moved_element units) vector.now) }
{
    let mut index = 0;
    while let Some(element) = vector.get(index) {
        words.push(element + units)?;
        index += 1;
    }
    Ok(())
}

/// Returns a name with its elements in ascending order.
fn ordered<'a>(name: &'a [u8], mut words: Vec<u32>) -> Result<NameWords<'a>, AllocError>
    ensures { IfOk result (λ n. IsOrderedName (record { name = name.now; words = words.items }) (named_of n)) }
{
    words.sort()?;
    Ok(NameWords { name, words })
}

/// Returns a name of one index, where so many units stand before those of the index.
fn own_name<'a>(
    alloc: Global,
    entry: &NameEntry<'a>,
    units: u32,
) -> Result<NameWords<'a>, AllocError>
    requires { All (HasElementRoom units) entry.now.vector }
    ensures { IfOk result (λ n. IsOrderedName (moved_name units (listed_name entry.now)) (named_of n)) }
{
    let mut words = Vec::with_capacity(alloc, entry.vector.len())?;
    push_elements(&mut words, &entry.vector, units)?;
    let named = ordered(entry.name, words)?;
    Ok(named)
}

/// Returns a name of both indexes.
fn joined_name<'a>(
    alloc: Global,
    first: &NameEntry<'a>,
    second: &NameEntry<'_>,
    units: u32,
) -> Result<NameWords<'a>, AllocError>
    requires { All (HasElementRoom units) second.now.vector }
    ensures { IfOk result (λ n. IsOrderedName (joined_named units (listed_name first.now) (listed_name second.now)) (named_of n)) }
{
    let mut words = Vec::with_capacity(alloc, first.vector.len())?;
    push_elements(&mut words, &first.vector, 0)?;
    push_elements(&mut words, &second.vector, units)?;
    let named = ordered(first.name, words)?;
    Ok(named)
}

/// A name that was taken from two lists, and how many items of each were.
#[derive(Drop)]
struct Taken<'a> {
    named: NameWords<'a>,
    from_first: usize,
    from_second: usize,
}

/// Takes the least name of two lists in ascending order, where each has a name. A name of both lists is taken from both.
fn take_of_both<'a>(
    alloc: Global,
    first: &[NameEntry<'a>],
    second: &[NameEntry<'a>],
    units: u32,
) -> Result<Taken<'a>, AllocError>
    requires first { 0 < length first.now }
    requires second { 0 < length second.now }
    requires room { All (λ m. All (HasElementRoom units) m.words) (all_listed second.now) }
    ensures taken { IfOk result (λ t. IsNameTaken units (all_listed first.now) (all_listed second.now) (named_of t.named) (all_listed (drop t.from_first first.now)) (all_listed (drop t.from_second second.now))) }
    ensures within { IfOk result (λ t. (t.from_first ≤ length first.now) × (t.from_second ≤ length second.now)) }
{
    let n = &first[0];
    let m = &second[0];
    match n.name.cmp(&m.name) {
        Ordering::Less => {
            let named = own_name(alloc, n, 0)?;
            Ok(Taken {
                named,
                from_first: 1,
                from_second: 0,
            })
        }
        Ordering::Equal => {
            let named = joined_name(alloc, n, m, units)?;
            Ok(Taken {
                named,
                from_first: 1,
                from_second: 1,
            })
        }
        Ordering::Greater => {
            let named = own_name(alloc, m, units)?;
            Ok(Taken {
                named,
                from_first: 0,
                from_second: 1,
            })
        }
    }
}

/// Takes the least name of two lists in ascending order. A name of both lists is taken from both.
fn take_least<'a>(
    alloc: Global,
    first: &[NameEntry<'a>],
    second: &[NameEntry<'a>],
    units: u32,
) -> Result<Taken<'a>, AllocError>
    requires some { 0 < length first.now + length second.now }
    requires room { All (λ m. All (HasElementRoom units) m.words) (all_listed second.now) }
    ensures taken { IfOk result (λ t. IsNameTaken units (all_listed first.now) (all_listed second.now) (named_of t.named) (all_listed (drop t.from_first first.now)) (all_listed (drop t.from_second second.now))) }
    ensures within { IfOk result (λ t. (t.from_first ≤ length first.now) × (t.from_second ≤ length second.now)) }
{
    if first.is_empty() {
        let named = own_name(alloc, &second[0], units)?;
        return Ok(Taken {
            named,
            from_first: 0,
            from_second: 1,
        });
    }
    if second.is_empty() {
        let named = own_name(alloc, &first[0], 0)?;
        return Ok(Taken {
            named,
            from_first: 1,
            from_second: 0,
        });
    }
    let taken = take_of_both(alloc, first, second, units)?;
    Ok(taken)
}

/// Merges two lists of names in ascending order in one, where so many units stand before those of the second.
#[tactic(auto, using(std::proofs::lemmas::List::take_rest))]
fn merge_names<'a>(
    alloc: Global,
    first: &[NameEntry<'a>],
    second: &[NameEntry<'a>],
    units: u32,
) -> Result<Vec<NameWords<'a>>, AllocError>
    requires few { length first.now + length second.now < 2 ^ 30 }
    requires room { All (λ m. All (HasElementRoom units) m.words) (all_listed second.now) }
    ensures { IfOk result (λ v. AreOrdered (merged_lists units (all_listed first.now) (all_listed second.now)) (all_named v.items)) }
{
    let total = first.len() + second.len();
    let mut names = Vec::with_capacity(alloc, total)?;
    let mut left = 0;
    let mut right = 0;
    while left + right < total {
        let taken = take_least(alloc, &first[left..], &second[right..], units)?;
        left += taken.from_first;
        right += taken.from_second;
        names.push(taken.named)?;
    }
    Ok(names)
}

/// Returns the names of two indexes, where so many units stand before those of the second. Each name stands once, with its
/// elements in ascending order.
pub(crate) fn joined_names<'a>(
    alloc: Global,
    first: &CheckedIndex<'a>,
    second: &CheckedIndex<'a>,
    units: u32,
) -> Result<Vec<NameWords<'a>>, AllocError>
    requires few { units_in_all first.now second.now ≤ 2 ^ 24 }
    requires units { units ≡ unit_count first.now }
    ensures { IfOk result (λ v. AreMergedNames first.now second.now (all_named v.items)) }
{
    checked_is_well_formed();
    let _second = second.bytes();
    let first_names = first.names(alloc)?;
    let second_names = second.names(alloc)?;
    let names = merge_names(alloc, &first_names, &second_names, units)?;
    Ok(names)
}
