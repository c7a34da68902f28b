//! The elements of the CU vectors of all objects, distributed over one list a bucket.

ghost use Rattle.std.specs.Prelude.{◌≡◌, ◌+◌, ◌^◌, ◌<◌, ◌≤◌, [], length, OnOk, IfOk};
ghost use Rattle.std.specs.List.{All};
ghost use Rattle.gdb_index_format.specs.Published.{bucket};
ghost use Rattle.gdb_scan.specs.Buckets.{in_buckets};
ghost use Rattle.gdb_scan.specs.Groups.{groups};
ghost use Rattle.gdb_scan.specs.Marks.{all_marked};
ghost use Rattle.gdb_scan.specs.Scan.{units_in_scan, names_in_scan};
ghost use Rattle.gdb_tables.specs.Scans.{mark_word, unit_total};
ghost use Rattle.gdb_tables.specs.steps.Distributed.{element_shown, lists_shown, words_of_marks, with_pairs, split_pairs, AreDistributed};

use crate::element::NamedElement;
use crate::merge::units_of;
use gdb_index::encode_cu_vector_entry;
use gdb_scan::{PerObjectScan, Publication};
use std::alloc::{AllocError, Global};

/// The number of buckets.
const BUCKETS: usize = 32;

/// Returns the publications of names of an object, none where it has no scan.
fn publications_of<'s, 'a>(scan: &'s Option<PerObjectScan<'a>>) -> &'s [Publication<'a>]
    ensures names { in_buckets (groups (all_marked result.now)) ≡ names_in_scan scan.now }
    ensures within { All (λ p. p.unit < length (units_in_scan scan.now)) result.now }
{
    match scan {
        Some(scan) => scan.publications(),
        None => &[],
    }
}

/// Returns the bucket of a published name: the five highest bits of its hash.
#[tactic(auto, unfolding(gdb_index_format::specs::Published::bucket))]
fn bucket_of(publication: &Publication<'_>) -> usize
    ensures is { result ≡ bucket publication.now.name.now }
    ensures below { result < 32 }
{
    (publication.hash >> 27) as usize
}

/// Returns the element of a publication, where the object's first unit has the number `first`.
fn element_of<'a>(first: u32, publication: &Publication<'a>) -> NamedElement<'a>
    requires { first + publication.now.unit < 2 ^ 24 }
    ensures { element_shown result ≡ (publication.now.name.now, mark_word first (record { unit = publication.now.unit; flag = publication.now.flag })) }
{
    NamedElement {
        name: publication.name,
        hash: publication.hash,
        element: encode_cu_vector_entry(first + publication.unit as u32, publication.flag),
    }
}

/// Returns an empty list for each bucket.
#[tactic(auto, unfolding(crate::specs::steps::Distributed::split_pairs))]
fn empty_lists<'a>(alloc: Global) -> Result<Vec<Vec<NamedElement<'a>>>, AllocError>
    ensures { IfOk result (λ lists. lists_shown lists.items ≡ split_pairs []) }
{
    let mut lists = Vec::with_capacity(alloc, BUCKETS)?;
    for _ in 0..BUCKETS {
        lists.push(Vec::new(alloc))?;
    }
    Ok(lists)
}

/// Adds the elements of an object's publications, each to the list of its bucket, where the object's first unit has the
/// number `first`.
fn add_publications<'a>(
    lists: &mut Vec<Vec<NamedElement<'a>>>,
    first: u32,
    publications: &[Publication<'a>],
) -> Result<(), AllocError>
    requires buckets { length lists.old.items ≡ 32 }
    requires within { All (λ p. first + p.unit < 2 ^ 24) publications.now }
    ensures { OnOk result (lists_shown lists.new.items ≡ with_pairs (lists_shown lists.old.items) (words_of_marks first (all_marked publications.now))) }
{
    for publication in publications {
        let element = element_of(first, publication);
        lists[bucket_of(publication)].push(element)?;
    }
    Ok(())
}

/// Returns the elements of each bucket, in input order. A scan is dropped as soon as its publications are distributed.
pub(crate) fn distributed<'a>(
    alloc: Global,
    scans: Vec<Option<PerObjectScan<'a>>>,
) -> Result<Vec<Vec<NamedElement<'a>>>, AllocError>
    requires { unit_total scans.items ≤ 2 ^ 24 }
    ensures { IfOk result (λ lists. AreDistributed scans.entry.items (lists_shown lists.items)) }
{
    let mut lists = empty_lists(alloc)?;
    let mut first = 0;
    for scan in scans {
        add_publications(&mut lists, first, publications_of(&scan))?;
        first += units_of(&scan).len() as u32;
    }
    Ok(lists)
}
