//! What all objects of a program publish, for one index (GDB manual, "Index Section Format").

ghost use Rattle.std.specs.Prelude.{◌≡◌, ℕ, ◌^◌, ◌<◌, ◌*◌, ◌≤◌, List, [], ◌∷◌, length, IfOk};
ghost use Rattle.std.specs.List.{All};
ghost use Rattle.std.specs.List.Sorted.{IsNonDecreasing};
ghost use Rattle.gdb_index_format.specs.Named.{all_named, ListsPublished};
ghost use Rattle.gdb_index.specs.Scan.{IsWellFormedScan, HaveSmallWords, word_count};
ghost use Rattle.gdb_index.specs.Pool.{names_len};
ghost use Rattle.gdb_index.specs.Size.{scan_counts, AreSmall};
ghost use Rattle.gdb_index.specs.Answers.{words_under};
ghost use Rattle.gdb_index.specs.Hashed.{hashes_of};
ghost use Rattle.gdb_index.specs.FromParts.{AreIndexParts, in_pool_order as pool_order, pairs_of_names, scan_of_parts};

use crate::hash::gdb_hash;
use crate::pool_order::in_pool_order;
use crate::size::IndexCounts;
use gdb_index_format::{CuBoundary, NameWords};
use std::alloc::{AllocError, Global};
use std::marker::Model;

/// The compilation units (CUs) of all objects, and the names that they publish. The names are distinct and without a
/// zero byte. The elements of each CU vector ascend, and their CU indexes are below the number of units.
#[derive(Debug, Drop)]
pub struct GdbIndexScanResult<'a> {
    units: Vec<CuBoundary>,
    names: Vec<NameWords<'a>>,
    hashes: Vec<u32>,
    placed: usize,
    unit_counts: Vec<u32>,
}

impl<'a> Model for GdbIndexScanResult<'a> {
    ghost use Rattle.gdb_index_format.specs.Named.{all_named as all_named_of};
    ghost use Rattle.gdb_index.specs.Scan.{Scan, IsWellFormedScan as IsWellFormed};
    ghost use Rattle.std.specs.Prelude.{◌≡◌};
    ghost use Rattle.gdb_index.specs.Hashed.{hashes_of as hashes_in};

    ghost Value = { Scan };

    ghost view = { λ s. record { units = s.units.items; names = all_named_of s.names.items; placed = s.placed; unit_counts = s.unit_counts.items } };

    ghost invariant = { λ s. IsWellFormed (record { units = s.units.items; names = all_named_of s.names.items; placed = s.placed; unit_counts = s.unit_counts.items }) × (s.hashes.items ≡ hashes_in (all_named_of s.names.items)) };
}

impl<'a> GdbIndexScanResult<'a> {
    /// Makes a scan result from the units of all objects, the names in pool order with their hashes, the number of placed
    /// sections and the number of units of each object.
    pub fn new(
        units: Vec<CuBoundary>,
        names: Vec<NameWords<'a>>,
        hashes: Vec<u32>,
        placed: usize,
        unit_counts: Vec<u32>,
    ) -> Self
        requires hashed { hashes.items ≡ hashes_of (all_named names.items) }
        requires well_formed { IsWellFormedScan (record { units = units.items; names = all_named names.items; placed = placed; unit_counts = unit_counts.items }) }
        ensures { result ≡ record { units = units.items; names = all_named names.entry.items; placed = placed; unit_counts = unit_counts.items } }
    {
        GdbIndexScanResult {
            units,
            names,
            hashes,
            placed,
            unit_counts,
        }
    }

    /// Returns the scan result of one list of units, of names in any order and of a number of placed sections. The names get
    /// into pool order: ascending order of bucket (the five highest bits of the hash), and within one bucket the order in
    /// which they are given. The number of units stands as that of one object.
    ///
    /// Requires at most 2^24 units and fewer than 2^32 names; names that are distinct and have no zero byte; CU vectors that
    /// are not empty, ascend, repeats allowed, and name units by their CU indexes, with bits 24 to 27 zero; and a unit
    /// where there is a name or a placed section.
    ///
    /// The index of the result has the size that the parts have in the given order, and every lookup in it returns the CU
    /// vector that is given for the name, or Absent. The error is `AllocError`, out of memory.
    pub fn from_parts(
        alloc: Global,
        units: Vec<CuBoundary>,
        names: Vec<NameWords<'a>>,
        placed: usize,
    ) -> Result<GdbIndexScanResult<'a>, AllocError>
        requires { AreIndexParts units.items (all_named names.items) placed }

        // what the parts become
        ensures units { IfOk result (λ scan. scan.units ≡ units.items) }
        ensures counts { IfOk result (λ scan. scan.unit_counts ≡ length units.items ∷ []) }
        ensures placed { IfOk result (λ scan. scan.placed ≡ placed) }
        ensures names { IfOk result (λ scan. scan.names ≡ pool_order (all_named names.entry.items)) }

        // what an index of them has and answers
        ensures published { IfOk result (λ scan. ListsPublished (pairs_of_names (all_named names.entry.items)) scan.names) }
        ensures words { IfOk result (λ scan. (name : List ℕ) → words_under name scan.names ≡ words_under name (all_named names.entry.items)) }
        ensures size { IfOk result (λ scan. scan_counts scan ≡ scan_counts (scan_of_parts units.items (all_named names.entry.items) placed)) }
        ensures well_formed { IfOk result IsWellFormedScan }
    {
        read_elements(&names);
        let mut unit_counts = Vec::with_capacity(alloc, 1)?;
        unit_counts.push(units.len() as u32)?;
        let names = in_pool_order(alloc, names)?;
        let hashes = hashes_of_names(alloc, &names)?;
        Ok(GdbIndexScanResult {
            units,
            names,
            hashes,
            placed,
            unit_counts,
        })
    }

    /// Returns the units of all objects, in input order.
    pub fn units(&self) -> &[CuBoundary]
        ensures units { result.now ≡ self.now.units }
        ensures well_formed { IsWellFormedScan self.now }
    {
        &self.units
    }

    /// Returns the names in the order of the constant pool, each with the elements of its CU vector.
    pub fn names(&self) -> &[NameWords<'a>]
        ensures names { all_named result.now ≡ self.now.names }
        ensures well_formed { IsWellFormedScan self.now }
    {
        &self.names
    }

    /// Returns the hashes of the names, in their order.
    pub(crate) fn hashes(&self) -> &[u32]
        ensures { result.now ≡ hashes_of self.now.names }
    {
        &self.hashes
    }

    /// Returns the number of placed sections, for each of which the address area of the index has room.
    pub fn placed(&self) -> usize
        ensures { result ≡ self.now.placed }
    {
        self.placed
    }

    /// Returns the number of units of each object, in input order.
    pub fn unit_counts(&self) -> &[u32]
        ensures counts { result.now ≡ self.now.unit_counts }
        ensures well_formed { IsWellFormedScan self.now }
    {
        &self.unit_counts
    }

    /// Takes the units and the names out of the scan result.
    pub fn into_parts(self) -> (Vec<CuBoundary>, Vec<NameWords<'a>>)
        ensures units { result.0.items ≡ self.entry.units }
        ensures names { all_named result.1.items ≡ self.entry.names }
    {
        (self.units, self.names)
    }

    /// Returns the counts that the size of the index depends on.
    pub fn counts(&self) -> IndexCounts
        ensures counts { result ≡ scan_counts self.now }
        ensures small { length self.now.names < 2 ^ 32 → AreSmall result }
    {
        IndexCounts {
            units: self.units.len() as u128,
            placed: self.placed as u128,
            names: self.names.len() as u128,
            words: count_words(&self.names),
            name_bytes: count_name_bytes(&self.names),
        }
    }
}

/// Returns the hashes of names, in their order.
fn hashes_of_names(alloc: Global, names: &[NameWords<'_>]) -> Result<Vec<u32>, AllocError>
    ensures { IfOk result (λ v. v.items ≡ hashes_of (all_named names.now)) }
{
    let mut hashes = Vec::with_capacity(alloc, names.len())?;
    for named in names {
        hashes.push(gdb_hash(named.name))?;
    }
    Ok(hashes)
}

/// Reads the last element of each CU vector, so that proofs know all elements to be numbers of 32 bits.
fn read_elements(names: &[NameWords<'_>])
    requires { All (λ n. IsNonDecreasing n.words) (all_named names.now) }
    ensures { HaveSmallWords (all_named names.now) }
{
    for named in names {
        read_last(&named.words);
    }
}

/// Reads the last element of a CU vector.
fn read_last(words: &[u32])
    requires { IsNonDecreasing words.now }
    ensures { All (λ w. w < 2 ^ 32) words.now }
{
    if !words.is_empty() {
        let _last = words[words.len() - 1];
    }
}

/// Returns the number of elements of all CU vectors.
fn count_words(names: &[NameWords<'_>]) -> u128
    ensures count { result ≡ word_count (all_named names.now) }
    ensures small { result ≤ length names.now * 2 ^ 64 }
{
    let mut total = 0;
    for named in names {
        total += named.words.len() as u128;
    }
    total
}

/// Returns the size of all names in bytes, each with its zero byte.
fn count_name_bytes(names: &[NameWords<'_>]) -> u128
    ensures size { result ≡ names_len (all_named names.now) }
    ensures small { result ≤ length names.now * 2 ^ 64 }
{
    let mut total = 0;
    for named in names {
        total += named.name.len() as u128 + 1;
    }
    total
}
