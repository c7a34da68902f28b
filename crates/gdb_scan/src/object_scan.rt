//! What one object gives to an index, before its compilation units (CUs) have indexes among those of all objects.

ghost use Rattle.std.specs.Prelude.{◌≡◌, ◌<◌, length};
ghost use Rattle.std.specs.List.{All};
ghost use Rattle.gdb_scan.specs.Buckets.{in_buckets};
ghost use Rattle.gdb_scan.specs.Groups.{groups};
ghost use Rattle.gdb_scan.specs.Marks.{all_marked};
ghost use Rattle.gdb_scan.specs.Scan.{IsSoundScan};
ghost use Rattle.gdb_scan.specs.ScanOf.{scan_of, AreWithin};

use crate::mark::Publication;
use gdb_index_format::CuBoundary;
use std::marker::Model;

/// The units of an object, at least one, its publications of names in the order of the file, and the number of its
/// placements that count.
#[derive(Debug, Drop)]
pub struct PerObjectScan<'a> {
    units: Vec<CuBoundary>,
    publications: Vec<Publication<'a>>,
    placed: usize,
}

impl<'a> Model for PerObjectScan<'a> {
    ghost use Rattle.gdb_scan.specs.Scan.{ObjectScan, IsSoundScan as IsSound};
    ghost use Rattle.gdb_scan.specs.ScanOf.{scan_of as object_scan, AreWithin as AreInside};

    ghost Value = { ObjectScan };

    ghost view = { λ s. object_scan s.units.items s.publications.items s.placed };

    ghost invariant = { λ s. IsSound (object_scan s.units.items s.publications.items s.placed) × AreInside s.units.items s.publications.items };
}

impl<'a> PerObjectScan<'a> {
    /// Returns the scan with these units and publications, and so many placements that count.
    pub(crate) fn new(
        units: Vec<CuBoundary>,
        publications: Vec<Publication<'a>>,
        placed: usize,
    ) -> Self
        requires sound { IsSoundScan (scan_of units.items publications.items placed) }
        requires within { AreWithin units.items publications.items }
        ensures { result ≡ scan_of units.items publications.entry.items placed }
    {
        PerObjectScan {
            units,
            publications,
            placed,
        }
    }

    /// Returns the object's units, each with its offset in the object's own `.debug_info`, in bytes from its start.
    pub fn units(&self) -> &[CuBoundary]
        ensures units { result.now ≡ self.now.units }
        ensures sound { IsSoundScan self.now }
    {
        &self.units
    }

    /// Returns the publications of names of the object, in the order of the file.
    pub fn publications(&self) -> &[Publication<'a>]
        ensures names { in_buckets (groups (all_marked result.now)) ≡ self.now.names }
        ensures within { All (λ p. p.unit < length self.now.units) result.now }
        ensures sound { IsSoundScan self.now }
    {
        &self.publications
    }

    /// Returns how many of the object's placements count: those with a size, of sections of code.
    pub fn placed(&self) -> usize
        ensures placed { result ≡ self.now.placed }
        ensures sound { IsSoundScan self.now }
    {
        self.placed
    }
}
